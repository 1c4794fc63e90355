// Cells of places and ranks, how they are split, and the tree that a judge's verdicts make of them.
// Contract: `children` follows the split rule, whose tree ends and holds every place of the root at every rank.
#![tactic(auto)]

mod cell;
mod judge;
pub mod laws;
mod split;
mod verdict;

pub use cell::{Cell, Children, Task, is_smallest, key, rect_of, root_at, within};
pub use judge::{Judge, Judged};
pub use split::children;
pub use verdict::{Entry, Leaf, Verdict};
