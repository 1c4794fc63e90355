// What stands in a deque, and of which judge's trees.
ghost use Rattle.cell_split.specs.Judges.{Content};

use cell_split::Task;
use std::marker::Brand;

/// A task that is to be searched.
#[derive(Clone, Copy, Debug, PartialEq, Eq)]
pub struct Job {
    pub task: Task,
    /// Whether the judge is known to split it.
    pub splits: bool,
}

/// Whose trees the tasks of a deque are of. All handles of a deque have the same ones, by their type.
pub trait Case {
    ghost case: { Content };
}

/// Whose trees these are is picked at a call.
impl Case for Brand {
    ghost use Rattle.std.specs.Prelude.{pos};
    ghost use Rattle.cell_split.specs.declared.verdict.Verdict.TheVariants.{Outside};

    ghost case = { record { problems = 0; root = record { x = pos 0; y = pos 0; size = 29; first = 0; last = 720 }; verdict = λ _. Outside } };
}
