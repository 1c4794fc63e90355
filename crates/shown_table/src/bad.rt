// A bad line, and how far a covering was shown.
use covering_check::CoverFault;

/// A line of a covering that shows no entry.
#[derive(Clone, Copy, Debug, PartialEq, Eq)]
pub struct BadLine {
    /// From 1, which is the order's line.
    pub number: u32,
    pub fault: CoverFault,
}

/// How far a covering was shown.
#[derive(Clone, Copy, Debug, PartialEq, Eq)]
pub enum Shown {
    /// Whole, with so many entries undecided.
    Whole(u32),
    /// Up to the first bad line.
    Bad(BadLine),
}
