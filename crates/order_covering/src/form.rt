// The forms of a covering.

/// How the letters of a covering's lines are spelled.
#[derive(Clone, Copy, Debug, PartialEq, Eq)]
pub enum Form {
    /// One by one: the first form.
    Letters,
    /// In runs: the second form, which is shorter.
    Runs,
}
