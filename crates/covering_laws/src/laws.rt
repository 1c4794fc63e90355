// What is true of each line that is written: the contracts of functions that do nothing.
ghost use Rattle.covering_laws.specs.Acceptance.{RunsLinesAreAccepted, TreesAreSettled, WrittenLinesAreAccepted, WrittenLinesAreSingle};

/// Each line of the second form that is written of a settled tree, in any spelling of its JSON, is accepted and
/// shows the tree's entry.
pub fn runs_lines_are_accepted()
    ensures { RunsLinesAreAccepted }
{}

/// The line of a settled tree, as it is written in either form, is accepted and shows the tree's entry.
pub fn written_lines_are_accepted()
    ensures { WrittenLinesAreAccepted }
{}

/// No line that is written has a line feed before its end.
pub fn written_lines_are_single()
    ensures { WrittenLinesAreSingle }
{}

/// Each problem of a judge has what is settled of its tree, whether or not anyone searches it.
pub fn trees_are_settled()
    ensures { TreesAreSettled }
{}
