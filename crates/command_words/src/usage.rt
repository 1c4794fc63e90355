// The line that says which words the program takes.
ghost use Rattle.outcome.specs.Endings.{IsRefusedBy};
ghost use Rattle.command_words.specs.Usage.{usage_line};

use outcome::{Ending, Status};
use std::alloc::Global;

/// How a run ends whose words are no command: by the line that says which words the program takes.
#[tactic(auto, unfolding(crate::specs::Usage::usage_line))]
pub fn wrong_words(alloc: Global) -> Ending
    ensures { IsRefusedBy Status.Usage usage_line result }
{
    Ending::with_line(
        alloc,
        Status::Usage,
        "usage: timetable table [--workers W] | cover [--workers W] [--form F] | demo [--number M] [--workers W] | plain | check | order | sun MINUTE LON LAT WHAT [meeus] | set [--workers W] | ical [--workers W] | agenda\n",
    )
}
