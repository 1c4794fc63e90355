// The agenda of a calendar, made and written at once.
ghost use Rattle.std.specs.Prelude.{All, IfOk, OnOk, ◌≡◌, ◌++◌, string_bytes};
ghost use Rattle.agenda_list.specs.Agenda.{agenda_text, end_line, event_line, line_by};
ghost use Rattle.ical_text.specs.Moments.{IsInYears};
ghost use Rattle.outcome.specs.Writing.{Writes};

use ical_text::{Event, Events, shown_moment};
use no_memory::NoMemory;
use outcome::{Stop, write_text};
use source_sink::Sink;
use std::alloc::Global;

fn push_line(text: &mut Vec<u8>, moment: &[u8], summary: &[u8]) -> Result<(), NoMemory>
    ensures { OnOk result (text.new.items ≡ text.old.items ++ line_by moment.now summary.now) }
{
    text.extend_from_slice(moment)?;
    text.extend_from_slice(b" ")?;
    text.extend_from_slice(summary)?;
    text.extend_from_slice(b"\n")?;
    Ok(())
}

/// Adds the line of an event.
fn push_event(alloc: Global, text: &mut Vec<u8>, event: &Event) -> Result<(), NoMemory>
    requires { IsInYears event.now.start }
    ensures { OnOk result (text.new.items ≡ text.old.items ++ event_line event.now) }
{
    let moment = shown_moment(alloc, event.start)?;
    push_line(text, moment.as_bytes(), event.summary.bytes())
}

/// The last line.
fn end_line(alloc: Global, count: usize) -> Result<String, NoMemory>
    ensures { IfOk result (λ line. string_bytes line ≡ end_line count) }
{
    Ok(format!(in alloc; "end events {count}\n")?)
}

fn agenda_text(alloc: Global, events: &Events) -> Result<Vec<u8>, NoMemory>
    requires { All (λ e. IsInYears e.start) events.now }
    ensures { IfOk result (λ text. text.items ≡ agenda_text events.now) }
{
    let mut text = Vec::new(alloc);
    for i in 0..events.count() {
        push_event(alloc, &mut text, events.event(i))?;
    }
    let end = end_line(alloc, events.count())?;
    text.extend_from_slice(end.as_bytes())?;
    Ok(text)
}

/// Writes the agenda of a calendar, in which nothing is undecided: `YYYY-MM-DDTHH:MMZ SUMMARY` for each event, in the order
/// of the calendar, and last `end events N`.
pub fn write_agenda<K: Sink>(alloc: Global, events: &Events, out: &mut K) -> Result<u32, Stop>
    requires { All (λ e. IsInYears e.start) events.now }
    ensures writes { Writes (agenda_text events.now) result
        (K.faults out.old) (K.faults out.new) (K.held out.old) (K.held out.new) }
    ensures count { IfOk result (λ count. count ≡ 0) }
{
    let Ok(text) = agenda_text(alloc, events) else {
        return Err(Stop::NoMemory);
    };
    write_text(out, &text, 0)
}
