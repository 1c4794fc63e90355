// Reads a calendar line by line.
ghost use Rattle.std.specs.Prelude.{All, ◌≡◌, ◌<◌, ◌≤◌, ◌+◌, ◌^◌, ◌∷◌, ◌++◌, [], List, ℕ, Ok, Err, OnOk, IfErr, IfOk, MatchResult, ◌⊎◌, if◌then◌else◌, reverse, length};
ghost use Rattle.ical_text.specs.Held.{place_of, reading_of};
ghost use Rattle.ical_text.specs.Lines.{joined_from, joined_lines};
ghost use Rattle.ical_text.specs.Moments.{IsInYears};
ghost use Rattle.ical_text.specs.Reading.{after_name, end_fault, ends_event, events_by, events_in, fault_by, is_event, is_innermost, is_misplaced, is_outside, opens_calendar, reading, start};
ghost use Rattle.ical_text.specs.Seen.{property_seen};

use crate::event::{Event, Events};
use crate::fault::IcalFault;
use crate::line::Line;
use crate::own::Own;
use crate::pieces::{first_piece, is_continued};
use crate::property::{Name, Property, is_word, property_of};
use no_memory::NoMemory;
use std::alloc::Global;
use std::mem;

// what is known of the lines that were read
#[derive(Drop)]
pub(crate) struct Reader {
    lines: u64,
    // the names of the open components, innermost last
    names: Vec<Line>,
    own: Own,
    events: Vec<Event>,
}

fn is_innermost(names: &[Line], value: &[u8]) -> bool
    ensures { result ≡ is_innermost (reverse names.now) value.now }
{
    match names.last() {
        None => false,
        Some(name) => is_word(name.bytes(), value),
    }
}

// a component that opens inside eight others, or ends and is not the innermost
fn is_misplaced(name: Name, names: &[Line], value: &[u8]) -> bool
    ensures { result ≡ is_misplaced name (reverse names.now) value.now }
{
    match name {
        Name::Begin => names.len() == 8,
        Name::End => !is_innermost(names, value),
        Name::Uid | Name::Start | Name::Summary | Name::Other => false,
    }
}

fn opens_calendar(name: Name, value: &[u8]) -> bool
    ensures { result ≡ opens_calendar name value.now }
{
    match name {
        Name::Begin => is_word(b"VCALENDAR", value),
        Name::End | Name::Uid | Name::Start | Name::Summary | Name::Other => false,
    }
}

// line 1 that doesn't open the calendar, or a line behind its end
fn is_outside(lines: u64, names: &[Line], name: Name, value: &[u8]) -> bool
    ensures { result ≡ is_outside lines (reverse names.now) name value.now }
{
    if lines == 0 {
        !opens_calendar(name, value)
    } else {
        names.is_empty()
    }
}

// an event directly in the calendar is the innermost
fn is_event(names: &[Line]) -> bool
    ensures { result ≡ is_event (reverse names.now) }
{
    match names {
        [_, name] => is_word(b"VEVENT", name.bytes()),
        _ => false,
    }
}

fn ends_event(name: Name, names: &[Line]) -> bool
    ensures { result ≡ ends_event name (reverse names.now) }
{
    match name {
        Name::End => is_event(names),
        Name::Begin | Name::Uid | Name::Start | Name::Summary | Name::Other => false,
    }
}

impl Reader {
    fn new(alloc: Global) -> Reader
        ensures reading { (more : List (List ℕ)) → reading_of result more ≡ reading more }
        ensures lines { result.lines ≡ 0 }
    {
        Reader {
            lines: 0,
            names: Vec::new(alloc),
            own: Own::nothing(),
            events: Vec::new(alloc),
        }
    }

    fn fault_by(&self, name: Name, value: &[u8]) -> Option<IcalFault>
        requires { self.now.lines + 1 < 2 ^ 64 }
        ensures { result ≡ fault_by self.now.lines (place_of self.now) (record { name = name; value = value.now }) }
    {
        let names = self.names.as_slice();
        let number = self.lines + 1;
        if is_outside(self.lines, names, name, value) || is_misplaced(name, names, value) {
            Some(IcalFault::Frame(number))
        } else if ends_event(name, names) && self.own.is_bad() {
            Some(IcalFault::Event(number))
        } else {
            None
        }
    }

    // the innermost component ends
    fn end(&mut self) -> Result<(), NoMemory>
        ensures place { OnOk result (place_of self.new ≡ after_name Name.End (place_of self.old) []) }
        ensures events { OnOk result (self.new.events.items ≡ self.old.events.items ++ (if is_event (place_of self.old).names then events_in self.old.own else [])) }
        ensures lines { self.new.lines ≡ self.old.lines }
    {
        if self.names.len() == 2 {
            let own = mem::replace(&mut self.own, Own::nothing());
            if is_event(self.names.as_slice()) {
                if let Some(event) = own.event() {
                    self.events.push(event)?;
                }
            }
        }
        self.names.pop();
        Ok(())
    }

    fn go_on(&mut self, alloc: Global, name: Name, value: &[u8]) -> Result<(), NoMemory>
        ensures place { OnOk result (place_of self.new ≡ after_name name (place_of self.old) value.now) }
        ensures events { OnOk result (self.new.events.items ≡ self.old.events.items ++ events_by (place_of self.old) (record { name = name; value = value.now })) }
        ensures lines { self.new.lines ≡ self.old.lines }
    {
        match name {
            Name::Begin => self.names.push(Line::new(alloc, value)?)?,
            Name::End => self.end()?,
            Name::Uid | Name::Start | Name::Summary | Name::Other => {
                if self.names.len() == 2 {
                    self.own.add(alloc, name, value)?;
                }
            }
        }
        Ok(())
    }

    fn take_line(&mut self, alloc: Global, line: &[u8]) -> Result<(), IcalFault>
        requires { self.old.lines + 1 < 2 ^ 64 }
        ensures ok { OnOk result ((more : List (List ℕ)) → reading_of self.old (line.now ∷ more) ≡ reading_of self.new more) }
        ensures lines { OnOk result (self.new.lines ≡ self.old.lines + 1) }
        ensures err { IfErr result (λ fault. (fault ≡ IcalFault.NoMemory) ⊎ ((more : List (List ℕ)) → reading_of self.old (line.now ∷ more) ≡ Err fault)) }
    {
        let property = match property_of(line) {
            None => return Err(IcalFault::NotLine(self.lines + 1)),
            Some(property) => property,
        };
        match self.fault_by(property.name, property.value) {
            Some(fault) => return Err(fault),
            None => {}
        }
        self.go_on(alloc, property.name, property.value)?;
        self.lines += 1;
        Ok(())
    }

    fn end_fault(&self) -> Option<IcalFault>
        requires { self.now.lines + 1 < 2 ^ 64 }
        ensures { result ≡ end_fault self.now.lines (place_of self.now) }
    {
        if self.lines == 0 || !self.names.is_empty() {
            Some(IcalFault::Frame(self.lines + 1))
        } else {
            None
        }
    }

    // the text ends
    fn finish(self) -> Result<Events, IcalFault>
        requires { self.lines + 1 < 2 ^ 64 }
        ensures { MatchResult result (λ events. reading_of self [] ≡ Ok events) (λ fault. reading_of self [] ≡ Err fault) }
    {
        match self.end_fault() {
            Some(fault) => Err(fault),
            None => Ok(Events::new(self.events)),
        }
    }
}

// the piece behind the line so far: it continues the line, or the line is taken and another begins
fn take_piece(
    alloc: Global,
    reader: &mut Reader,
    line: &mut Vec<u8>,
    piece: &[u8],
) -> Result<(), IcalFault>
    requires { reader.old.lines + 1 < 2 ^ 64 }
    ensures ok { OnOk result ((more : List (List ℕ)) → reading_of reader.old (joined_from line.old.items (piece.now ∷ more)) ≡ reading_of reader.new (joined_from line.new.items more)) }
    ensures lines { OnOk result (reader.new.lines ≤ reader.old.lines + 1) }
    ensures err { IfErr result (λ fault. (fault ≡ IcalFault.NoMemory) ⊎ ((more : List (List ℕ)) → reading_of reader.old (joined_from line.old.items (piece.now ∷ more)) ≡ Err fault)) }
{
    if is_continued(piece) {
        let (_, piece) = piece.split_at(1);
        line.extend_from_slice(piece)?;
        return Ok(());
    }
    if let Err(fault) = reader.take_line(alloc, line.as_slice()) {
        return Err(fault);
    }
    line.clear();
    line.extend_from_slice(piece)?;
    Ok(())
}

// the lines of a text that has some
fn read_lines(alloc: Global, reader: &mut Reader, bytes: &[u8]) -> Result<(), IcalFault>
    requires some { 0 < length bytes.now }
    requires new { reader.old.lines ≡ 0 }
    ensures ok { OnOk result (reading_of reader.old (joined_lines bytes.now) ≡ reading_of reader.new []) }
    ensures lines { OnOk result (reader.new.lines < 2 ^ 63) }
    ensures err { IfErr result (λ fault. (fault ≡ IcalFault.NoMemory) ⊎ (reading_of reader.old (joined_lines bytes.now) ≡ Err fault)) }
{
    let (first, mut rest) = first_piece(bytes);
    let mut line = Vec::from_slice(alloc, first)?;
    while !rest.is_empty() {
        let (piece, after) = first_piece(rest);
        if let Err(fault) = take_piece(alloc, reader, &mut line, piece) {
            return Err(fault);
        }
        rest = after;
    }
    reader.take_line(alloc, line.as_slice())
}

/// Reads a calendar (RFC 5545): one VCALENDAR, in which each VEVENT with one real DTSTART of the years from
/// 1899 to 2101 and a SUMMARY is an event. Other components and properties are passed over.
pub fn read_ical(alloc: Global, bytes: &[u8]) -> Result<Events, IcalFault>
    // But for want of memory, the answer is what the joined lines are as a calendar.
    ensures reading { MatchResult result (λ events. reading (joined_lines bytes.now) ≡ Ok events) (λ fault. (fault ≡ IcalFault.NoMemory) ⊎ (reading (joined_lines bytes.now) ≡ Err fault)) }

    // Each event is at a moment of the years from 1899 to 2101.
    ensures moments { IfOk result (λ events. All (λ e. IsInYears e.start) events) }
{
    let mut reader = Reader::new(alloc);
    if !bytes.is_empty() {
        read_lines(alloc, &mut reader, bytes)?;
    }
    reader.finish()
}
