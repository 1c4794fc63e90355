// What is seen directly in an event.
ghost use Rattle.std.specs.Prelude.{◌≡◌, OnOk, option_to_list};
ghost use Rattle.ical_text.specs.Reading.{added, events_in, is_again, is_bad, is_once, nothing, once_more};

use crate::event::Event;
use crate::line::Line;
use crate::property::Name;
use crate::written::moment_of;
use no_memory::NoMemory;
use std::alloc::Global;

/// How often a property came.
#[derive(Debug, Drop)]
pub(crate) enum Times {
    Never,
    Once(Line),
    Again,
}

/// The properties that count, of those directly in an event.
#[derive(Debug, Drop)]
pub(crate) struct Own {
    pub uid: Times,
    pub start: Times,
    pub summary: Times,
}

impl Times {
    fn is_once(&self) -> bool
        ensures { result ≡ is_once self.now }
    {
        match self {
            Times::Once(_) => true,
            Times::Never | Times::Again => false,
        }
    }

    fn is_again(&self) -> bool
        ensures { result ≡ is_again self.now }
    {
        match self {
            Times::Again => true,
            Times::Never | Times::Once(_) => false,
        }
    }

    fn add(&mut self, alloc: Global, value: &[u8]) -> Result<(), NoMemory>
        ensures { OnOk result (self.new ≡ once_more self.old value.now) }
    {
        *self = match self {
            Times::Never => Times::Once(Line::new(alloc, value)?),
            Times::Once(_) | Times::Again => Times::Again,
        };
        Ok(())
    }
}

impl Own {
    pub fn nothing() -> Own
        ensures { result ≡ nothing }
    {
        Own {
            uid: Times::Never,
            start: Times::Never,
            summary: Times::Never,
        }
    }

    pub fn is_bad(&self) -> bool
        ensures { result ≡ is_bad self.now }
    {
        !self.uid.is_once() || (self.start.is_again() || self.summary.is_again())
    }

    pub fn add(&mut self, alloc: Global, name: Name, value: &[u8]) -> Result<(), NoMemory>
        ensures { OnOk result (self.new ≡ added name self.old value.now) }
    {
        match name {
            Name::Uid => self.uid.add(alloc, value)?,
            Name::Start => self.start.add(alloc, value)?,
            Name::Summary => self.summary.add(alloc, value)?,
            Name::Begin | Name::End | Name::Other => {}
        }
        Ok(())
    }

    /// The event, if it has a real moment and a SUMMARY.
    pub fn event(self) -> Option<Event>
        ensures { option_to_list result ≡ events_in self }
    {
        let (Times::Once(uid), Times::Once(start), Times::Once(summary)) = (
            self.uid,
            self.start,
            self.summary,
        ) else {
            return None;
        };
        let start = moment_of(start.bytes())?;
        Some(Event {
            uid,
            start,
            summary,
        })
    }
}
