// The events of a calendar.
ghost use Rattle.std.specs.Prelude.{◌≡◌, ◌<◌, length, slice_get, Some};

use crate::line::Line;
use std::marker::Model;

/// An event of a calendar.
#[derive(Debug, Drop)]
pub struct Event {
    pub uid: Line,
    /// When it begins, in minutes since 2000-01-01 12:00 Universal Time.
    pub start: i64,
    pub summary: Line,
}

/// The events of a calendar, in order. They are seen as their list.
#[derive(Debug, Drop)]
pub struct Events {
    events: Vec<Event>,
}

impl Model for Events {
    ghost use Rattle.std.specs.Prelude.{List};
    ghost use Rattle.ical_text.specs.declared.event.Event.{Event};

    ghost Value = { List Event };

    ghost view = { λ a. a.events.items };
}

fn event_at(events: &[Event], i: usize) -> &Event
    requires { i < length events.now }
    ensures { slice_get events.now i ≡ Some result.now }
{
    &events[i]
}

impl Events {
    pub(crate) fn new(events: Vec<Event>) -> Events
        ensures { result ≡ events.items }
    {
        Events { events }
    }

    pub fn count(&self) -> usize
        ensures { result ≡ length self.now }
    {
        self.events.len()
    }

    pub fn event(&self, i: usize) -> &Event
        requires { i < length self.now }
        ensures { slice_get self.now i ≡ Some result.now }
    {
        event_at(self.events.as_slice(), i)
    }
}
