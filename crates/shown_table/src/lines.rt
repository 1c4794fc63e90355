// The lines of a covering that are left, read one after another.
ghost use Rattle.std.specs.Prelude.{◌≡◌, ◌+◌, ◌<◌, ◌^◌, OnOk, length, map};
ghost use Rattle.cell_judge.specs.Skies.{sky_content};
ghost use Rattle.command_input.specs.Lines.{behind_line, first_line};
ghost use Rattle.covering_check.specs.Checks.{shown_of};
ghost use Rattle.method_table.specs.Row.{row_of};
ghost use Rattle.night_portion.specs.Sun.{repeated};
ghost use Rattle.order_table.specs.Made.{day_of};
ghost use Rattle.shown_table.specs.Came.{ShowsEntry};
ghost use Rattle.shown_table.specs.Shown.{shown_at, sun_shown_at};
ghost use Rattle.year_table.specs.Dates.{date_text};

use crate::bad::BadLine;
use cell_judge::Sky;
use cell_split::Entry;
use command_input::split_line;
use covering_check::{CoverFault, check_line};
use method_table::column_word;
use order_covering::sun_word;
use order_table::{Day, Night};
use std::alloc::Global;

/// The lines that are left, from this number on.
#[derive(Clone, Copy)]
pub(crate) struct Lines<'t> {
    pub text: &'t [u8],
    pub number: u32,
}

impl<'t> Lines<'t> {
    /// The next line is bad.
    pub(crate) fn bad(&self, fault: CoverFault) -> BadLine
        ensures number { result.number ≡ self.now.number }
        ensures fault { result.fault ≡ fault }
    {
        BadLine {
            number: self.number,
            fault,
        }
    }

    /// Reads the next line.
    fn next(&mut self) -> &'t [u8]
        requires { self.old.number < 4096 }
        ensures line { result.now ≡ first_line self.old.text.now }
        ensures text { self.new.text.now ≡ behind_line self.old.text.now }
        ensures number { self.new.number ≡ self.old.number + 1 }
    {
        let (line, behind) = split_line(self.text);
        self.text = behind;
        self.number += 1;
        line
    }

    /// The entry that the next line shows of problem `k` of the sky, for a column and a date.
    fn next_shown(
        &mut self,
        alloc: Global,
        sky: &Sky,
        k: u32,
        column: &str,
        date: &str,
    ) -> Result<Entry, BadLine>
        requires known { k < length (map row_of sky.now.problems) }
        requires number { self.old.number < 4096 }
        ensures shows { ShowsEntry self.old.number
            (shown_of (sky_content sky.now.sun sky.now.district (map row_of sky.now.problems) sky.now.root) k column.now date.now (first_line self.old.text.now)) result }
        ensures text { OnOk result (self.new.text.now ≡ behind_line self.old.text.now) }
        ensures number { OnOk result (self.new.number ≡ self.old.number + 1) }
    {
        let here = *self;
        let line = self.next();
        match check_line(alloc, sky, k, column, date, line) {
            Ok(entry) => Ok(entry),
            Err(fault) => Err(here.bad(fault)),
        }
    }

    /// The entry that the next line shows of column `k` of a day, to which the sky is turned.
    pub(crate) fn next_entry(
        &mut self,
        alloc: Global,
        sky: &Sky,
        day: &Day,
        k: u32,
        date: &str,
    ) -> Result<Entry, BadLine>
        requires turned { sky.now.problems ≡ day.now.problems }
        requires column { k < 7 }
        requires date { date.now ≡ date_text day.now.number }
        requires number { self.old.number < 4096 }
        ensures shows { ShowsEntry self.old.number (shown_at sky.now.sun sky.now.district sky.now.root (day_of day.now) k (first_line self.old.text.now)) result }
        ensures text { OnOk result (self.new.text.now ≡ behind_line self.old.text.now) }
        ensures number { OnOk result (self.new.number ≡ self.old.number + 1) }
    {
        let column = column_word(day.problems[k as usize].column);
        self.next_shown(alloc, sky, k, column, date)
    }

    /// The entry that the next line shows of sunrise (0) or sunset (1) of a day, to whose night the sky is turned.
    pub(crate) fn next_sun(
        &mut self,
        alloc: Global,
        sky: &Sky,
        day: &Day,
        night: &Night,
        which: u32,
        date: &str,
    ) -> Result<Entry, BadLine>
        requires turned { map row_of sky.now.problems ≡ repeated (map row_of night.now.problems) }
        requires which { which < 2 }
        requires date { date.now ≡ date_text day.now.number }
        requires number { self.old.number < 4096 }
        ensures shows { ShowsEntry self.old.number
            (sun_shown_at sky.now.sun sky.now.district sky.now.root day.now.number (map row_of night.now.problems) which (first_line self.old.text.now)) result }
        ensures text { OnOk result (self.new.text.now ≡ behind_line self.old.text.now) }
        ensures number { OnOk result (self.new.number ≡ self.old.number + 1) }
    {
        self.next_shown(alloc, sky, which, sun_word(which), date)
    }
}
