// The words of the columns, and the minutes of the ranks.
ghost use Rattle.std.specs.Prelude.{◌≡◌, ◌≤◌};
ghost use Rattle.method_table.specs.Row.{column_word, minute_of, row_of};

use crate::problem::{Column, Problem, Side};

/// The word of a column in open lines and coverings.
pub fn column_word(c: Column) -> &'static str
    ensures { result.now ≡ column_word c }
{
    match c {
        Column::Fajr => "fajr",
        Column::FajrEnd => "fajr_end",
        Column::Dhuhr => "dhuhr",
        Column::Asr => "asr",
        Column::Maghrib => "maghrib",
        Column::MaghribEnd => "maghrib_end",
        Column::Isha => "isha",
    }
}

/// The local minute of a rank, from 0 to 720, without the shift.
pub fn minute_of(p: &Problem, rank: u32) -> i32
    requires { rank ≤ 720 }
    ensures { result ≡ minute_of (row_of p.now) rank }
{
    match p.side {
        Side::Start => p.first + rank as i32,
        Side::End => p.last - rank as i32,
    }
}
