// Dates piece by piece, for the readers of orders and of calendars, and for who writes calendars.
pub use crate::date::{DateParts, civil_day, parts_of, two_digits_at};
pub use crate::entry::date_string;
pub use crate::show::TwoDigits;
