// The covering of an order: a text from which each entry of its table is shown again.
// Contract: `write_covering` writes exactly the text of the order's covering, its letters one by one or in runs.
#![tactic(auto)]

mod date;
mod day;
mod days;
mod form;
mod line;
mod night;

pub use date::date_of;
pub use days::write_covering;
pub use form::Form;
pub use night::sun_word;
