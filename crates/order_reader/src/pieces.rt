// What orders are read from, piece by piece, for the readers of canonical lines, of sets of districts and of borders.
pub use crate::parts::{Basis, Extras};
pub use crate::read::{basis_of, district_of, extras_of, json_refusal, order_in, order_with};
pub use order_member::{height_in, late_in, needed, rule_in, sun_in, whole_within};
