// The members of an order in JSON: what each says, or why it is refused.
// Contract: a reader of a member gives what its value says, or the first refusal, by the definitions of `Members`.
#![tactic(auto)]

mod date;
mod fault;
mod late;
mod members;

pub use fault::{Member, OrderFault, member_word};
pub use late::late_in;
pub use members::{
    asr_in, days_in, from_in, height_in, method_in, needed, offsets_in, optional, rule_in, sun_in,
    whole_within, zone_in,
};
