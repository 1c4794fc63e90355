// What workers that have ended leave.
use bound_word::BoundSeat;
use search_worker::Refutes;
use task_deque::{Case, Owner, Thief};

/// What they have seen and kept.
#[derive(Drop)]
pub struct Joined<C: Case, S> {
    pub seat: BoundSeat<Refutes<C>>,
    pub store: S,
}

/// The deques too, and for each worker its handles on them.
#[derive(Drop)]
pub(crate) struct Ended<C: Case, S> {
    pub(crate) joined: Joined<C, S>,
    pub(crate) owners: Vec<Owner<C>>,
    pub(crate) thieves: Vec<Vec<Thief<C>>>,
}
