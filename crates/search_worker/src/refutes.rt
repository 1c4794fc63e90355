// What a rank in the shared bound means.
ghost use Rattle.search_worker.specs.Owing.{IsRefutedRank};

use bound_word::Fact;
use std::marker::PhantomData;
use task_deque::Case;

/// Some leaf of the problem's tree is refuted at this rank or above.
#[derive(Drop)]
pub struct Refutes<C> {
    of: PhantomData<C>,
}

impl<C> Refutes<C> {
    pub fn new() -> Refutes<C> {
        Refutes { of: PhantomData }
    }
}

impl<C: Case> Fact for Refutes<C> {
    ghost fact = { λ _. IsRefutedRank C.case };
}
