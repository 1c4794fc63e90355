// The two handles of a deque.
ghost use Rattle.std.specs.Prelude.{◌≡◌};
ghost use Rattle.crossbeam_deque.specs.Handles.{IsPassOf, stealer_deque, worker_flavor};

use crate::job::{Case, Job};
use crate::rule::{Fair, Log};
use crossbeam_deque::{Pass, Stealer, Worker};
use std::alloc::Global;

/// The end of a deque at which tasks are pushed and popped, the last one first.
#[derive(Drop)]
pub struct Owner<C: Case> {
    pub(crate) worker: Worker<Job, Global, Log, Fair<C>>,
    ghost lifo: { worker_flavor worker ≡ 1 },
}

/// The end at which tasks are stolen, the first one first, by whoever has this handle.
#[derive(Drop)]
pub struct Thief<C: Case> {
    pub(crate) stealer: Stealer<Job, Global, Log, Fair<C>>,
    pub(crate) pass: Pass<Job, Log>,
    ghost own: { IsPassOf (stealer_deque stealer) pass },
}
