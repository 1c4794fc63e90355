// The rule that a deque and all its passes keep between any two steps, and what each step tells its pass.
ghost use Rattle.std.specs.Prelude.{◌≡◌, ◌+◌, ◌-◌, [], ◌++◌, All, ⊤};
ghost use Rattle.task_deque.specs.Rule.{Balanced, IsJob, IsSettled, all_parts, log};

use crate::job::{Case, Job};
use crossbeam_deque::protocol::{Join, Lesson, Outcome, Protocol, Split};
use std::collections::LinkedList;
use std::marker::PhantomData;

/// What a pass has pushed and taken. No value of it is made.
pub struct Log {
    /// Its parts of the right to know the whole. Whoever has all of them knows that no other pass pushed or took.
    pub parts: u64,
    pub pushed: LinkedList<Job>,
    pub taken: LinkedList<Job>,
}

/// What was pushed is what was taken and what is left, and all of it is of the trees.
pub struct Fair<C> {
    of: PhantomData<C>,
}

impl<C: Case> Protocol<Job, Log> for Fair<C> {
    ghost holds = { Balanced C.case };

    ghost first = { log all_parts [] [] };

    ghost guest = { log 0 [] [] };
}

/// A push.
pub(crate) struct Puts;

impl Outcome<Job, Log> for Puts {
    ghost then = { λ v xs w. w ≡ log v.parts (v.pushed ++ xs) v.taken };
}

/// A pop. Where it finds nothing, and the pass has all parts, all that was pushed was taken.
pub(crate) struct Takes<C> {
    of: PhantomData<C>,
}

impl<C: Case> Outcome<Job, Log> for Takes<C> {
    ghost then = { λ v xs w. (w ≡ log v.parts v.pushed (v.taken ++ xs)) × All (IsJob C.case) xs };

    ghost empty = { λ v. v.parts ≡ all_parts → IsSettled v };
}

/// A theft.
pub(crate) struct Robs<C> {
    of: PhantomData<C>,
}

impl<C: Case> Outcome<Job, Log> for Robs<C> {
    ghost then = { λ v xs w. (w ≡ log v.parts v.pushed (v.taken ++ xs)) × All (IsJob C.case) xs };
}

/// A look, from which nothing is learnt.
pub(crate) struct Look;

impl Lesson<Job, Log> for Look {
    ghost fact = { λ v items. ⊤ };
}

/// One part goes to a new pass, with all that was pushed and taken.
pub(crate) struct Part;

impl Split<Log> for Part {
    ghost left = { λ v. log (v.parts - 1) [] [] };

    ghost right = { λ v. log 1 v.pushed v.taken };
}

/// Two passes put together.
pub(crate) struct Both;

impl Join<Log> for Both {
    ghost both = { λ v w. log (v.parts + w.parts) (v.pushed ++ w.pushed) (v.taken ++ w.taken) };

    ghost spent = { log 0 [] [] };
}
