// The workers of a search, each in a thread of its own.
ghost use Rattle.std.specs.Prelude.{◌≡◌, ℕ, ◌^◌, ◌<◌, ◌≤◌, [], false, All, length, slice_index_or};
ghost use Rattle.bound_word.specs.Bounds.{count_of};
ghost use Rattle.search_crew.specs.Crews.{IsCrew, OweRoots};
ghost use Rattle.search_worker.specs.declared.member.Member.{Member};
ghost use Rattle.search_worker.specs.Workers.{HasInHand, IsMemberOf, IsSameMember};

use crate::gate::{Gate, Gated};
use bound_word::Bound;
use cell_split::Judge;
use search_worker::{Member, Refutes, Store};
use std::sync::Wait;
use std::thread;
use std::thread::Threads;
use task_deque::Case;

/// Runs all workers: they are as many as before, and owe what they owed.
pub(crate) fn run_crew<
    C: Case + Send + Sync,
    S: Store + Send,
    R: Threads + Wait + Sync,
    J: Judge<Kept: Send> + Sync,
    G: Gate + Sync,
>(rt: &R, judge: &J, gate: &G, bound: &Bound<Refutes<C>>, members: &mut Vec<Member<C, S>>)
    requires case { J.content judge.now ≡ C.case }
    requires count { count_of bound.now ≡ C.case.problems }
    requires some { 1 ≤ length members.old.items }
    requires few { length members.old.items ≤ 16 }
    requires crew { IsCrew bound.now members.old.items }
    ensures crew { IsCrew bound.now members.new.items }
    ensures owes { All (λ m. m.lacks_memory ≡ false) members.new.items → OweRoots C.case (S.keeps C.case.problems) members.old.items → OweRoots C.case (S.keeps C.case.problems) members.new.items }
{
    run(rt, judge, gate, bound, members.as_mut_slice());
}

// Runs all workers, each in a thread of its own.
fn run<
    C: Case + Send + Sync,
    S: Store + Send,
    R: Threads + Wait + Sync,
    J: Judge<Kept: Send> + Sync,
    G: Gate + Sync,
>(rt: &R, judge: &J, gate: &G, bound: &Bound<Refutes<C>>, members: &mut [Member<C, S>])
    requires case { J.content judge.now ≡ C.case }
    requires count { count_of bound.now ≡ C.case.problems }
    requires some { 1 ≤ length members.old }
    requires few { length members.old ≤ 16 }
    requires members { All (IsMemberOf bound.now) members.old }
    ensures same { (i : ℕ) (d : Member C S) → i < length members.old → IsSameMember bound.now (slice_index_or members.old i d) (slice_index_or members.new i d) }
    ensures owes { (i : ℕ) (d : Member C S) → i < length members.old → (slice_index_or members.new i d).lacks_memory ≡ false → HasInHand C.case (S.keeps C.case.problems) (slice_index_or members.old i d) (slice_index_or members.new i d) [] }
{
    let threads = members.len();
    thread::for_each_mut(
        rt,
        members,
        threads,
        &|i: usize, member: &mut Member<C, S>|
            requires { (i < 2 ^ 32) × (J.content judge.now ≡ C.case) × (count_of bound.now ≡ C.case.problems) × IsMemberOf bound.now member.now }
            ensures same { IsSameMember bound.entry.now member.entry.now member.exit.now }
            ensures owes { member.exit.now.lacks_memory ≡ false → HasInHand C.case (S.keeps C.case.problems) member.entry.now member.exit.now [] }
        {
            member.run(rt, &Gated::new(judge, gate, i as u32), bound);
        },
    );
}

/// Whether some worker found no memory.
pub(crate) fn lack_memory<C: Case, S>(members: &[Member<C, S>]) -> bool
    ensures { result ≡ false → All (λ m. m.lacks_memory ≡ false) members.now }
{
    members.iter().any(|member| member.lacks_memory)
}
