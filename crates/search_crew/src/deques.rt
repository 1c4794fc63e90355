// The deques of a search, before its workers begin and after they have ended.
ghost use Rattle.std.specs.Prelude.{◌≡◌, ℕ, ◌+◌, ◌<◌, ◌≤◌, [], ◌++◌, ◌∷◌, All, List, IfOk, OnOk, flat_map, length, sum_by};
ghost use Rattle.cell_split.specs.Judges.{Content};
ghost use Rattle.search_worker.specs.Owing.{pushed_by};
ghost use Rattle.search_worker.specs.Workers.{logs_of};
ghost use Rattle.search_crew.specs.Crews.{AreThievesOf, IsPartOfOne, IsShared, SameOwners, WeighAs, owner_logs, roots_to};
ghost use Rattle.task_deque.specs.declared.job.Job.{Job};
ghost use Rattle.task_deque.specs.Ends.{SameOwner, owner_log, thief_log};
ghost use Rattle.task_deque.specs.Rule.{IsJob, all_parts, log};

use cell_split::{Cell, Task};
use no_memory::NoMemory;
use std::alloc::Global;
use task_deque::{Case, Job, Owner, Thief};

/// Deques with nothing in them, one for each worker.
pub(crate) fn owners_of<C: Case>(alloc: Global, workers: u32) -> Result<Vec<Owner<C>>, NoMemory>
    ensures counted { IfOk result (λ owners. length owners.items ≡ workers) }
    ensures blank { IfOk result (λ owners. All (λ o. owner_log o ≡ log all_parts [] []) owners.items) }
{
    let mut owners = Vec::new(alloc);
    for _ in 0..workers {
        owners.push(Owner::new(alloc)?)?;
    }
    Ok(owners)
}

/// A handle on each deque. Nothing stands in the deques yet.
pub(crate) fn thieves_of<C: Case>(
    alloc: Global,
    owners: &mut Vec<Owner<C>>,
) -> Result<Vec<Thief<C>>, NoMemory>
    requires { All (λ o. 1 < (owner_log o).parts) owners.old.items }
    ensures same { IfOk result (λ thieves. SameOwners owners.old.items owners.new.items) }
    ensures thieves { IfOk result (λ thieves. AreThievesOf owners.old.items thieves.items) }
    ensures blank { IfOk result (λ thieves. (n : ℕ) → All (λ o. owner_log o ≡ log (n + 1) [] []) owners.old.items → All (λ o. owner_log o ≡ log n [] []) owners.new.items × All (λ t. thief_log t ≡ log 1 [] []) thieves.items) }
{
    let mut thieves = Vec::new(alloc);
    for owner in owners.iter_mut() {
        thieves.push(owner.thief()?)?;
    }
    Ok(thieves)
}

/// Handles on all deques for each worker.
pub(crate) fn thieves_for_all<C: Case>(
    alloc: Global,
    owners: &mut Vec<Owner<C>>,
) -> Result<Vec<Vec<Thief<C>>>, NoMemory>
    requires few { length owners.old.items ≤ 16 }
    requires blank { All (λ o. owner_log o ≡ log all_parts [] []) owners.old.items }
    ensures same { IfOk result (λ all. SameOwners owners.old.items owners.new.items) }
    ensures counted { IfOk result (λ all. length all.items ≡ length owners.old.items) }
    ensures thieves { IfOk result (λ all. All (λ thieves. AreThievesOf owners.old.items thieves.items × All (λ t. thief_log t ≡ log 1 [] []) thieves.items) all.items) }
    ensures shared { IfOk result (λ all. All (IsShared (length owners.old.items)) owners.new.items) }
    ensures unpushed { IfOk result (λ all. All (λ o. (owner_log o).pushed ≡ []) owners.new.items) }
{
    let mut all = Vec::new(alloc);
    for _ in 0..owners.len() {
        all.push(thieves_of(alloc, owners)?)?;
    }
    Ok(all)
}

/// Puts a task into a deque.
fn put<C: Case>(owner: &mut Owner<C>, job: Job) -> Result<(), NoMemory>
    requires job { IsJob C.case job }
    requires part { 0 < (owner_log owner.old).parts }
    ensures same { SameOwner owner.old owner.new }
    ensures pushed { OnOk result (owner_log owner.new ≡ log (owner_log owner.old).parts ((owner_log owner.old).pushed ++ job ∷ []) (owner_log owner.old).taken) }
{
    owner.push(job).map_err(|_| NoMemory)
}

/// Puts the roots of all problems into the deques, in turn.
pub(crate) fn put_roots<C: Case>(
    owners: &mut Vec<Owner<C>>,
    problems: u32,
    root: Cell,
) -> Result<(), NoMemory>
    requires some { 0 < length owners.old.items }
    requires problems { problems ≡ C.case.problems }
    requires root { root ≡ C.case.root }
    requires shared { All (IsShared (length owners.old.items)) owners.old.items }
    requires few { length owners.old.items < all_parts }
    requires unpushed { All (λ o. (owner_log o).pushed ≡ []) owners.old.items }
    ensures same { OnOk result (SameOwners owners.old.items owners.new.items) }
    ensures shared { OnOk result (All (IsShared (length owners.old.items)) owners.new.items) }
    ensures pushed { OnOk result ((weight : Job → ℕ) → pushed_by (owner_logs owners.new.items) weight ≡ sum_by weight (roots_to problems C.case)) }
{
    for problem in 0..problems {
        let deque = problem as usize % owners.len();
        let task = Task {
            problem,
            cell: root,
        };
        put(
            &mut owners[deque],
            Job {
                task,
                splits: false,
            },
        )?;
    }
    Ok(())
}

/// Each deque takes in the handle on it.
fn absorb<C: Case>(owners: &mut Vec<Owner<C>>, mut thieves: Vec<Thief<C>>)
    requires thieves { AreThievesOf owners.old.items thieves.items }
    requires single { All IsPartOfOne thieves.items }
    ensures same { SameOwners owners.old.items owners.new.items }
    ensures parts { (n : ℕ) → All (λ o. (owner_log o).parts + (n + 1) ≡ all_parts) owners.old.items → All (λ o. (owner_log o).parts + n ≡ all_parts) owners.new.items }
    ensures weigh { WeighAs (owner_logs owners.new.items) (owner_logs owners.old.items ++ logs_of thieves.items) }
{
    while let Some(thief) = thieves.pop() {
        owners[thieves.len()].absorb(thief);
    }
}

/// Each deque takes in all handles on it.
pub(crate) fn absorb_all<C: Case>(owners: &mut Vec<Owner<C>>, all: Vec<Vec<Thief<C>>>)
    requires thieves { All (λ thieves. AreThievesOf owners.old.items thieves.items × All IsPartOfOne thieves.items) all.items }
    requires parts { All (λ o. (owner_log o).parts + length all.items ≡ all_parts) owners.old.items }
    ensures parts { All (λ o. (owner_log o).parts ≡ all_parts) owners.new.items }
    ensures weigh { WeighAs (owner_logs owners.new.items) (owner_logs owners.old.items ++ flat_map (λ thieves. logs_of thieves.items) all.items) }
{
    for thieves in all {
        absorb(owners, thieves);
    }
}
