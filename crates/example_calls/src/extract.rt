//! Taking items out one by one: those that a closure accepts, or all.
ghost use Rattle.std.specs.Prelude.{◌≡◌, [], IfOk, OnOk, OnErr, filter, nat_le, not, IsPermutation};
ghost use Rattle.iddqd_id.specs.Map.{bag};

use iddqd_id::{Cursor, IdHashItem, IdHashMap};
use std::alloc::{AllocError, Global};

/// A task, known by its number, with the worker that does it and the time at which it is due.
#[derive(Drop)]
pub struct Task {
    pub number: u64,
    pub worker: u32,
    pub due: u64,
}

impl IdHashItem for Task {
    type Key = u64;

    ghost key = { λ t. t.number };

    fn key(&self) -> &u64 {
        &self.number
    }
}

/// Removes the tasks that are due, and returns them. If there is no memory for the vector, all tasks stay.
pub fn take_due(
    alloc: Global,
    tasks: &mut IdHashMap<Task>,
    now: u64,
) -> Result<Vec<Task>, AllocError>
    ensures taken { IfOk result (λ due. IsPermutation due.items (filter (λ t. nat_le t.due now) (bag tasks.old))) }
    ensures items { OnOk result
        (IsPermutation (bag tasks.new) (filter (λ t. not (nat_le t.due now)) (bag tasks.old))) }
    ensures unchanged { OnErr result (tasks.new ≡ tasks.old) }
{
    let mut due = Vec::with_capacity(alloc, tasks.len())?;
    let mut at = Cursor::new();
    while let Some(task) = tasks.extract_from(&mut at, |task| task.due <= now) {
        due.push_reserved(task);
    }
    Ok(due)
}

/// Removes all tasks, and returns them. The map keeps its capacity. If there is no memory for the vector, all tasks
/// stay.
pub fn take_all(alloc: Global, tasks: &mut IdHashMap<Task>) -> Result<Vec<Task>, AllocError>
    ensures taken { IfOk result (λ all. IsPermutation all.items (bag tasks.old)) }
    ensures items { OnOk result (bag tasks.new ≡ []) }
    ensures unchanged { OnErr result (tasks.new ≡ tasks.old) }
    ensures capacity { tasks.new.capacity ≡ tasks.old.capacity }
{
    let mut all = Vec::with_capacity(alloc, tasks.len())?;
    let mut at = Cursor::new();
    while let Some(task) = tasks.pop_from(&mut at) {
        all.push_reserved(task);
    }
    Ok(all)
}

/// Removes all tasks, and returns the latest time at which one of them was due, or 0 if there was none.
pub fn take_latest(tasks: &mut IdHashMap<Task>) -> u64 {
    let mut latest = 0;
    let mut at = Cursor::new();
    // The head of the loop names a bound, so it is plain that the loop ends.
    for _ in 0..tasks.len() {
        let Some(task) = tasks.pop_from(&mut at) else {
            break;
        };
        latest = latest.max(task.due);
    }
    latest
}
