//! The steps of a plan, each known by its number, in the order of the times at which they are due.
ghost use Rattle.std.specs.Prelude.{◌≡◌, ◌<◌, ◌∷◌, ◌==◌, ◌&&◌, [], true, false, filter, not, nat_le, nat_lt, length, slice_get, IsOk, OnOk, OnErr, IfErr, IfSome, IfNone, option_copied};
ghost use Rattle.std.specs.List.{list_any};
ghost use Rattle.std.specs.Ordering.{nat_cmp};
ghost use Rattle.iddqd_store.specs.Bag.{IsOnly};
ghost use Rattle.iddqd_sorted.specs.Items.{by_sort, items, with_item};

use iddqd_id::{IdHashItem, Rejected};
use iddqd_sorted::{IdHashOrdMap, Iter, Sortable};

/// A step, and when it is due. Several steps of a plan may be due at one time.
#[derive(Drop)]
pub struct Step {
    pub number: u64,
    pub due: u64,
    pub name: String,
}

impl IdHashItem for Step {
    type Key = u64;

    ghost key = { λ s. s.number };

    fn key(&self) -> &u64 {
        &self.number
    }
}

impl Sortable for Step {
    type SortKey = u64;

    ghost sort_key = { λ s. s.due };

    fn sort_key(&self) -> u64 {
        self.due
    }
}

/// The steps, the earliest first. Those that are due at one time are in the order of their numbers.
pub type Plan = IdHashOrdMap<Step>;

/// Books a step at its place, or returns it if its number is taken, or if there is no memory.
pub fn book(steps: &mut Plan, step: Step) -> Result<(), Rejected<Step>>
    ensures went_in { OnOk result (items steps.new
        ≡ with_item (by_sort (λ s. s.due) nat_cmp (λ s. s.number) nat_cmp) (items steps.old) step) }
    ensures free { OnOk result (filter (λ s. step.number == s.number) (items steps.old) ≡ []) }
    ensures granted { list_any (λ s. step.number == s.number) (items steps.old) ≡ false
        → length (items steps.old) < steps.old.capacity → IsOk result }
    ensures handed_back { IfErr result (λ e. e.item ≡ step) }
    ensures taken { IfErr result (λ e. e.taken ≡ list_any (λ s. step.number == s.number) (items steps.old)) }
    ensures unchanged { OnErr result (steps.new ≡ steps.old) }
{
    steps.try_insert(step)
}

/// Goes over the steps that are due at this time, in the order of their numbers.
pub fn at(steps: &Plan, time: u64) -> Iter<'_, Step>
    ensures { result ≡ filter (λ s. s.due == time) (items steps.now) }
{
    steps.group(&time)
}

/// Returns the first step that is due at this time or later, if there is one.
pub fn next_due(steps: &Plan, time: u64) -> Option<&Step>
    ensures { option_copied result ≡ slice_get (filter (λ s. nat_le time s.due) (items steps.now)) 0 }
{
    steps.range(time..).next()
}

/// Goes over the steps that are due from a time on and before another one, the earliest first.
pub fn between(steps: &Plan, from: u64, before: u64) -> Iter<'_, Step>
    ensures { result ≡ filter (λ s. nat_le from s.due && nat_lt s.due before) (items steps.now) }
{
    steps.range(from..before)
}

/// Removes the step with this number, and returns it, if there is one.
pub fn cancel(steps: &mut Plan, number: u64) -> Option<Step>
    ensures it { IsOnly (λ s. number == s.number) (items steps.old) result }
    ensures rest { items steps.new ≡ filter (λ s. not (number == s.number)) (items steps.old) }
    ensures absent { IfNone result (steps.new ≡ steps.old) }
{
    steps.remove(&number)
}

/// Removes the earliest step, and returns it, if it is due by now.
pub fn start_next(steps: &mut Plan, now: u64) -> Option<Step>
    ensures first { IfSome result (λ s. items steps.old ≡ s ∷ items steps.new) }
    ensures due { IfSome result (λ s. nat_le s.due now ≡ true) }
    ensures early { IfNone result (filter (λ s. nat_le s.due now) (items steps.old) ≡ []) }
    ensures unchanged { IfNone result (steps.new ≡ steps.old) }
{
    steps.pop_to(&now)
}
