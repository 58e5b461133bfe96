//! Orders: the first few in an order, a change of several items that is rolled back, and two that change places.
ghost use Rattle.std.specs.Prelude.{◌≡◌, ◌==◌, ◌∷◌, true, false, List, None, Some, length, take, map as mapped, IsPermutation, OnErr, IfOk};
ghost use Rattle.std.specs.Borrow.{Bor};
ghost use Rattle.std.specs.List.Sorted.{IsNonDecreasingBy};
ghost use Rattle.example_recipes.specs.Replaced.{ReplacesEach};
ghost use Rattle.iddqd_bi.specs.Bag.{IsOnly};
ghost use Rattle.iddqd_bi.specs.Map.{bag};

use iddqd_bi::{BiHashItem, BiHashMap, TryReserveError};
use std::alloc::{AllocError, Global};

/// An order, known by its number and by its place in a queue.
#[derive(Clone, Copy, PartialEq)]
pub struct Order {
    pub number: u64,
    pub place: u32,
    pub price: u64,
}

impl BiHashItem for Order {
    type K1 = u64;

    type K2 = u32;

    ghost key1 = { λ o. o.number };

    ghost key2 = { λ o. o.place };

    fn key1(&self) -> &u64 {
        &self.number
    }

    fn key2(&self) -> &u32 {
        &self.place
    }
}

impl Order {
    /// Makes an order.
    pub fn new(number: u64, place: u32, price: u64) -> Self
        ensures { (result.number ≡ number) × (result.place ≡ place) × (result.price ≡ price) }
    {
        Order {
            number,
            place,
            price,
        }
    }
}

/// Returns at most `most` orders: the cheapest ones, the cheapest first.
pub fn cheapest(
    alloc: Global,
    orders: &BiHashMap<Order>,
    most: usize,
) -> Result<Vec<&Order>, AllocError>
    ensures { IfOk result (λ cheap. (sorted : List (Bor Order)) × (cheap.items ≡ take most sorted)
        × IsPermutation (bag orders.now) (mapped (λ o. o.now) sorted) × IsNonDecreasingBy (λ o. o.now.price) sorted) }
{
    let mut sorted: Vec<&Order> = orders.iter().collect(alloc)?;
    sorted.sort_by_key(|order| order.price)?;
    sorted.truncate(most);
    Ok(sorted)
}

/// Puts each order in the place of the one with its number. If one of them has no such order, or the place of a third
/// one, the map becomes what it was before, and the result is `false`.
pub fn replace_all(
    orders: &mut BiHashMap<Order>,
    changed: Vec<Order>,
) -> Result<bool, TryReserveError>
    ensures replaced { IfOk result (λ done. done ≡ true → ReplacesEach changed.items (bag orders.old) (bag orders.new)) }
    ensures rolled_back { IfOk result (λ done. done ≡ false → IsPermutation (bag orders.new) (bag orders.old)) }
    ensures unchanged { OnErr result (orders.new ≡ orders.old) }
    ensures count { length (bag orders.new) ≡ length (bag orders.old) }
{
    let before = orders.clone()?;
    for order in changed {
        if orders.rekey1(&order.number, order).is_err() {
            *orders = before;
            return Ok(false);
        }
    }
    Ok(true)
}

/// Lets two orders change places in the queue, and returns whether there are both. One of them leaves the map for a
/// moment, so that no place is taken twice. The map has capacity for it, so nothing runs out of memory.
pub fn swap_places(orders: &mut BiHashMap<Order>, one: u64, other: u64) -> bool
    ensures swapped { result ≡ true → (a b : Order)
        × IsOnly (λ o. one == o.number) (bag orders.old) (Some a)
        × IsOnly (λ o. other == o.number) (bag orders.old) (Some b)
        × IsPermutation (a ∷ b ∷ bag orders.new)
        (record a { place = b.place } ∷ record b { place = a.place } ∷ bag orders.old) }
    ensures both { (a b : Order) → IsOnly (λ o. one == o.number) (bag orders.old) (Some a)
        → IsOnly (λ o. other == o.number) (bag orders.old) (Some b) → result ≡ true }
    ensures kept { result ≡ false → IsPermutation (bag orders.new) (bag orders.old) }
    ensures first_absent { IsOnly (λ o. one == o.number) (bag orders.old) None → orders.new ≡ orders.old }
    ensures second_absent { IsOnly (λ o. other == o.number) (bag orders.old) None → orders.new ≡ orders.old }
{
    let Some(first) = orders.get1(&one).copied() else {
        return false;
    };
    if one == other {
        return true;
    }
    // By clauses of these calls no two orders conflict, and all fit. So none of the inserts below fails.
    prove!(orders.len() <= orders.capacity());
    let Some(second) = orders.remove1(&other) else {
        return false;
    };
    let moved = Order {
        place: second.place,
        ..first
    };
    let back = Order {
        place: first.place,
        ..second
    };
    if orders.rekey1(&one, moved).is_err() {
        unreachable!()
    }
    match orders.try_insert(back) {
        Ok(()) => true,
        Err(_) => unreachable!(),
    }
}
