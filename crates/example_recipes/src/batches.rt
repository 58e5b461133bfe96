//! Batches of orders of which some are refused: a report of all of these, and a load of all others.
ghost use Rattle.std.specs.Prelude.{◌≡◌, ◌++◌, map as mapped, IfOk, OnErr, IsPermutation};
ghost use Rattle.iddqd_bi.specs.Map.{bag};
ghost use Rattle.example_recipes.specs.Loading.{left_over};

use crate::orders::Order;
use iddqd_bi::{BiHashMap, Ranked};
use std::alloc::{AllocError, Global};

/// Returns the orders of a batch that cannot be added, in their order: those with the number or the place of an order of
/// the map, or of an earlier one of the batch that can be added. A second map, of references, has the latter, and has room for all.
pub fn refused<'b>(
    alloc: Global,
    orders: &BiHashMap<Order>,
    batch: &'b [Order],
) -> Result<Vec<&'b Order>, AllocError>
    ensures { IfOk result (λ refused. mapped (λ o. o.now) refused.items
        ≡ left_over ⟦<Order as Ranked>⟧.ranks (bag orders.now) batch.now) }
{
    let mut added = BiHashMap::<&Order>::with_capacity(alloc, batch.len())?;
    let mut refused = Vec::new(alloc);
    for order in batch {
        let is_taken = orders.contains_key1(&order.number) || orders.contains_key2(&order.place);
        if is_taken || added.try_insert(order).is_err() {
            refused.push(order)?;
        }
    }
    Ok(refused)
}

/// Adds each order of a batch whose number and place are free, and returns the others, in their order. If there is no
/// memory for them or for the map, none is added.
pub fn load_free(
    alloc: Global,
    orders: &mut BiHashMap<Order>,
    batch: Vec<Order>,
) -> Result<Vec<Order>, AllocError>
    ensures left { IfOk result (λ others. others.items ≡ left_over ⟦<Order as Ranked>⟧.ranks (bag orders.old) batch.items) }
    ensures added { IfOk result (λ others. IsPermutation (others.items ++ bag orders.new) (batch.items ++ bag orders.old)) }
    ensures unchanged { OnErr result (orders.new ≡ orders.old) }
{
    let mut others = Vec::with_capacity(alloc, batch.len())?;
    orders.try_reserve(batch.len())?;
    for order in batch {
        if let Err(error) = orders.try_insert(order) {
            others.push_reserved(error.item);
        }
    }
    Ok(others)
}
