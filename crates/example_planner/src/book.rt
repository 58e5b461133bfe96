//! One side of a book of orders: the quantity at each price, in the order of the prices.
ghost use Rattle.std.specs.Prelude.{◌≡◌, ◌∷◌, ◌+◌, ◌*◌, ◌-◌, ◌==◌, if◌then◌else◌, [], IfOk, IfSome, IfNone, OnOk, OnErr, filter, length, map, nat_le, nat_lt, not, option_copied, reverse, slice_get, take};
ghost use Rattle.std.proofs.Common.{rules};
ghost use Rattle.std.specs.Cmp.{nat_cmp_total};
ghost use Rattle.std.specs.List.{list_any};
ghost use Rattle.std.specs.Ordering.{is_eq, nat_cmp};
ghost use Rattle.iddqd_ord.specs.Bag.{IsOnly};
ghost use Rattle.iddqd_ord.specs.Items.{items, with_item};
ghost use Rattle.iddqd_ord.specs.Ordered.{IsRising-key};

use iddqd_ord::{IdOrdItem, IdOrdItemMut, IdOrdMap, Iter, MemoryRefused, OrdQuery};
use std::alloc::{AllocError, Global};
use std::cmp::Ordering;

/// A price in cents, and the quantity of all orders at it.
#[derive(Drop)]
pub struct Level {
    pub price: u64,
    pub quantity: u64,
}

impl IdOrdItem for Level {
    type Key = u64;

    ghost key = { λ l. l.price };

    fn key(&self) -> &u64 {
        &self.price
    }
}

impl IdOrdItemMut for Level {
    type Data = u64;

    ghost data_of = { λ l. l.quantity };

    ghost put = { λ l quantity. record l { quantity = quantity } };

    ghost keeps_key = { Prim.search rules };

    ghost put_shows = { Prim.search rules };

    fn data_mut(&mut self) -> &mut u64 {
        &mut self.quantity
    }
}

/// Returns the best level of the buyers: the highest price.
pub fn best_bid(bids: &IdOrdMap<Level>) -> Option<&Level>
    ensures { option_copied result ≡ slice_get (items bids.now) (length (items bids.now) - 1) }
{
    bids.last()
}

/// Returns the best level of the sellers: the lowest price.
pub fn best_ask(asks: &IdOrdMap<Level>) -> Option<&Level>
    ensures { option_copied result ≡ slice_get (items asks.now) 0 }
{
    asks.first()
}

/// Sets the level at a price, and returns the one that was there. If there is no memory, the error has the new one.
pub fn set_level(
    levels: &mut IdOrdMap<Level>,
    level: Level,
) -> Result<Option<Level>, MemoryRefused<Level>>
    ensures it { IfOk result (IsOnly (λ l. l.price == level.price) (items levels.old)) }
    ensures set { OnOk result (items levels.new ≡ with_item ⟦<Level as IdOrdItem>⟧ nat_cmp (items levels.old) level) }
    ensures unchanged { OnErr result (levels.new ≡ levels.old) }
{
    levels.insert_overwrite(level)
}

/// Lowers the quantity at a price by what is taken, as far as it goes. Returns whether there is such a level.
pub fn take_from(levels: &mut IdOrdMap<Level>, price: u64, taken: u64) -> bool
    ensures found { result ≡ list_any (λ l. l.price == price) (items levels.old) }
    ensures taken { items levels.new ≡ map (λ (l : Level).
        if l.price == price then record l { quantity = l.quantity - taken } else l) (items levels.old) }
{
    levels.update(&price, |level| level.quantity.saturating_sub(taken))
}

/// Removes the level at a price.
pub fn cancel_level(levels: &mut IdOrdMap<Level>, price: u64) -> Option<Level>
    ensures it { IsOnly (λ l. l.price == price) (items levels.old) result }
    ensures rest { items levels.new ≡ filter (λ l. not (l.price == price)) (items levels.old) }
{
    levels.remove(&price)
}

/// Removes the best level of the sellers.
pub fn take_best_ask(asks: &mut IdOrdMap<Level>) -> Option<Level>
    ensures first { IfSome result (λ l. items asks.old ≡ l ∷ items asks.new) }
    ensures none { IfNone result (items asks.old ≡ []) }
{
    asks.pop_first()
}

/// Goes over the levels of the sellers up to a price, from the best one on.
pub fn asks_up_to(asks: &IdOrdMap<Level>, limit: u64) -> Iter<'_, Level>
    ensures { result ≡ filter (λ l. nat_le l.price limit) (items asks.now) }
{
    asks.range(..=&limit)
}

/// Removes the levels with no quantity.
pub fn remove_empty(levels: &mut IdOrdMap<Level>)
    ensures { items levels.new ≡ filter (λ l. nat_lt 0 l.quantity) (items levels.old) }
{
    levels.retain(|level| 0 < level.quantity);
}

/// Returns the highest level below a price, if there is one.
pub fn highest_below(levels: &IdOrdMap<Level>, price: u64) -> Option<&Level>
    ensures { option_copied result ≡ slice_get (filter (λ l. nat_lt l.price price) (items levels.now))
        (length (filter (λ l. nat_lt l.price price) (items levels.now)) - 1) }
{
    levels.range(..&price).next_back()
}

/// Returns how many levels there are at a price or above it.
pub fn count_from(levels: &IdOrdMap<Level>, price: u64) -> usize
    ensures { result ≡ length (filter (λ l. nat_le price l.price) (items levels.now)) }
{
    levels.range(&price..).count()
}

/// Returns the best levels of the buyers, the very best first: `most` of them, or fewer if there are fewer.
pub fn best_bids(
    alloc: Global,
    bids: &IdOrdMap<Level>,
    most: usize,
) -> Result<Vec<&Level>, AllocError>
    ensures { IfOk result (λ v. map (λ l. l.now) v.items ≡ take most (reverse (items bids.now))) }
{
    bids.iter().rev().take(most).collect(alloc)
}

/// A price as it is written: a query type of its own.
#[derive(Clone, Copy)]
pub struct Price {
    pub euros: u32,
    pub cents: u8,
}

impl OrdQuery<u64> for Price {
    ghost compare = { λ q price. nat_cmp price (100 * q.euros + q.cents) };

    fn compare(&self, price: &u64) -> Ordering {
        let sought = 100 * self.euros as u64 + self.cents as u64;
        price.cmp(&sought)
    }

    ghost rises = { λ q. IsRising-key nat_cmp_total (λ price. price) (100 * q.euros + q.cents) };
}

/// Returns the level at a price, if there is one.
pub fn level_at(levels: &IdOrdMap<Level>, price: Price) -> Option<&Level>
    ensures { IsOnly (λ l. is_eq (nat_cmp l.price (100 * price.euros + price.cents))) (items levels.now)
        (option_copied result) }
{
    levels.get(price)
}
