//! The numbers of the items of a list, in the order of the keys of these items.
ghost use Rattle.std.specs.Prelude.{◌≡◌, ◌<◌, true, [], length, slice_get, IfOk, IfErr, OnOk};
ghost use Rattle.std.specs.List.{insert, list_any};
ghost use Rattle.iddqd_order.specs.Search.{ComparesWithin, IsSplit, order_at};
ghost use Rattle.iddqd_order.specs.Row.{entries_in, position, IsPlace};
ghost use Rattle.iddqd_ord.specs.Batches.{IsOrderOf};
ghost use Rattle.iddqd_ord.specs.Items.{key_comparison, has_key_of};
ghost use Rattle.iddqd_ord.specs.Extensions.{with_items};

use crate::item::IdOrdItem;
use iddqd_order::{Blocks, Compare, Place};
use iddqd_store::{Meter, TryReserveError};
use std::cmp::Ordering;

/// Compares the key of an item of a list, by its number, with that of another item.
#[derive(Drop)]
struct ByNumber<'a, T> {
    list: &'a [T],
    item: &'a T,
}

impl<'a, T: IdOrdItem> Compare<usize> for ByNumber<'a, T> {
    ghost order = { λ p n. order_at (key_comparison T.IdOrdItem T.Key.cmp p.item.now) (slice_get p.list.now n) };

    ghost MayAsk = { λ p n. n < length p.list.now };

    fn compare(&self, number: &usize, meter: &mut Meter) -> Ordering {
        meter.tick();
        self.list[*number].key().cmp(self.item.key())
    }
}

/// Searches for the number of an item of the list that has the key of this item. `Err` has the place at which the number of this
/// one would go.
pub(super) fn place_in<T: IdOrdItem>(
    numbers: &Blocks<usize>,
    list: &[T],
    item: &T,
    meter: &mut Meter,
) -> Result<Place, Place>
    requires { IsOrderOf T.IdOrdItem T.Key.cmp list.now (entries_in numbers.now) }
    ensures found { IfOk result (λ _. list_any (has_key_of T.IdOrdItem T.Key.cmp item.now) list.now ≡ true) }
    ensures place { IfErr result (IsPlace numbers.now.blocks) }
    ensures gap { IfErr result (λ p. IsSplit (key_comparison T.IdOrdItem T.Key.cmp item.now)
        (with_items T.IdOrdItem T.Key.cmp [] list.now) (position numbers.now.blocks p) 0) }
    ensures asked { ComparesWithin 3 19 (length list.now) meter.old meter.new }
{
    numbers.search(&ByNumber { list, item }, meter)
}

/// Inserts a number at this place.
pub(super) fn insert_number(
    numbers: &mut Blocks<usize>,
    place: Place,
    number: usize,
) -> Result<(), TryReserveError>
    requires { IsPlace numbers.old.blocks place }
    ensures inserted { OnOk result (entries_in numbers.new
        ≡ insert (entries_in numbers.old) (position numbers.old.blocks place) number) }
{
    if numbers.len() == numbers.capacity() {
        numbers.try_reserve(1)?;
    }
    let _ = numbers.insert(place, number);
    Ok(())
}
