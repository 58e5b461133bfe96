//! A map of the family as a sequence of its items, in any format of `serde`: one text for the hash maps, for `IdOrdMap`, and for
//! the hash maps with an order, such as `BiHashOrdMap`.
//!
//! On a field of a derived type, whichever of the maps it is, write `#[serde(with = "iddqd_serde")]`. A map by
//! itself goes into `Seq`, which implements `Serialize`, `Deserialize` and `DeserializeOwned`. The module `as_map` does
//! the same for a map of serde, as an object of JSON, which has each item under its first key.
//!
//! A map is written as the sequence of its items, each once, in the order of `iter`: in ascending order, if the map has one. It is
//! read from such a sequence, whatever the order of its items, item by item. An item that has a key of an item before it is an
//! error of the format's own kind, which a format such as `serde_json` ends with the line and the column. A lack of memory is such
//! an error too.
//!
//! It is proved of reading that what was read is a sequence from its beginning to its end, in which items follow each
//! other unless the map is empty (`reads`), and, as of each map (`sound` and `ascending` of `len`), that no two items of the map
//! have an equal key of the same rank, and that the items ascend, if the map has an order. The private function that fills the
//! map counts the items that it reads, and its clause `counts` says that the map has as many. No clause of a public function says
//! how many items the sequence had, or which, since the contracts of `serde` say nothing of what a derived `Deserialize` reads. So
//! no contract says that a map that is written and read again is equal to the first.
#![tactic(auto)]

ghost use Rattle.std.specs.Prelude.{◌≡◌, ◌+◌, [], ◌∷◌, length, IfOk, OnOk, IsPermutation};
ghost use Rattle.iddqd_serde.specs.Reading.{ReadsSeq};
ghost use Rattle.serde.specs.Event.{WritesSeq};

pub mod as_map;
mod reading;

use crate::reading::{Borrowed, Owned, ReadsItem, next_item};
use iddqd_store::{Collection, Fillable, InsertReason, Meter, Visitor};
use serde::{
    Described, Deserialize, DeserializeOwned, Deserializer, Format, Serialize, Serializer,
};
use std::alloc::Global;
use std::marker::PhantomData;

/// Writes the items of a map as a sequence, each once, in the order of `iter`.
///
/// The error is that of the format or of an item. What was written before it stays written.
///
/// The call writes each item once, and allocates no memory of its own.
pub fn serialize<M: Collection, Out: Serializer>(map: &M, out: &mut Out) -> Result<(), Out::Error>
where
    M::Item: Serialize,
    // A sequence of as many items as the map has begins, each item is written, and the sequence ends.
    ensures { OnOk result (WritesSeq M.Item.writes (M.listed map.now) (Out.written out.old) (Out.written out.new)) }
{
    out.begin_seq(Some(map.item_count()))?;
    map.visit_each::<ToSeq<Out>>(out)?;
    out.end_seq()
}

/// Writes an item.
struct ToSeq<Out>(PhantomData<Out>);

impl<T: Serialize, Out: Serializer> Visitor<T> for ToSeq<Out> {
    type Target = Out;

    type Error = Out::Error;

    ghost visits = { λ x old new. T.writes x (Out.written old) (Out.written new) };

    fn visit(item: &T, out: &mut Out) -> Result<(), Out::Error> {
        item.serialize(out)
    }
}

/// Reads a map from a sequence of items, which may borrow from the input.
///
/// The call fails at the first item for which an item before it has an equal key of the same rank, with the error that
/// the format makes from a message of the reader, and at the first item for which there is no memory. Any other error
/// is that of the format or of an item. There is no map then.
///
/// Each item is inserted when it is read: each key of it is searched for once, and hashed once, if the map hashes keys. The map
/// grows as it does by inserts, and no list of the items is made.
pub fn deserialize<'de, M: Fillable + Drop, F: Format>(
    alloc: Global,
    from: &mut Deserializer<'de, '_, F>,
) -> Result<M, F::Error>
where
    M::Item: Deserialize<'de>,
    // A sequence began, the items of the map followed, and it ended. `fill` counts them.
    ensures reads { IfOk result (λ map. ReadsSeq F.gives F.stays (length (M.listed map)) from.old from.new) }
    ensures builder { IfOk result M.HasNewBuilder }
{
    let mut map = M::new_empty(alloc);
    fill::<M, Borrowed, F>(&mut map, alloc, from, &mut Meter::new())?;
    Ok(map)
}

/// Reads a map from a sequence of items that borrow nothing from the input, as `deserialize` does.
pub fn deserialize_owned<M: Fillable + Drop, F: Format>(
    alloc: Global,
    from: &mut Deserializer<'_, '_, F>,
) -> Result<M, F::Error>
where
    M::Item: DeserializeOwned,
    // A sequence began, the items of the map followed, and it ended. `fill` counts them.
    ensures reads { IfOk result (λ map. ReadsSeq F.gives F.stays (length (M.listed map)) from.old from.new) }
    ensures builder { IfOk result M.HasNewBuilder }
{
    let mut map = M::new_empty(alloc);
    fill::<M, Owned, F>(&mut map, alloc, from, &mut Meter::new())?;
    Ok(map)
}

/// Reads a sequence of items into an empty map, and counts the items.
fn fill<'de, M: Fillable, R: ReadsItem<'de, M::Item>, F: Format>(
    map: &mut M,
    alloc: Global,
    from: &mut Deserializer<'de, '_, F>,
    items: &mut Meter,
) -> Result<(), F::Error>
where
    M::Item: Drop,
    requires empty { M.listed map.old ≡ [] }
    // The items were read between the marks of a sequence, and the map has each of them.
    ensures reads { OnOk result (ReadsSeq F.gives F.stays (length (M.listed map.new)) from.old from.new) }
    ensures counts { OnOk result (items.new ≡ items.old + length (M.listed map.new)) }
    ensures builder { OnOk result (M.HasNewBuilder map.old → M.HasNewBuilder map.new) }
{
    from.begin_seq()?;
    for _ in 0..u64::MAX {
        if !next_item(from, items)? {
            return Ok(());
        }
        let item = R::read(alloc, from)?;
        put(map, item, from)?;
    }
    Err(from.no_memory())
}

/// Inserts an item that was read. The error says in the words of the format why it could not be inserted.
fn put<M: Fillable, F: Format>(
    map: &mut M,
    item: M::Item,
    from: &Deserializer<'_, '_, F>,
) -> Result<(), F::Error>
where
    M::Item: Drop,
    ensures gained { OnOk result (IsPermutation (M.listed map.new) (item ∷ M.listed map.old)) }
    ensures builder { OnOk result (M.HasNewBuilder map.old → M.HasNewBuilder map.new) }
{
    match map.take_in(item) {
        Ok(()) => Ok(()),
        Err(InsertReason::Duplicate) => Err(from.custom("an item with an equal key")),
        Err(InsertReason::Memory) => Err(from.no_memory()),
    }
}

/// A map that is written and read as a sequence: `Seq(map)` can be written by itself, for example by
/// `serde_json::to_string(alloc, &Seq(map))`, and `Seq(map)` is what is read. It takes no memory beside the map.
#[derive(Drop)]
pub struct Seq<M>(pub M);

impl<M: Collection> Described for Seq<M>
where
    M::Item: Described,
{
    ghost writes = { λ m. WritesSeq M.Item.writes (M.listed m.0) };
}

impl<M: Collection> Serialize for Seq<M>
where
    M::Item: Serialize,
{
    /// Writes the map as a sequence of its items, as the function `serialize` does.
    fn serialize<Out: Serializer>(&self, out: &mut Out) -> Result<(), Out::Error> {
        serialize(&self.0, out)
    }
}

impl<'de, M: Fillable + Drop> Deserialize<'de> for Seq<M>
where
    M::Item: Deserialize<'de>,
{
    /// Reads a map from a sequence of items, as the function `deserialize` does.
    fn deserialize<F: Format>(
        alloc: Global,
        from: &mut Deserializer<'de, '_, F>,
    ) -> Result<Seq<M>, F::Error>
        ensures reads { IfOk result (λ m. ReadsSeq F.gives F.stays (length (M.listed m.0)) from.old from.new) }
        ensures builder { IfOk result (λ m. M.HasNewBuilder m.0) }
    {
        Ok(Seq(deserialize(alloc, from)?))
    }
}

impl<M: Fillable + Drop> DeserializeOwned for Seq<M>
where
    M::Item: DeserializeOwned,
{
    /// Reads a map from items that borrow nothing, as the function `deserialize_owned` does.
    fn deserialize_owned<F: Format>(
        alloc: Global,
        from: &mut Deserializer<'_, '_, F>,
    ) -> Result<Seq<M>, F::Error>
        ensures reads { IfOk result (λ m. ReadsSeq F.gives F.stays (length (M.listed m.0)) from.old from.new) }
        ensures builder { IfOk result (λ m. M.HasNewBuilder m.0) }
    {
        Ok(Seq(deserialize_owned(alloc, from)?))
    }
}
