//! A map of the family as a map of `serde`, for example as an object of JSON, which has each item under its first key.
//!
//! On a field of a derived type write `#[serde(with = "iddqd_serde::as_map")]`. A map by itself goes into `AsMap`, which
//! implements `Serialize`, `Deserialize` and `DeserializeOwned`.
//!
//! Each item is written whole behind its first key, in the order of `iter`. The format has to take such keys: `serde_json`
//! takes a text, a `char`, a variant without data, a number, which it writes in quotes, and a `bool`, and no other key.
//!
//! A map is read entry by entry, in any order. An entry whose key is not equal to the first key of its item is an error of the
//! format's own kind, which a format such as `serde_json` ends with the line and the column of that key. An item that has a key of
//! an item before it, and a lack of memory, are the same errors as in a sequence.
//!
//! It is proved of reading that what was read is a map from its beginning to its end, in which entries follow each
//! other unless the map is empty (`reads`), and, as of each map (`sound` and `ascending` of `len`), that no two items of the map
//! have an equal key of the same rank, and that the items ascend, if the map has an order. The private function that fills the
//! map counts the entries that it reads (`counts`), and those whose key it has compared with the first key of the item and found
//! equal (`agrees`). Both are as many as the map has items. No clause of a public function says so, or which keys and items were
//! read, since the contracts of `serde` say nothing of what a derived `Deserialize` reads.
ghost use Rattle.std.specs.Prelude.{◌≡◌, ◌+◌, [], length, IfOk, OnOk};
ghost use Rattle.iddqd_serde.specs.Entries.{entries};
ghost use Rattle.iddqd_serde.specs.Reading.{ReadsMap};
ghost use Rattle.serde.specs.Event.{WritesEntry, WritesMap};

use crate::put;
use crate::reading::{Borrowed, Owned, ReadsItem, agree, next_entry, other_key};
use iddqd_store::{Collection, Fillable, Meter, Visitor};
use serde::{
    Described, Deserialize, DeserializeOwned, Deserializer, Format, Serialize, Serializer,
};
use std::alloc::Global;
use std::marker::PhantomData;

/// Writes the items of a map, each behind its first key, in the order of `iter`.
///
/// The error is that of the format, of a key or of an item: `serde_json` has one at a key of a type that it does not take.
/// What was written before it stays written.
///
/// The call writes each key and each item once, and allocates no memory of its own.
pub fn serialize<M: Collection, Out: Serializer>(map: &M, out: &mut Out) -> Result<(), Out::Error>
where
    M::Item: Serialize,
    M::FirstKey: Serialize,
    // A map of as many entries as the map has items begins, each key and its item are written, and the map ends.
    ensures { OnOk result (WritesMap M.FirstKey.writes M.Item.writes (entries M.first_key (M.listed map.now))
        (Out.written out.old) (Out.written out.new)) }
{
    out.begin_map(Some(map.item_count()))?;
    map.visit_each::<ToMap<M, Out>>(out)?;
    out.end_map()
}

/// Writes an item behind its first key.
struct ToMap<M, Out>(PhantomData<M>, PhantomData<Out>);

impl<M: Collection, Out: Serializer> Visitor<M::Item> for ToMap<M, Out>
where
    M::Item: Serialize,
    M::FirstKey: Serialize,
{
    type Target = Out;

    type Error = Out::Error;

    ghost visits = { λ x old new. WritesEntry M.FirstKey.writes M.Item.writes (M.first_key x, x) (Out.written old) (Out.written new) };

    fn visit(item: &M::Item, out: &mut Out) -> Result<(), Out::Error> {
        out.begin_key()?;
        M::key_of(item).serialize(out)?;
        out.end_key()?;
        item.serialize(out)
    }
}

/// Reads a map from entries, each an item behind its first key, which may borrow from the input.
///
/// The call fails at the first entry whose key is not equal to the first key of its item. The format makes that error from a
/// message of the reader, and places it at the key. The call also fails at the first item for which an item before it has
/// an equal key of the same rank, with an error that is placed after the item, and at the first item for which there is no
/// memory. Any other error is that of the format, of a key or of an item. There is no map then.
///
/// Each key is compared once with the first key of its item, and dropped. The item is inserted when it is read: each key of
/// it is searched for once, and hashed once, if the map hashes keys. The map grows as it does by inserts, and no list of the items
/// is made.
///
/// A format knows the place of a key only until it reads on, so the error for an entry is made before its item is read, and
/// is dropped if the keys are equal. The formats `serde_json`, `toml` and `csv` allocate no memory for an error.
pub fn deserialize<'de, M: Fillable + Drop, F: Format>(
    alloc: Global,
    from: &mut Deserializer<'de, '_, F>,
) -> Result<M, F::Error>
where
    M::Item: Deserialize<'de>,
    M::FirstKey: Deserialize<'de>,
    // A map began, an entry for each item of the map followed, and it ended. `fill` counts them.
    ensures reads { IfOk result (λ map. ReadsMap F.gives (length (M.listed map)) from.old from.new) }
    ensures builder { IfOk result M.HasNewBuilder }
{
    let mut map = M::new_empty(alloc);
    fill::<M, Borrowed, F>(&mut map, alloc, from, &mut Meter::new(), &mut Meter::new())?;
    Ok(map)
}

/// Reads a map from keys and items that borrow nothing from the input, as `deserialize` does.
pub fn deserialize_owned<M: Fillable + Drop, F: Format>(
    alloc: Global,
    from: &mut Deserializer<'_, '_, F>,
) -> Result<M, F::Error>
where
    M::Item: DeserializeOwned,
    M::FirstKey: DeserializeOwned,
    // A map began, an entry for each item of the map followed, and it ended. `fill` counts them.
    ensures reads { IfOk result (λ map. ReadsMap F.gives (length (M.listed map)) from.old from.new) }
    ensures builder { IfOk result M.HasNewBuilder }
{
    let mut map = M::new_empty(alloc);
    fill::<M, Owned, F>(&mut map, alloc, from, &mut Meter::new(), &mut Meter::new())?;
    Ok(map)
}

/// Reads entries into an empty map. It counts the entries, and those whose keys agree.
fn fill<'de, M: Fillable, R: ReadsItem<'de, M::FirstKey> + ReadsItem<'de, M::Item>, F: Format>(
    map: &mut M,
    alloc: Global,
    from: &mut Deserializer<'de, '_, F>,
    read: &mut Meter,
    agreed: &mut Meter,
) -> Result<(), F::Error>
where
    M::Item: Drop,
    M::FirstKey: Drop,
    requires empty { M.listed map.old ≡ [] }
    // The entries were read between the marks of a map, and the map has the item of each of them.
    ensures reads { OnOk result (ReadsMap F.gives (length (M.listed map.new)) from.old from.new) }
    ensures counts { OnOk result (read.new ≡ read.old + length (M.listed map.new)) }
    ensures agrees { OnOk result (agreed.new ≡ agreed.old + length (M.listed map.new)) }
    ensures builder { OnOk result (M.HasNewBuilder map.old → M.HasNewBuilder map.new) }
{
    from.begin_map()?;
    for _ in 0..u64::MAX {
        if !next_entry(from, read)? {
            return Ok(());
        }
        let key: M::FirstKey = R::read(alloc, from)?;
        let other_key = other_key(from);
        let item: M::Item = R::read(alloc, from)?;
        if !agree::<M>(&key, &item, agreed) {
            return Err(other_key);
        }
        put(map, item, from)?;
    }
    Err(from.no_memory())
}

/// A map that is written and read with each item behind its first key: `AsMap(map)` can be written by itself, for example by
/// `serde_json::to_string(alloc, &AsMap(map))`, and `AsMap(map)` is what is read. It takes no memory beside the map.
#[derive(Drop)]
pub struct AsMap<M>(pub M);

impl<M: Collection> Described for AsMap<M>
where
    M::Item: Described,
    M::FirstKey: Described,
{
    ghost writes = { λ m. WritesMap M.FirstKey.writes M.Item.writes (entries M.first_key (M.listed m.0)) };
}

impl<M: Collection> Serialize for AsMap<M>
where
    M::Item: Serialize,
    M::FirstKey: Serialize,
{
    /// Writes the items of the map behind their first keys, as the function `serialize` does.
    fn serialize<Out: Serializer>(&self, out: &mut Out) -> Result<(), Out::Error> {
        serialize(&self.0, out)
    }
}

impl<'de, M: Fillable + Drop> Deserialize<'de> for AsMap<M>
where
    M::Item: Deserialize<'de>,
    M::FirstKey: Deserialize<'de>,
{
    /// Reads a map from items behind their first keys, as the function `deserialize` does.
    fn deserialize<F: Format>(
        alloc: Global,
        from: &mut Deserializer<'de, '_, F>,
    ) -> Result<AsMap<M>, F::Error>
        ensures reads { IfOk result (λ m. ReadsMap F.gives (length (M.listed m.0)) from.old from.new) }
        ensures builder { IfOk result (λ m. M.HasNewBuilder m.0) }
    {
        Ok(AsMap(deserialize(alloc, from)?))
    }
}

impl<M: Fillable + Drop> DeserializeOwned for AsMap<M>
where
    M::Item: DeserializeOwned,
    M::FirstKey: DeserializeOwned,
{
    /// Reads a map from keys and items that borrow nothing, as the function `deserialize_owned` does.
    fn deserialize_owned<F: Format>(
        alloc: Global,
        from: &mut Deserializer<'_, '_, F>,
    ) -> Result<AsMap<M>, F::Error>
        ensures reads { IfOk result (λ m. ReadsMap F.gives (length (M.listed m.0)) from.old from.new) }
        ensures builder { IfOk result (λ m. M.HasNewBuilder m.0) }
    {
        Ok(AsMap(deserialize_owned(alloc, from)?))
    }
}
