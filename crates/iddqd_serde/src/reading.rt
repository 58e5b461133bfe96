//! Steps of reading a map.
ghost use Rattle.std.specs.Prelude.{◌≡◌, ◌+◌, IfOk, MatchBool, if◌then◌else◌};
ghost use Rattle.serde.specs.Event.{key_begins, map_ends, seq_ends};
ghost use Rattle.serde.specs.Steps.{Gives, Stays};

use iddqd_store::{Collection, Meter};
use serde::{Deserialize, DeserializeOwned, Deserializer, Format};
use std::alloc::Global;

/// Reads a value from a format: one that may borrow from the input, or one that does not.
pub(crate) trait ReadsItem<'de, T> {
    fn read<F: Format>(alloc: Global, from: &mut Deserializer<'de, '_, F>) -> Result<T, F::Error>;
}

/// Reads values that may borrow from the input.
pub(crate) struct Borrowed;

impl<'de, T: Deserialize<'de>> ReadsItem<'de, T> for Borrowed {
    fn read<F: Format>(alloc: Global, from: &mut Deserializer<'de, '_, F>) -> Result<T, F::Error> {
        T::deserialize(alloc, from)
    }
}

/// Reads values that borrow nothing from the input.
pub(crate) struct Owned;

impl<'de, T: DeserializeOwned> ReadsItem<'de, T> for Owned {
    fn read<F: Format>(alloc: Global, from: &mut Deserializer<'de, '_, F>) -> Result<T, F::Error> {
        T::deserialize_owned(alloc, from)
    }
}

/// Returns whether a further item of the sequence follows, and counts it if one does. The error is that of the format.
pub(crate) fn next_item<F: Format>(
    from: &mut Deserializer<'_, '_, F>,
    read: &mut Meter,
) -> Result<bool, F::Error>
    ensures { IfOk result (λ follows. MatchBool follows
        (Stays F.stays from.old from.new × (read.new ≡ read.old + 1))
        (Gives F.gives from.old seq_ends from.new × (read.new ≡ read.old))) }
{
    let follows = from.next_item()?;
    if follows {
        read.tick();
    }
    Ok(follows)
}

/// Returns whether a further entry of the map follows, and counts it if one does. The error is that of the format.
pub(crate) fn next_entry<F: Format>(
    from: &mut Deserializer<'_, '_, F>,
    read: &mut Meter,
) -> Result<bool, F::Error>
    ensures { IfOk result (λ follows. MatchBool follows
        (Gives F.gives from.old key_begins from.new × (read.new ≡ read.old + 1))
        (Gives F.gives from.old map_ends from.new × (read.new ≡ read.old))) }
{
    let follows = from.next_entry()?;
    if follows {
        read.tick();
    }
    Ok(follows)
}

/// Returns the error of an entry whose key is not the first key of its item. A format says in it where the reader stands, so it is
/// made before the item is read.
pub(crate) fn other_key<F: Format>(from: &Deserializer<'_, '_, F>) -> F::Error {
    from.custom("a key that is not its item's")
}

/// Returns whether the key of an entry is equal to the first key of its item, and counts the entry if it is.
pub(crate) fn agree<M: Collection>(key: &M::FirstKey, item: &M::Item, agreed: &mut Meter) -> bool
    ensures value { result ≡ M.FirstKey.eq key.now (M.first_key item.now) }
    ensures counts { agreed.new ≡ (if result then agreed.old + 1 else agreed.old) }
{
    let is_equal = *key == *M::key_of(item);
    if is_equal {
        agreed.tick();
    }
    is_equal
}
