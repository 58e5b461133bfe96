//! Items with a key that they make or lend, for a key that is no part of the item.
//!
//! Written by hand; tests/one_key.patch says why.
ghost use Rattle.std.specs.Prelude.{◌≡◌};
ghost use Rattle.std.specs.Cmp.Rules.{comparing};
ghost use Rattle.std.proofs.Common.{rules};

use crate::item::IdHashItem;
use iddqd_store::{ByMade, Holds};
use std::fmt::{self, Debug, Formatter, Write};
use std::hash::Hash;
use std::marker::Model;
use std::ops::Deref;

mod data;

/// An item with a key that it makes or lends: `WithKeys<ByMade<T, 1>>`, or `ByPair` in place of it. It dereferences to
/// the item, and contracts see the item. Its `==` is that of items, and not of keys.
///
/// It takes no memory beside the item, and its own calls allocate none. The key is made or lent anew for each comparison and
/// each hash.
///
/// If the item has data (`HasData`), and makes or lends the same key whatever this data is (`KeepsMade`, `KeepsPair`), a map
/// writes its data in place, as that of any item.
#[derive(Clone, Drop)]
pub struct WithKeys<K> {
    key: K,
}

/// An item that makes its key.
pub type WithMadeKeys<T> = WithKeys<ByMade<T, 1>>;

impl<K> Model for WithKeys<K> {
    ghost Value = { K };

    ghost view = { λ x. x.key };
}

impl<K: Holds> WithKeys<K> {
    /// Wraps an item.
    pub fn new(item: K::Held) -> Self
        ensures { K.held result ≡ item }
    {
        WithKeys { key: K::hold(item) }
    }

    /// Returns the item.
    pub fn item(&self) -> &K::Held
        ensures { result.now ≡ K.held self.now }
    {
        self.key.held()
    }

    /// Unwraps the item.
    pub fn into_item(self) -> K::Held
        ensures { result ≡ K.held self }
    {
        self.key.into_held()
    }
}

impl<K: Holds> Deref for WithKeys<K> {
    type Target = K::Held;

    fn deref(&self) -> &K::Held
        ensures { result.now ≡ K.held self.now }
    {
        self.item()
    }
}

impl<K: Holds + Eq + Hash> IdHashItem for WithKeys<K> {
    type Key = K;

    ghost key = { λ x. x };

    fn key(&self) -> &K {
        &self.key
    }
}

impl<K: Holds> PartialEq for WithKeys<K>
where
    K::Held: PartialEq,
{
    ghost eq = { λ x y. K.Held.eq (K.held x) (K.held y) };

    ghost laws = { Prim.search (comparing, rules, K.Held.PartialEq.laws) };

    fn eq(&self, other: &WithKeys<K>) -> bool {
        *self.item() == *other.item()
    }
}

impl<K: Holds> Eq for WithKeys<K>
where
    K::Held: Eq,
{
    ghost laws = { Prim.search (comparing, rules, K.Held.Eq.laws) };
}

impl<K: Holds> Debug for WithKeys<K>
where
    K::Held: Debug,
{
    ghost debug_output = { λ x. K.Held.debug_output (K.held x) };

    /// Prints the item as it prints itself.
    fn fmt<W: Write>(&self, f: &mut Formatter<W>) -> fmt::Result {
        Debug::fmt(self.item(), f)
    }
}
