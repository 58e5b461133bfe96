//! Items with keys that they make or lend, for a key that is no part of the item.
//!
//! Written by hand; tests/three_keys.patch says why.
ghost use Rattle.std.specs.Prelude.{◌≡◌};
ghost use Rattle.std.specs.Cmp.Rules.{comparing};
ghost use Rattle.std.proofs.Common.{rules};

use crate::item::TriHashItem;
use iddqd_store::{ByMade, Holds};
use std::fmt::{self, Debug, Formatter, Write};
use std::hash::Hash;
use std::marker::Model;
use std::ops::Deref;

mod data;

/// An item with three keys that it makes or lends: `WithKeys<ByMade<ByMade<ByMade<T, 3>, 2>, 1>>`, or `ByPair` in place
/// of some or all. It dereferences to the item, and contracts see the item. Its `==` is that of items, and not of keys.
///
/// It takes no memory beside the item, and its own calls allocate none. A key is made or lent anew for each comparison and
/// each hash.
///
/// If the item has data (`HasData`), and makes and lends the same keys whatever this data is (`KeepsMade`, `KeepsPair`), a
/// map writes its data in place, as that of any item.
#[derive(Clone, Drop)]
pub struct WithKeys<K> {
    key: K,
}

/// An item that makes all of its keys.
pub type WithMadeKeys<T> = WithKeys<ByMade<ByMade<ByMade<T, 3>, 2>, 1>>;

impl<K> Model for WithKeys<K> {
    ghost Value = { K };

    ghost view = { λ x. x.key };
}

impl<K: Holds> WithKeys<K>
where
    K::Held: Holds,
    <K::Held as Holds>::Held: Holds,
{
    /// Wraps an item.
    pub fn new(item: <<K::Held as Holds>::Held as Holds>::Held) -> Self
        ensures { K.Held.Held.held (K.Held.held (K.held result)) ≡ item }
    {
        WithKeys {
            key: K::hold(<K::Held>::hold(<<K::Held as Holds>::Held>::hold(item))),
        }
    }

    /// Returns the item.
    pub fn item(&self) -> &<<K::Held as Holds>::Held as Holds>::Held
        ensures { result.now ≡ K.Held.Held.held (K.Held.held (K.held self.now)) }
    {
        self.key.held().held().held()
    }

    /// Unwraps the item.
    pub fn into_item(self) -> <<K::Held as Holds>::Held as Holds>::Held
        ensures { result ≡ K.Held.Held.held (K.Held.held (K.held self)) }
    {
        self.key.into_held().into_held().into_held()
    }
}

impl<K: Holds> Deref for WithKeys<K>
where
    K::Held: Holds,
    <K::Held as Holds>::Held: Holds,
{
    type Target = <<K::Held as Holds>::Held as Holds>::Held;

    fn deref(&self) -> &<<K::Held as Holds>::Held as Holds>::Held
        ensures { result.now ≡ K.Held.Held.held (K.Held.held (K.held self.now)) }
    {
        self.item()
    }
}

impl<K: Holds + Eq + Hash> TriHashItem for WithKeys<K>
where
    K::Held: Holds + Eq + Hash,
    <K::Held as Holds>::Held: Eq + Hash,
{
    type K1 = K;

    type K2 = K::Held;

    type K3 = <K::Held as Holds>::Held;

    ghost key1 = { λ x. x };

    ghost key2 = { λ x. K.held x };

    ghost key3 = { λ x. K.Held.held (K.held x) };

    fn key1(&self) -> &K {
        &self.key
    }

    fn key2(&self) -> &K::Held {
        self.key.held()
    }

    fn key3(&self) -> &<K::Held as Holds>::Held {
        self.key.held().held()
    }
}

impl<K: Holds> PartialEq for WithKeys<K>
where
    K::Held: Holds,
    <K::Held as Holds>::Held: Holds,
    <<K::Held as Holds>::Held as Holds>::Held: PartialEq,
{
    ghost eq = { λ x y. K.Held.Held.Held.eq (K.Held.Held.held (K.Held.held (K.held x)))
        (K.Held.Held.held (K.Held.held (K.held y))) };

    ghost laws = { Prim.search (comparing, rules, K.Held.Held.Held.PartialEq.laws) };

    fn eq(&self, other: &WithKeys<K>) -> bool {
        *self.item() == *other.item()
    }
}

impl<K: Holds> Eq for WithKeys<K>
where
    K::Held: Holds,
    <K::Held as Holds>::Held: Holds,
    <<K::Held as Holds>::Held as Holds>::Held: Eq,
{
    ghost laws = { Prim.search (comparing, rules, K.Held.Held.Held.Eq.laws) };
}

impl<K: Holds> Debug for WithKeys<K>
where
    K::Held: Holds,
    <K::Held as Holds>::Held: Holds,
    <<K::Held as Holds>::Held as Holds>::Held: Debug,
{
    ghost debug_output = { λ x. K.Held.Held.Held.debug_output (K.Held.Held.held (K.Held.held (K.held x))) };

    /// Prints the item as it prints itself.
    fn fmt<W: Write>(&self, f: &mut Formatter<W>) -> fmt::Result {
        Debug::fmt(self.item(), f)
    }
}
