//! Items with a key that they make or lend, for a key that is no part of the item.
ghost use Rattle.std.specs.Prelude.{◌≡◌, Some, refl};
ghost use Rattle.std.specs.Cmp.{IsTotalOrder, eq_by_cmp_equiv, partial_equiv_from_equiv, po, on_total, then_total};
ghost use Rattle.std.specs.Cmp.Rules.{comparing};
ghost use Rattle.std.specs.Ordering.{is_eq, ordering_then};
ghost use Rattle.std.specs.declared.cmp.Ordering.{Ordering};
ghost use Rattle.std.proofs.Common.{rules};

use crate::item::IdOrdItem;
use iddqd_store::{ByMade, ByPair, Holds, LendsPair, MakesKey};
use std::cmp::Ordering;
use std::fmt::{self, Debug, Formatter, Write};
use std::marker::Model;
use std::ops::Deref;

mod data;
mod queries;

pub use data::KeepsOrder;

/// A value that is known by a key that has an order, and that it makes or lends: `ByMade` and `ByPair`.
pub trait KeyOrder {
    // The result of `compare_keys`.
    ghost key_cmp: { Self → Self → Ordering };

    /// Compares the keys of two values.
    fn compare_keys(&self, other: &Self) -> Ordering
        ensures { result ≡ key_cmp self.now other.now };

    // The comparisons are a total order.
    ghost key_total: { IsTotalOrder key_cmp };
}

impl<T: MakesKey<RANK>, const RANK: usize> KeyOrder for ByMade<T, RANK>
where
    T::Made: Ord,
{
    ghost key_cmp = { λ x y. T.Made.cmp (T.made x) (T.made y) };

    fn compare_keys(&self, other: &Self) -> Ordering {
        self.held().make_key().cmp(&other.held().make_key())
    }

    ghost key_total = { on_total T.made T.Made.total };
}

impl<T: LendsPair<A, B, RANK>, A: Ord, B: Ord, const RANK: usize> KeyOrder
    for ByPair<T, A, B, RANK> {
    ghost key_cmp = { λ x y. ordering_then (A.cmp (T.pair x).0 (T.pair y).0) (B.cmp (T.pair x).1 (T.pair y).1) };

    fn compare_keys(&self, other: &Self) -> Ordering {
        let (mine, theirs) = (self.held().lend_pair(), other.held().lend_pair());
        match mine.0.cmp(theirs.0) {
            Ordering::Equal => mine.1.cmp(theirs.1),
            side => side,
        }
    }

    ghost key_total = { then_total (on_total (λ x. (T.pair x).0) A.total) (on_total (λ x. (T.pair x).1) B.total) };
}

/// A key that is made or lent, in the order of what is made or lent. Contracts see the value that makes or lends it.
///
/// Each comparison makes or lends the keys of both values, so let this be cheap. The key is kept nowhere, so it takes no
/// memory beside the value.
///
/// A lookup takes `Made { key }` for a key that is made, and a pair of queries for one that is lent.
#[derive(Clone, Drop)]
pub struct InOrder<K> {
    value: K,
}

impl<K> Model for InOrder<K> {
    ghost Value = { K };

    ghost view = { λ x. x.value };
}

impl<K: KeyOrder> PartialEq for InOrder<K> {
    ghost eq = { λ x y. is_eq (K.key_cmp x y) };

    ghost laws = { partial_equiv_from_equiv (eq_by_cmp_equiv K.key_total) };

    fn eq(&self, other: &InOrder<K>) -> bool {
        self.value.compare_keys(&other.value).is_eq()
    }
}

impl<K: KeyOrder> Eq for InOrder<K> {
    ghost laws = { eq_by_cmp_equiv K.key_total };
}

impl<K: KeyOrder> PartialOrd for InOrder<K> {
    ghost partial_cmp = { λ x y. Some (K.key_cmp x y) };

    ghost laws = { po K.key_total (λ x y. refl) };

    fn partial_cmp(&self, other: &InOrder<K>) -> Option<Ordering> {
        Some(self.value.compare_keys(&other.value))
    }
}

impl<K: KeyOrder> Ord for InOrder<K> {
    ghost cmp = { λ x y. K.key_cmp x y };

    ghost total = { K.key_total };

    ghost matches_partial_cmp = { λ x y. refl };

    ghost matches_eq = { λ x y. refl };

    fn cmp(&self, other: &InOrder<K>) -> Ordering {
        self.value.compare_keys(&other.value)
    }
}

/// An item with a key that it makes or lends: `WithKeys<ByMade<T, 1>>`, or `ByPair` in place of it. It dereferences to
/// the item, and contracts see the item. Its `==` is that of items, and not of keys.
///
/// It takes no memory beside the item, and its own calls allocate none. The key is made or lent anew for each comparison.
///
/// If the item has data (`HasData`), and makes or lends the same key whatever this data is (`KeepsMade`, `KeepsPair`), a map
/// writes its data in place, as that of any item.
#[derive(Clone, Drop)]
pub struct WithKeys<K> {
    key: InOrder<K>,
}

/// An item that makes its key.
///
/// ```text
/// /// A reading, in the order of its minutes.
/// struct Reading { seconds: u64, value: u32 }
///
/// impl MakesKey<1> for Reading {
///     type Made = u64;
///     ghost made = { λ r. r.seconds / 60 };
///     fn make_key(&self) -> u64 { self.seconds / 60 }
/// }
///
/// let mut readings = IdOrdMap::<WithMadeKeys<Reading>>::new(alloc);
/// readings.try_insert(WithMadeKeys::new(reading))?;
/// let first = readings.range(Made { key: 5 }..).next();
/// ```
pub type WithMadeKeys<T> = WithKeys<ByMade<T, 1>>;

impl<K> Model for WithKeys<K> {
    ghost Value = { K };

    ghost view = { λ x. x.key };
}

impl<K: Holds> WithKeys<K> {
    /// Wraps an item.
    pub fn new(item: K::Held) -> Self
        ensures { K.held result ≡ item }
    {
        WithKeys {
            key: InOrder {
                value: K::hold(item),
            },
        }
    }

    /// Returns the item.
    pub fn item(&self) -> &K::Held
        ensures { result.now ≡ K.held self.now }
    {
        self.key.value.held()
    }

    /// Unwraps the item.
    pub fn into_item(self) -> K::Held
        ensures { result ≡ K.held self }
    {
        self.key.value.into_held()
    }
}

impl<K: Holds> Deref for WithKeys<K> {
    type Target = K::Held;

    fn deref(&self) -> &K::Held
        ensures { result.now ≡ K.held self.now }
    {
        self.item()
    }
}

impl<K: KeyOrder> IdOrdItem for WithKeys<K> {
    type Key = InOrder<K>;

    ghost key = { λ x. x };

    fn key(&self) -> &InOrder<K> {
        &self.key
    }
}

impl<K: Holds> PartialEq for WithKeys<K>
where
    K::Held: PartialEq,
{
    ghost eq = { λ x y. K.Held.eq (K.held x) (K.held y) };

    ghost laws = { Prim.search (comparing, rules, K.Held.PartialEq.laws) };

    fn eq(&self, other: &WithKeys<K>) -> bool {
        *self.item() == *other.item()
    }
}

impl<K: Holds> Eq for WithKeys<K>
where
    K::Held: Eq,
{
    ghost laws = { Prim.search (comparing, rules, K.Held.Eq.laws) };
}

impl<K: Holds> Debug for WithKeys<K>
where
    K::Held: Debug,
{
    ghost debug_output = { λ x. K.Held.debug_output (K.held x) };

    /// Prints the item as it prints itself.
    fn fmt<W: Write>(&self, f: &mut Formatter<W>) -> fmt::Result {
        Debug::fmt(self.item(), f)
    }
}
