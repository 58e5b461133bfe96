//! The traits of items with one key.
//!
//! Made by tests/widths from crates/iddqd_bi/src/item.rt: change that file.
ghost use Rattle.std.specs.Prelude.{◌≡◌, ℕ, true, refl, Bool, List, [], ◌∷◌};
ghost use Rattle.std.specs.Borrow.{Lends, sem};
ghost use Rattle.iddqd_store.specs.Bag.{Ranks};
ghost use Rattle.iddqd_store.specs.Rank.{agree, key_hash};

use std::hash::{BuildHasher, Hash};

/// An item with one key. Its key depends on its value alone.
pub trait IdHashItem {
    /// The type of the key.
    type Key: Eq + Hash;

    // The keys of an item, as contracts see them.
    ghost key: { Self → Self.Key };

    /// Returns the key.
    fn key(&self) -> &Self::Key
        ensures { result.now ≡ key self.now };
}

/// An item with data beside its key. A caller may write the data while the item is in a map, since its key stays
/// equal.
///
/// Where a key is a field beside the data, `Prim.search rules` proves its law, whatever its type is: a number, a text,
/// a list, a struct, an enum, or a tuple of them.
///
/// ```text
/// ghost use Rattle.std.proofs.Common.{rules};
///
/// /// An item that is known by a text, with how often it was met.
/// struct Met { key: String, count: u64 }
///
/// impl IdHashItemMut for Met {
///     type Data = u64;
///     ghost data_of = { λ m. m.count };
///     ghost put = { λ m n. record m { count = n } };
///     ghost keeps_key = { Prim.search rules };
///     ghost put_shows = { Prim.search rules };
///     fn data_mut(&mut self) -> &mut u64 { &mut self.count }
/// }
/// ```
pub trait IdHashItemMut: IdHashItem {
    /// The type of the data that can be written.
    type Data;

    // The data of an item, as contracts see it.
    ghost data_of: { Self → Self.Data };

    // The item with this data in place of its own.
    ghost put: { Self → Self.Data → Self };

    /// Returns the data, borrowed for writing.
    fn data_mut(&mut self) -> &mut Self::Data
        ensures value { result.now ≡ data_of self.old }
        ensures* writes_back { sem 𝓛 (Lends Self.row Self.Data.row self.entry result (put self.old)) };

    // Laws that an implementation has to prove: with other data put in, the item's key is equal to the old one, and
    // its data is what was put in. Equal is as the key's own `==` says, since a key that an item makes or lends is seen
    // as the whole item.
    ghost keeps_key: { (x : Self) (d : Self.Data) → Self.Key.eq (Self.key (put x d)) (Self.key x) ≡ true };

    ghost put_shows: { (x : Self) (d : Self.Data) → data_of (put x d) ≡ d };
}

/// What contracts say of the key of an item, as a list of one rank. The trait is public for contracts alone, and has no
/// function. Every item type implements it by the blanket impl below, and nobody implements it by hand.
pub trait Ranked: IdHashItem {
    // For each rank, the test whether two items have equal keys.
    ghost ranks: { Ranks Self };

    // For each rank, the test whether an item has the key of that rank.
    ghost key_tests: { Self.Key → List (Self → Bool) };

    ghost ranks_are: { ranks ≡ agree Self.key Self.Key.eq ∷ [] };

    ghost key_tests_are: { key_tests
        ≡ (λ k. (λ x. Self.Key.eq k (Self.key x)) ∷ []) };
}

impl<T: IdHashItem> Ranked for T {
    ghost ranks = { agree T.key T.Key.eq ∷ [] };

    ghost key_tests = { λ k. (λ x. T.Key.eq k (T.key x)) ∷ [] };

    ghost ranks_are = { refl };

    ghost key_tests_are = { refl };
}

/// What contracts say of the hashes of an item's key, for a builder of hashers. The trait is public for contracts
/// alone, and has no function. Every item type implements it by the blanket impl below, and nobody implements it by
/// hand.
pub trait Hashed<S: BuildHasher>: IdHashItem {
    // The hash of the key of an item, by a builder.
    ghost hash: { S → Self → ℕ };

    ghost hash_is: { hash ≡ key_hash Self.key Self.Key.hash_input S.BuildHasher S.Hasher.Hasher };

    // For each rank, the hash of an item's key, by a builder.
    ghost hashes: { S → List (Self → ℕ) };

    ghost hashes_are: { hashes ≡ (λ s. hash s ∷ []) };
}

impl<T: IdHashItem, S: BuildHasher> Hashed<S> for T {
    ghost hash = { key_hash T.key T.Key.hash_input S.BuildHasher S.Hasher.Hasher };

    ghost hash_is = { refl };

    ghost hashes = { λ s. key_hash T.key T.Key.hash_input S.BuildHasher S.Hasher.Hasher s ∷ [] };

    ghost hashes_are = { refl };
}
