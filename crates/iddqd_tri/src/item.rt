//! The traits of items with three keys.
//!
//! Made by tests/widths from crates/iddqd_bi/src/item.rt: change that file.
ghost use Rattle.std.specs.Prelude.{◌≡◌, ℕ, true, refl, Bool, List, [], ◌∷◌};
ghost use Rattle.std.specs.Borrow.{Lends, sem};
ghost use Rattle.iddqd_store.specs.Bag.{Ranks};
ghost use Rattle.iddqd_store.specs.Rank.{agree, key_hash};

use std::hash::{BuildHasher, Hash};

/// An item with three keys. Its keys depend on its value alone.
pub trait TriHashItem {
    /// The type of the first key.
    type K1: Eq + Hash;

    /// The type of the second key.
    type K2: Eq + Hash;

    /// The type of the third key.
    type K3: Eq + Hash;

    // The keys of an item, as contracts see them.
    ghost key1: { Self → Self.K1 };

    ghost key2: { Self → Self.K2 };

    ghost key3: { Self → Self.K3 };

    /// Returns the first key.
    fn key1(&self) -> &Self::K1
        ensures { result.now ≡ key1 self.now };

    /// Returns the second key.
    fn key2(&self) -> &Self::K2
        ensures { result.now ≡ key2 self.now };

    /// Returns the third key.
    fn key3(&self) -> &Self::K3
        ensures { result.now ≡ key3 self.now };
}

/// An item with data beside its keys. A caller may write the data while the item is in a map, since its keys stay
/// equal.
///
/// Where a key is a field beside the data, `Prim.search rules` proves its law, whatever its type is: a number, a text,
/// a list, a struct, an enum, or a tuple of them.
///
/// ```text
/// ghost use Rattle.std.proofs.Common.{rules};
///
/// /// An item that is known by a text, with how often it was met.
/// struct Met { key1: String, key2: String, key3: String, count: u64 }
///
/// impl TriHashItemMut for Met {
///     type Data = u64;
///     ghost data_of = { λ m. m.count };
///     ghost put = { λ m n. record m { count = n } };
///     ghost keeps_key1 = { Prim.search rules };
///     ghost keeps_key2 = { Prim.search rules };
///     ghost keeps_key3 = { Prim.search rules };
///     ghost put_shows = { Prim.search rules };
///     fn data_mut(&mut self) -> &mut u64 { &mut self.count }
/// }
/// ```
pub trait TriHashItemMut: TriHashItem {
    /// The type of the data that can be written.
    type Data;

    // The data of an item, as contracts see it.
    ghost data_of: { Self → Self.Data };

    // The item with this data in place of its own.
    ghost put: { Self → Self.Data → Self };

    /// Returns the data, borrowed for writing.
    fn data_mut(&mut self) -> &mut Self::Data
        ensures value { result.now ≡ data_of self.old }
        ensures* writes_back { sem 𝓛 (Lends Self.row Self.Data.row self.entry result (put self.old)) };

    // Laws that an implementation has to prove: with other data put in, the item's keys are equal to the old ones, and
    // its data is what was put in. Equal is as the key's own `==` says, since a key that an item makes or lends is seen
    // as the whole item.
    ghost keeps_key1: { (x : Self) (d : Self.Data) → Self.K1.eq (Self.key1 (put x d)) (Self.key1 x) ≡ true };

    ghost keeps_key2: { (x : Self) (d : Self.Data) → Self.K2.eq (Self.key2 (put x d)) (Self.key2 x) ≡ true };

    ghost keeps_key3: { (x : Self) (d : Self.Data) → Self.K3.eq (Self.key3 (put x d)) (Self.key3 x) ≡ true };

    ghost put_shows: { (x : Self) (d : Self.Data) → data_of (put x d) ≡ d };
}

/// What contracts say of all keys of an item together. The trait is public for contracts alone, and has no function.
/// Every item type implements it by the blanket impl below, and nobody implements it by hand.
pub trait Ranked: TriHashItem {
    // For each rank, the test whether two items have equal keys.
    ghost ranks: { Ranks Self };

    // For each rank, the test whether an item has the key of that rank.
    ghost key_tests: { Self.K1 → Self.K2 → Self.K3 → List (Self → Bool) };

    ghost ranks_are: { ranks ≡ agree Self.key1 Self.K1.eq ∷ agree Self.key2 Self.K2.eq ∷ agree Self.key3 Self.K3.eq
        ∷ [] };

    ghost key_tests_are: { key_tests
        ≡ (λ k1 k2 k3. (λ x. Self.K1.eq k1 (Self.key1 x)) ∷ (λ x. Self.K2.eq k2 (Self.key2 x)) ∷ (λ x. Self.K3.eq k3
        (Self.key3 x)) ∷ []) };
}

impl<T: TriHashItem> Ranked for T {
    ghost ranks = { agree T.key1 T.K1.eq ∷ agree T.key2 T.K2.eq ∷ agree T.key3 T.K3.eq ∷ [] };

    ghost key_tests = { λ k1 k2 k3. (λ x. T.K1.eq k1 (T.key1 x)) ∷ (λ x. T.K2.eq k2 (T.key2 x)) ∷ (λ x. T.K3.eq k3
        (T.key3 x)) ∷ [] };

    ghost ranks_are = { refl };

    ghost key_tests_are = { refl };
}

/// What contracts say of the hashes of an item's keys, for a builder of hashers. The trait is public for contracts
/// alone, and has no function. Every item type implements it by the blanket impl below, and nobody implements it by
/// hand.
pub trait Hashed<S: BuildHasher>: TriHashItem {
    // The hash of each key of an item, by a builder.
    ghost hash1: { S → Self → ℕ };

    ghost hash2: { S → Self → ℕ };

    ghost hash3: { S → Self → ℕ };

    ghost hash1_is: { hash1 ≡ key_hash Self.key1 Self.K1.hash_input S.BuildHasher S.Hasher.Hasher };

    ghost hash2_is: { hash2 ≡ key_hash Self.key2 Self.K2.hash_input S.BuildHasher S.Hasher.Hasher };

    ghost hash3_is: { hash3 ≡ key_hash Self.key3 Self.K3.hash_input S.BuildHasher S.Hasher.Hasher };

    // For each rank, the hash of an item's key, by a builder.
    ghost hashes: { S → List (Self → ℕ) };

    ghost hashes_are: { hashes ≡ (λ s. hash1 s ∷ hash2 s ∷ hash3 s ∷ []) };
}

impl<T: TriHashItem, S: BuildHasher> Hashed<S> for T {
    ghost hash1 = { key_hash T.key1 T.K1.hash_input S.BuildHasher S.Hasher.Hasher };

    ghost hash2 = { key_hash T.key2 T.K2.hash_input S.BuildHasher S.Hasher.Hasher };

    ghost hash3 = { key_hash T.key3 T.K3.hash_input S.BuildHasher S.Hasher.Hasher };

    ghost hash1_is = { refl };

    ghost hash2_is = { refl };

    ghost hash3_is = { refl };

    ghost hashes = { λ s. key_hash T.key1 T.K1.hash_input S.BuildHasher S.Hasher.Hasher s
        ∷ key_hash T.key2 T.K2.hash_input S.BuildHasher S.Hasher.Hasher s
        ∷ key_hash T.key3 T.K3.hash_input S.BuildHasher S.Hasher.Hasher s ∷ [] };

    ghost hashes_are = { refl };
}
