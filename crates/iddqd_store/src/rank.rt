//! One rank, which is one of an item's keys: the search for an item by its key, and the hashes under which tables
//! hold items.
ghost use Rattle.std.specs.Prelude.{◌≡◌, ℕ, refl};
ghost use Rattle.iddqd_store.specs.Rank.{key_hash};

use std::hash::{BuildHasher, Hash};

mod found_by_hash;
mod lookup;
mod matchers;
mod pairs;
mod removal;

pub use found_by_hash::FoundByHash;
pub use lookup::Lookup;
pub use matchers::ByQuery;

/// Says which key of an item a rank is. A type without values stands for each rank.
pub trait KeyOf<T> {
    /// The type of the key.
    type Key: Eq + Hash;

    // The key of an item.
    ghost key: { T → Self.Key };

    /// Returns the key of this rank.
    fn key(item: &T) -> &Self::Key
        ensures { result.now ≡ key item.now };
}

/// The hash of an item's key of a rank, by a given builder, for contracts. Every rank implements this trait, by the
/// one impl below.
pub trait HashedKey<T, S: BuildHasher>: KeyOf<T> {
    // The hash of the key, by a builder.
    ghost hash: { S → T → ℕ };

    // It is the hash that the builder's `hash_one` gives for the key.
    ghost hash_is: { hash ≡ key_hash Self.key Self.Key.hash_input S.BuildHasher S.Hasher.Hasher };
}

impl<T, S: BuildHasher, R: KeyOf<T>> HashedKey<T, S> for R {
    ghost hash = { key_hash R.key R.Key.hash_input S.BuildHasher S.Hasher.Hasher };

    ghost hash_is = { refl };
}
