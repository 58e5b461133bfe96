//! What a caller can prove of a search with a matcher of its own, by a hash that the map's builder makes.
ghost use Rattle.std.specs.Prelude.{◌≡◌, ◌+◌, ◌≤◌, length, refl, option_copied, ⊤};
ghost use Rattle.std.proofs.Common.{◌∙◌, ap};
ghost use Rattle.iddqd_bi.specs.Bag.{IsOnly, crowd};
ghost use Rattle.iddqd_bi.specs.Map.{bag, hash_of};
ghost use Rattle.iddqd_bi.specs.Keys.{has1};

use iddqd_bi::{BiHashItem, BiHashMap, Hashed, KeyMatcher, Meter};
use std::hash::{BuildHasher, Hash};

/// A matcher that accepts the keys that are equal to one key, and counts how often it is asked.
#[derive(Drop)]
pub struct Same<'k, K> {
    key: &'k K,
    asked: Meter,
}

impl<'k, K: Eq> Same<'k, K> {
    /// Makes a matcher that has not been asked yet.
    pub fn new(key: &'k K) -> Self
        ensures key { result.key ≡ key.entry }
        ensures asked { result.asked ≡ 0 }
    {
        Same {
            key,
            asked: Meter::new(),
        }
    }
}

impl<'k, K: Eq> KeyMatcher<K> for Same<'k, K> {
    ghost accepts = { λ m key. K.eq m.key.now key };

    ghost asked = { λ m. m.asked };

    ghost MayAsk = { λ _ _. ⊤ };

    ghost IsKept = { λ m n. n.key ≡ m.key };

    ghost accepts_kept = { λ m n key e. ap (λ k. K.eq k.now key) e };

    ghost kept_refl = { λ m. refl };

    ghost kept_trans = { λ m n o p q. q ∙ p };

    fn matches(&mut self, key: &K) -> bool {
        self.asked.tick();
        *self.key == *key
    }
}

/// Returns the item whose first key is that of the matcher, found by the hash that the map's own builder makes of it.
/// The matcher is asked at most as often as there are items with this hash. The search probes at most one cell more
/// than there are items.
pub fn find_same<'m, T: BiHashItem, S: BuildHasher>(
    map: &'m BiHashMap<T, S>,
    matcher: &mut Same<'_, T::K1>,
    meter: &mut Meter,
) -> Option<&'m T>
    ensures found { IsOnly (has1 T.BiHashItem T.K1.eq matcher.old.key.now) (bag map.now) (option_copied result) }
    ensures same_key { matcher.new.key ≡ matcher.old.key }
    ensures asked { matcher.new.asked ≤ matcher.old.asked
        + crowd (⟦<T as Hashed<S>>⟧.hash1 map.now.builder) (bag map.now)
        (hash_of S.BuildHasher S.Hasher.Hasher map.now.builder (T.K1.hash_input matcher.old.key.now)) }
    ensures probes { meter.new ≤ meter.old + length (bag map.now) + 1 }
{
    let hash = map.hasher().hash_one(matcher.key);
    map.find1_with(hash, matcher, meter)
}
