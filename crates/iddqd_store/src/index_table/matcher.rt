//! What a search by hash asks: of a slot, and of a key.
ghost use Rattle.std.specs.Prelude.{◌≡◌, ◌≢◌, ◌+◌, ◌≤◌, ℕ, Bool};

use crate::item_set::ItemIndex;

/// What a search by hash asks of each slot under this hash: whether the slot has the item that is sought.
///
/// The answer for a slot is fixed, whatever was asked before. A question about a slot promises only that the other slots may
/// still be asked about. So a search asks about each slot at most once, whatever matcher it is given.
pub trait Matcher {
    // The result of `matches`.
    ghost accepts: { Self → ℕ → Bool };

    // How many questions about a slot were passed on as questions about a key.
    ghost asked: { Self → ℕ };

    // Which slots it may still be asked about.
    ghost MayAsk: { Self → ℕ → Type 0 };

    // Relates a matcher before a call to the same one after it. Related matchers accept the same slots.
    ghost IsKept: { Self → Self → Type 0 };

    /// Returns whether the item in this slot is the one that is sought.
    fn matches(&mut self, slot: ItemIndex) -> bool
        requires { MayAsk self.old slot }
        ensures value { result ≡ accepts self.old slot }
        ensures is_kept { IsKept self.old self.new }
        ensures others { (other : ℕ) → other ≢ slot → MayAsk self.old other → MayAsk self.new other }
        ensures asked { asked self.new ≤ asked self.old + 1 };

    ghost accepts_kept: { (m n : Self) (slot : ℕ) → IsKept m n → accepts n slot ≡ accepts m slot };

    // A matcher that was not called is related to itself, and a relation over one call goes on over the next.
    ghost kept_refl: { (m : Self) → IsKept m m };

    ghost kept_trans: { (m n o : Self) → IsKept m n → IsKept n o → IsKept m o };
}

/// What a search by hash asks of each key with this hash: whether it is the one that is sought. `find1_with`,
/// `find2_with` and `find3_with` take a matcher, and call it for no other keys. A question about a key promises only that
/// the other keys may still be asked about. So a search asks about each key at most once.
pub trait KeyMatcher<K> {
    // The result of `matches`.
    ghost accepts: { Self → K → Bool };

    // How many keys were asked about.
    ghost asked: { Self → ℕ };

    // Which keys it may still be asked about.
    ghost MayAsk: { Self → K → Type 0 };

    // Relates a matcher before a call to the same one after it. Related matchers accept the same keys.
    ghost IsKept: { Self → Self → Type 0 };

    /// Returns whether this key is the one that is sought.
    fn matches(&mut self, key: &K) -> bool
        requires { MayAsk self.old key.now }
        ensures value { result ≡ accepts self.old key.now }
        ensures is_kept { IsKept self.old self.new }
        ensures others { (other : K) → other ≢ key.now → MayAsk self.old other → MayAsk self.new other }
        ensures asked { asked self.new ≡ asked self.old + 1 };

    ghost accepts_kept: { (m n : Self) (key : K) → IsKept m n → accepts n key ≡ accepts m key };

    // A matcher that was not called is related to itself, and a relation over one call goes on over the next.
    ghost kept_refl: { (m : Self) → IsKept m m };

    ghost kept_trans: { (m n o : Self) → IsKept m n → IsKept n o → IsKept m o };
}
