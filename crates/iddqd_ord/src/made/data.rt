//! Data of items that make or lend their key, written in place.
ghost use Rattle.std.specs.Prelude.{◌≡◌};
ghost use Rattle.std.specs.declared.cmp.Ordering.TheVariants.{Equal};

use crate::item::IdOrdItemMut;
use crate::made::{KeyOrder, WithKeys};
use iddqd_store::{ByMade, ByPair, HasData, KeepsMade, KeepsPair};

/// A value with data that is known by a key with an order, whatever this data is: `ByMade` and `ByPair`.
pub trait KeepsOrder: KeyOrder + HasData {
    // With other data put in, the key is equal to the old one. A proof may use that each key is equal to itself.
    ghost keeps_order: { (x : Self) (d : Self.Data) → ((y : Self) → Self.key_cmp y y ≡ Equal)
        → Self.key_cmp (Self.put x d) x ≡ Equal };
}

impl<T: KeepsMade<RANK>, const RANK: usize> KeepsOrder for ByMade<T, RANK>
where
    T::Made: Ord,
{
    ghost keeps_order = { λ x d same. rw (T.keeps_made x d) (same x) };
}

impl<T: KeepsPair<A, B, RANK>, A: Ord, B: Ord, const RANK: usize> KeepsOrder
    for ByPair<T, A, B, RANK> {
    ghost keeps_order = { λ x d same. rw (T.keeps_pair x d) (same x) };
}

impl<K: KeepsOrder> IdOrdItemMut for WithKeys<K> {
    type Data = K::Data;

    ghost data_of = { λ x. K.data_of x };

    ghost put = { λ x d. K.put x d };

    ghost keeps_key = { λ x d same. K.keeps_order x d same };

    ghost put_shows = { λ x d. K.put_shows x d };

    fn data_mut(&mut self) -> &mut K::Data {
        self.key.value.data_mut()
    }
}
