//! Data of items that make or lend their keys, written in place.
//!
//! Written by hand; tests/three_keys.patch says why.

use crate::item::TriHashItemMut;
use crate::made::WithKeys;
use iddqd_store::{HasData, Holds, KeepsKey};
use std::hash::Hash;

impl<K: KeepsKey + Hash> TriHashItemMut for WithKeys<K>
where
    K::Held: KeepsKey + HasData<Data = K::Data> + Hash,
    <K::Held as Holds>::Held: KeepsKey + HasData<Data = K::Data> + Hash,
    <<K::Held as Holds>::Held as Holds>::Held: HasData<Data = K::Data>,
{
    type Data = K::Data;

    ghost data_of = { λ x. K.data_of x };

    ghost put = { λ x d. K.put x d };

    ghost keeps_key1 = { λ x d. K.keeps_key x d };

    ghost keeps_key2 = { λ x d. rw (K.held_put x d) (K.Held.keeps_key (K.held x) d) };

    ghost keeps_key3 = { λ x d. rw (K.held_put x d, K.Held.held_put (K.held x) d)
        (K.Held.Held.keeps_key (K.Held.held (K.held x)) d) };

    ghost put_shows = { λ x d. K.put_shows x d };

    fn data_mut(&mut self) -> &mut K::Data {
        self.key.data_mut()
    }
}
