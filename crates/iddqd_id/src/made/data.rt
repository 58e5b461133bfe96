//! Data of items that make or lend their key, written in place.
//!
//! Written by hand; tests/one_key.patch says why.

use crate::item::IdHashItemMut;
use crate::made::WithKeys;
use iddqd_store::{HasData, KeepsKey};
use std::hash::Hash;

impl<K: KeepsKey + Hash> IdHashItemMut for WithKeys<K>
where
    K::Held: HasData<Data = K::Data>,
{
    type Data = K::Data;

    ghost data_of = { λ x. K.data_of x };

    ghost put = { λ x d. K.put x d };

    ghost keeps_key = { λ x d. K.keeps_key x d };

    ghost put_shows = { λ x d. K.put_shows x d };

    fn data_mut(&mut self) -> &mut K::Data {
        self.key.data_mut()
    }
}
