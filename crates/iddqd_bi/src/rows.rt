//! The ready item of two keys and a value.
ghost use Rattle.std.proofs.Common.{rules};

use crate::item::{BiHashItem, BiHashItemMut};
use iddqd_store::Row2;
use std::hash::Hash;

impl<K1: Eq + Hash, K2: Eq + Hash, D> BiHashItem for Row2<K1, K2, D> {
    type K1 = K1;

    type K2 = K2;

    ghost key1 = { λ r. r.key1 };

    ghost key2 = { λ r. r.key2 };

    fn key1(&self) -> &K1 {
        &self.key1
    }

    fn key2(&self) -> &K2 {
        &self.key2
    }
}

impl<K1: Eq + Hash, K2: Eq + Hash, D> BiHashItemMut for Row2<K1, K2, D> {
    type Data = D;

    ghost data_of = { λ r. r.value };

    ghost put = { λ r d. record r { value = d } };

    ghost keeps_key1 = { Prim.search rules };

    ghost keeps_key2 = { Prim.search rules };

    ghost put_shows = { Prim.search rules };

    fn data_mut(&mut self) -> &mut D {
        &mut self.value
    }
}
