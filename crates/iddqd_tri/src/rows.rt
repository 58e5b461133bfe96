//! The ready item of three keys and a value.
//!
//! Made by tests/widths from crates/iddqd_bi/src/rows.rt: change that file.
ghost use Rattle.std.proofs.Common.{rules};

use crate::item::{TriHashItem, TriHashItemMut};
use iddqd_store::Row3;
use std::hash::Hash;

impl<K1: Eq + Hash, K2: Eq + Hash, K3: Eq + Hash, D> TriHashItem for Row3<K1, K2, K3, D> {
    type K1 = K1;

    type K2 = K2;

    type K3 = K3;

    ghost key1 = { λ r. r.key1 };

    ghost key2 = { λ r. r.key2 };

    ghost key3 = { λ r. r.key3 };

    fn key1(&self) -> &K1 {
        &self.key1
    }

    fn key2(&self) -> &K2 {
        &self.key2
    }

    fn key3(&self) -> &K3 {
        &self.key3
    }
}

impl<K1: Eq + Hash, K2: Eq + Hash, K3: Eq + Hash, D> TriHashItemMut for Row3<K1, K2, K3, D> {
    type Data = D;

    ghost data_of = { λ r. r.value };

    ghost put = { λ r d. record r { value = d } };

    ghost keeps_key1 = { Prim.search rules };

    ghost keeps_key2 = { Prim.search rules };

    ghost keeps_key3 = { Prim.search rules };

    ghost put_shows = { Prim.search rules };

    fn data_mut(&mut self) -> &mut D {
        &mut self.value
    }
}
