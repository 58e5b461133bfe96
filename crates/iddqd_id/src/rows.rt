//! The ready item of one key and a value.
//!
//! Made by tests/widths from crates/iddqd_bi/src/rows.rt: change that file.
ghost use Rattle.std.proofs.Common.{rules};

use crate::item::{IdHashItem, IdHashItemMut};
use iddqd_store::Row1;
use std::hash::Hash;

impl<Key: Eq + Hash, D> IdHashItem for Row1<Key, D> {
    type Key = Key;

    ghost key = { λ r. r.key };

    fn key(&self) -> &Key {
        &self.key
    }
}

impl<Key: Eq + Hash, D> IdHashItemMut for Row1<Key, D> {
    type Data = D;

    ghost data_of = { λ r. r.value };

    ghost put = { λ r d. record r { value = d } };

    ghost keeps_key = { Prim.search rules };

    ghost put_shows = { Prim.search rules };

    fn data_mut(&mut self) -> &mut D {
        &mut self.value
    }
}
