//! The ready item of a key and a value.
ghost use Rattle.std.proofs.Common.{rules};

use crate::item::{IdOrdItem, IdOrdItemMut};
use iddqd_store::Row1;

impl<K: Ord, D> IdOrdItem for Row1<K, D> {
    type Key = K;

    ghost key = { λ r. r.key };

    fn key(&self) -> &K {
        &self.key
    }
}

impl<K: Ord, D> IdOrdItemMut for Row1<K, D> {
    type Data = D;

    ghost data_of = { λ r. r.value };

    ghost put = { λ r d. record r { value = d } };

    ghost keeps_key = { Prim.search rules };

    ghost put_shows = { Prim.search rules };

    fn data_mut(&mut self) -> &mut D {
        &mut self.value
    }
}
