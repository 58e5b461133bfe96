//! Items with three keys, which are numbers.
//!
//! Made by tests/widths from crates/test_bi/src/row.rt: change that file.
ghost use Rattle.std.proofs.Common.{rules};
ghost use Rattle.test_tri.specs.Row.{with_value};

use iddqd_tri::{TriHashItem, TriHashItemMut};

/// Three keys and a value, laid out as in C, so that a program in another language can share it (`bench/run`).
#[repr(C)]
#[derive(Clone, Copy, Debug, PartialEq, Eq)]
pub struct Row {
    pub key1: u64,
    pub key2: u64,
    pub key3: u64,
    pub value: u64,
}

impl TriHashItem for Row {
    type K1 = u64;

    type K2 = u64;

    type K3 = u64;

    ghost key1 = { λ x. x.key1 };

    ghost key2 = { λ x. x.key2 };

    ghost key3 = { λ x. x.key3 };

    fn key1(&self) -> &u64 {
        &self.key1
    }

    fn key2(&self) -> &u64 {
        &self.key2
    }

    fn key3(&self) -> &u64 {
        &self.key3
    }
}

impl TriHashItemMut for Row {
    type Data = u64;

    ghost data_of = { λ x. x.value };

    ghost put = { with_value };

    ghost keeps_key1 = { Prim.search rules };

    ghost keeps_key2 = { Prim.search rules };

    ghost keeps_key3 = { Prim.search rules };

    ghost put_shows = { Prim.search rules };

    fn data_mut(&mut self) -> &mut u64 {
        &mut self.value
    }
}

/// Makes a row of these numbers.
pub fn row_of(key1: u64, key2: u64, key3: u64, value: u64) -> Row {
    Row {
        key1,
        key2,
        key3,
        value,
    }
}
