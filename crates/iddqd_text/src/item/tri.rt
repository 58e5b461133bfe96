//! The items of the kind `tri`.
//!
//! Made by tests/widths from crates/iddqd_text/src/item/bi.rt: change that file.
ghost use Rattle.std.specs.Prelude.{Some};
ghost use Rattle.iddqd_text.specs.Printed.{printed};
ghost use Rattle.iddqd_text.specs.ThreeKeys.{numbers};

use super::Numbers;
use iddqd_tri::{TriHashItem, TriHashItemMut};
use std::fmt;

/// An item with three keys, as a line of the program spells it.
#[derive(Clone, Copy, Debug, PartialEq, Eq, Drop)]
pub struct TriItem {
    pub key1: u64,
    pub key2: u64,
    pub key3: u64,
    pub value: u64,
}

impl TriHashItem for TriItem {
    type K1 = u64;

    type K2 = u64;

    type K3 = u64;

    ghost key1 = { λ item. item.key1 };

    ghost key2 = { λ item. item.key2 };

    ghost key3 = { λ item. item.key3 };

    fn key1(&self) -> &u64 {
        &self.key1
    }

    fn key2(&self) -> &u64 {
        &self.key2
    }

    fn key3(&self) -> &u64 {
        &self.key3
    }
}

impl TriHashItemMut for TriItem {
    type Data = u64;

    ghost use Rattle.std.specs.Prelude.{refl};
    ghost use Rattle.std.specs.Cmp.{nat_eq_equiv};

    ghost data_of = { λ item. item.value };

    ghost put = { λ item value. record item { value = value } };

    ghost keeps_key1 = { λ item value. nat_eq_equiv.refl item.key1 };

    ghost keeps_key2 = { λ item value. nat_eq_equiv.refl item.key2 };

    ghost keeps_key3 = { λ item value. nat_eq_equiv.refl item.key3 };

    ghost put_shows = { λ item value. refl };

    fn data_mut(&mut self) -> &mut u64 {
        &mut self.value
    }
}

impl Numbers for TriItem {
    ghost use Rattle.std.specs.Prelude.{refl};

    ghost numbers = { numbers };

    ghost shows = { λ item. refl };

    fn first_key(&self) -> u64 {
        self.key1
    }
}

/// Prints the numbers in brackets, with a space between each two.
impl fmt::Display for TriItem {
    ghost output = { λ item. Some (printed (numbers item)) };

    #[tactic(auto, unfolding(crate::specs::Printed::printed))]
    fn fmt<W: fmt::Write>(&self, f: &mut fmt::Formatter<W>) -> fmt::Result {
        let key1 = self.key1;
        let key2 = self.key2;
        let key3 = self.key3;
        let value = self.value;
        write!(f, "({key1} {key2} {key3} {value})")
    }
}
