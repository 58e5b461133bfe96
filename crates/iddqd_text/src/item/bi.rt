//! The items of the kind `bi`.
ghost use Rattle.std.specs.Prelude.{Some};
ghost use Rattle.iddqd_text.specs.Printed.{printed};
ghost use Rattle.iddqd_text.specs.TwoKeys.{numbers};

use super::Numbers;
use iddqd_bi::{BiHashItem, BiHashItemMut};
use std::fmt;

/// An item with two keys, as a line of the program spells it.
#[derive(Clone, Copy, Debug, PartialEq, Eq, Drop)]
pub struct BiItem {
    pub key1: u64,
    pub key2: u64,
    pub value: u64,
}

impl BiHashItem for BiItem {
    type K1 = u64;

    type K2 = u64;

    ghost key1 = { λ item. item.key1 };

    ghost key2 = { λ item. item.key2 };

    fn key1(&self) -> &u64 {
        &self.key1
    }

    fn key2(&self) -> &u64 {
        &self.key2
    }
}

impl BiHashItemMut for BiItem {
    type Data = u64;

    ghost use Rattle.std.specs.Prelude.{refl};
    ghost use Rattle.std.specs.Cmp.{nat_eq_equiv};

    ghost data_of = { λ item. item.value };

    ghost put = { λ item value. record item { value = value } };

    ghost keeps_key1 = { λ item value. nat_eq_equiv.refl item.key1 };

    ghost keeps_key2 = { λ item value. nat_eq_equiv.refl item.key2 };

    ghost put_shows = { λ item value. refl };

    fn data_mut(&mut self) -> &mut u64 {
        &mut self.value
    }
}

impl Numbers for BiItem {
    ghost use Rattle.std.specs.Prelude.{refl};

    ghost numbers = { numbers };

    ghost shows = { λ item. refl };

    fn first_key(&self) -> u64 {
        self.key1
    }
}

/// Prints the numbers in brackets, with a space between each two.
impl fmt::Display for BiItem {
    ghost output = { λ item. Some (printed (numbers item)) };

    #[tactic(auto, unfolding(crate::specs::Printed::printed))]
    fn fmt<W: fmt::Write>(&self, f: &mut fmt::Formatter<W>) -> fmt::Result {
        let key1 = self.key1;
        let key2 = self.key2;
        let value = self.value;
        write!(f, "({key1} {key2} {value})")
    }
}
