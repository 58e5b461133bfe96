//! A query type of one's own: a borrowed text asks for a key that is a type around a `String`.
ghost use Rattle.std.specs.Prelude.{nat_eq, string_bytes, option_copied};
ghost use Rattle.std.specs.Cmp.Lexicographic.{pointwise};
ghost use Rattle.std.specs.Cmp.Rules.{comparing, hashing};
ghost use Rattle.std.proofs.Common.{rules};
ghost use Rattle.iddqd_id.specs.Bag.{IsOnly};
ghost use Rattle.iddqd_id.specs.Map.{bag};

use iddqd_id::{Equivalent, IdHashItem, IdHashMap};
use std::hash::{Hash, Hasher};

/// The name of a module, as its items own it.
#[derive(PartialEq, Eq, Hash, Drop)]
pub struct Name {
    pub text: String,
}

/// The name of a module, as a caller has it, who borrows the text.
#[derive(Clone, Copy, PartialEq, Eq, Hash)]
pub struct Lent<'a> {
    pub text: &'a str,
}

impl<'a> Equivalent<Name> for Lent<'a> {
    ghost equivalent = { λ q name. pointwise nat_eq q.text.now (string_bytes name.text) };

    ghost respects_hash = { Prim.search (hashing, rules) };

    ghost respects_eq = { Prim.search (comparing, rules) };

    fn equivalent(&self, key: &Name) -> bool {
        self.text == key.text.as_str()
    }
}

/// A module, known by its name, with its number.
#[derive(Drop)]
pub struct Module {
    pub name: Name,
    pub number: u32,
}

impl IdHashItem for Module {
    type Key = Name;

    ghost key = { λ m. m.name };

    fn key(&self) -> &Name {
        &self.name
    }
}

/// Returns the module with this name, if there is one. No `Name` is made for the search.
pub fn named<'m>(modules: &'m IdHashMap<Module>, name: &str) -> Option<&'m Module>
    ensures { IsOnly (λ m. pointwise nat_eq name.now (string_bytes m.name.text)) (bag modules.now) (option_copied result) }
{
    modules.get(&Lent { text: name })
}
