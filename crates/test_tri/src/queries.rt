//! A query of a caller's own, for keys that are texts.
ghost use Rattle.std.specs.Prelude.{◌≡◌, nat_eq};
ghost use Rattle.std.proofs.Common.{rules};
ghost use Rattle.std.specs.Cmp.Rules.{comparing, hashing};
ghost use Rattle.std.specs.Cmp.Lexicographic.{pointwise};

use iddqd_tri::{Equivalent, TriHashItem, TriHashMap};
use std::hash::{Hash, Hasher};
use std::test::*;

/// An item with a text as its third key.
#[derive(Drop)]
struct Word {
    first: u64,
    second: u64,
    text: &'static str,
}

impl TriHashItem for Word {
    type K1 = u64;

    type K2 = u64;

    type K3 = &'static str;

    ghost key1 = { λ x. x.first };

    ghost key2 = { λ x. x.second };

    ghost key3 = { λ x. x.text };

    fn key1(&self) -> &u64 {
        &self.first
    }

    fn key2(&self) -> &u64 {
        &self.second
    }

    fn key3(&self) -> &&'static str {
        &self.text
    }
}

/// A text, as a query that stands for the keys that are equal to it.
#[derive(PartialEq, Eq, Hash, Drop)]
struct Text<'a> {
    text: &'a str,
}

impl<'a> Equivalent<&'static str> for Text<'a> {
    ghost equivalent = { λ q k. pointwise nat_eq q.text.now k.now };

    ghost respects_hash = { Prim.search (hashing, rules) };

    ghost respects_eq = { Prim.search (comparing, rules) };

    fn equivalent(&self, key: &&'static str) -> bool {
        self.text == *key
    }
}

/// A text, and the first key of the item that has it as its third.
const NUMBERS: [(&str, Option<u64>); 4] = [
    ("cd", Some(2)),
    ("ab", Some(1)),
    ("c", None),
    ("", None),
];

/// Returns the first key of the item with this text.
fn number_of(map: &TriHashMap<Word>, text: &str) -> Option<u64> {
    match map.get3(&Text { text }) {
        Some(word) => Some(word.first),
        None => None,
    }
}

/// Returns whether each text of `NUMBERS` that should be found in the map is found, and no other is.
fn are_found(map: &TriHashMap<Word>) -> bool {
    for (text, wanted) in &NUMBERS {
        if number_of(map, text) != *wanted {
            return false;
        }
    }
    true
}

#[test]
fn a_text_is_found_by_a_query(rt: HostRuntime) {
    let mut map = TriHashMap::new(rt.alloc());
    for (text, first, second) in [("ab", 1, 3), ("cd", 2, 4)] {
        let _ = map.insert_overwrite(Word {
            first,
            second,
            text,
        });
    }
    assert!(rt; are_found(&map));
    drop(map);
}
