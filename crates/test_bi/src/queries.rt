//! A query of a caller's own, for keys that are texts.
ghost use Rattle.std.specs.Prelude.{◌≡◌, nat_eq};
ghost use Rattle.std.proofs.Common.{rules};
ghost use Rattle.std.specs.Cmp.Rules.{comparing, hashing};
ghost use Rattle.std.specs.Cmp.Lexicographic.{pointwise};

use crate::texts::{Keyed, number_of};
use iddqd_bi::BiHashMap;
use iddqd_store::Equivalent;
use std::hash::{Hash, Hasher};
use std::test::*;

/// A text, as a query that stands for the keys that are equal to it.
#[derive(PartialEq, Eq, Hash, Drop)]
struct Text<'a> {
    text: &'a str,
}

impl<'a> Equivalent<&'static str> for Text<'a> {
    ghost equivalent = { λ q k. pointwise nat_eq q.text.now k.now };

    ghost respects_hash = { Prim.search (hashing, rules) };

    ghost respects_eq = { Prim.search (comparing, rules) };

    fn equivalent(&self, key: &&'static str) -> bool {
        self.text == *key
    }
}

/// A text, and the number of the item that has it as its first key.
const NUMBERS: [(&str, Option<u64>); 4] = [
    ("cd", Some(2)),
    ("ab", Some(1)),
    ("c", None),
    ("", None),
];

/// Returns the number of the item with this text, looked up by the query of this file.
fn number_asked(map: &BiHashMap<Keyed<&'static str, u64>>, text: &str) -> Option<u64> {
    number_of!(map.get1(&Text { text }))
}

/// Returns the number of the item with this text, looked up by the store's query for a `&str`.
fn number_lent(map: &BiHashMap<Keyed<&'static str, u64>>, text: &str) -> Option<u64> {
    number_of!(map.get1(text))
}

/// Returns whether each text of `NUMBERS`, and no other, is found in the map, by both queries.
fn are_found(map: &BiHashMap<Keyed<&'static str, u64>>) -> bool {
    for (text, wanted) in &NUMBERS {
        if number_asked(map, text) != *wanted || number_lent(map, text) != *wanted {
            return false;
        }
    }
    true
}

#[test]
fn a_text_is_found_by_a_query(rt: HostRuntime) {
    let mut map = BiHashMap::new(rt.alloc());
    for (first, number) in [("ab", 1), ("cd", 2)] {
        let _ = map.insert_overwrite(Keyed {
            first,
            second: number,
            number,
        });
    }
    assert!(rt; are_found(&map));
    drop(map);
}
