//! A borrowed text is a query for a text with the same bytes, borrowed or owned.
ghost use Rattle.std.specs.Prelude.{nat_eq, string_bytes};
ghost use Rattle.std.specs.Arc.{arc_str_bytes};
ghost use Rattle.std.specs.Box.{boxed_str_bytes};
ghost use Rattle.std.specs.Cow.{cow_str_bytes};
ghost use Rattle.std.specs.Rc.{rc_str_bytes};
ghost use Rattle.std.specs.Cmp.Lexicographic.{pointwise};
ghost use Rattle.std.specs.Cmp.Rules.{comparing, hashing};
ghost use Rattle.std.proofs.Common.{rules};

use super::Query;
use std::alloc::Allocator;
use std::borrow::CowStr;
use std::boxed::BoxedStr;
use std::rc::RcStr;
use std::sync::ArcStr;

impl<'b> Query<&'b str> for &str {
    ghost stands_for = { λ q k. pointwise nat_eq q.now k.now };

    ghost respects_hash = { Prim.search (hashing, rules) };

    ghost respects_eq = { Prim.search (comparing, rules) };

    fn stands_for(&self, key: &&'b str) -> bool {
        *self == *key
    }
}

impl<A: Allocator> Query<String<A>> for &str {
    ghost stands_for = { λ q k. pointwise nat_eq q.now (string_bytes k) };

    ghost respects_hash = { Prim.search (hashing, rules) };

    ghost respects_eq = { Prim.search (comparing, rules) };

    fn stands_for(&self, key: &String<A>) -> bool {
        *self == key.as_str()
    }
}

impl<A: Allocator> Query<BoxedStr<A>> for &str {
    ghost stands_for = { λ q k. pointwise nat_eq q.now (boxed_str_bytes k) };

    ghost respects_hash = { Prim.search (hashing, rules) };

    ghost respects_eq = { Prim.search (comparing, rules) };

    fn stands_for(&self, key: &BoxedStr<A>) -> bool {
        *self == key.as_str()
    }
}

impl<A: Allocator> Query<RcStr<A>> for &str {
    ghost stands_for = { λ q k. pointwise nat_eq q.now (rc_str_bytes k) };

    ghost respects_hash = { Prim.search (hashing, rules) };

    ghost respects_eq = { Prim.search (comparing, rules) };

    fn stands_for(&self, key: &RcStr<A>) -> bool {
        *self == key.as_str()
    }
}

/// Texts that are shared by threads: `get("main")`, where the key is an `ArcStr`.
impl<A: Allocator> Query<ArcStr<A>> for &str {
    ghost stands_for = { λ q k. pointwise nat_eq q.now (arc_str_bytes k) };

    ghost respects_hash = { Prim.search (hashing, rules) };

    ghost respects_eq = { Prim.search (comparing, rules) };

    fn stands_for(&self, key: &ArcStr<A>) -> bool {
        *self == key.as_str()
    }
}

/// Texts that are borrowed or owned: `get("main")`, where the key is a `CowStr`.
impl<'b, A: Allocator> Query<CowStr<'b, A>> for &str {
    ghost stands_for = { λ q k. pointwise nat_eq q.now (cow_str_bytes k) };

    ghost respects_hash = { Prim.search (hashing, rules) };

    ghost respects_eq = { Prim.search (comparing, rules) };

    fn stands_for(&self, key: &CowStr<'b, A>) -> bool {
        *self == key.as_str()
    }
}
