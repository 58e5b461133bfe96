//! A borrowed slice is a query for a `Vec` or a boxed slice with equal elements.
ghost use Rattle.std.specs.Prelude.{nat_eq, string_bytes};
ghost use Rattle.std.specs.Box.{boxed_slice_items};
ghost use Rattle.std.specs.Cmp.Lexicographic.{pointwise, lists_equiv};
ghost use Rattle.std.specs.Cmp.Rules.{comparing, hashing};
ghost use Rattle.std.specs.Hash as fed;
ghost use Rattle.std.specs.Hash.{items_Alike};
ghost use Rattle.std.proofs.Common.{rules};
ghost use Rattle.iddqd_store.specs.Queries.{list_fed, list_agrees};

use super::Query;
use std::alloc::Allocator;
use std::boxed::BoxedSlice;
use std::hash::Hash;

impl<T: Eq + Hash, A: Allocator> Query<Vec<T, A>> for &[T] {
    ghost stands_for = { λ q k. pointwise T.eq q.now k.items };

    ghost respects_hash = { λ q k. (items_Alike (record { fed = T.respects_eq })).fed q.now k.items };

    ghost respects_eq = { λ q x y. (lists_equiv T.Eq.laws).congr q.now x.items y.items };

    fn stands_for(&self, key: &Vec<T, A>) -> bool {
        *self == key.as_slice()
    }
}

impl<T: Eq + Hash, A: Allocator> Query<BoxedSlice<T, A>> for &[T] {
    ghost stands_for = { λ q k. pointwise T.eq q.now (boxed_slice_items k) };

    ghost respects_hash = { λ q k. (items_Alike (record { fed = T.respects_eq })).fed q.now (boxed_slice_items k) };

    ghost respects_eq = { λ q x y. (lists_equiv T.Eq.laws).congr q.now (boxed_slice_items x) (boxed_slice_items y) };

    fn stands_for(&self, key: &BoxedSlice<T, A>) -> bool {
        *self == key.as_slice()
    }
}

/// `get(tags)`, where the key is a `Vec<String>`, and `tags` is a `&[&str]`.
impl<A: Allocator, B: Allocator> Query<Vec<String<A>, B>> for &[&str] {
    ghost stands_for = { λ q k. pointwise (λ t s. pointwise nat_eq t.now (string_bytes s)) q.now k.items };

    ghost respects_hash = { λ q k. list_fed {F = λ t. fed.str t.now} {G = λ s. fed.str (string_bytes s)}
        (Prim.search (hashing, rules)) q.now k.items };

    ghost respects_eq = { λ q x y. list_agrees (Prim.search (comparing, rules)) q.now x.items y.items };

    fn stands_for(&self, key: &Vec<String<A>, B>) -> bool {
        let (mut texts, mut parts) = (self.iter(), key.iter());
        while let Some(text) = texts.next() {
            let Some(part) = parts.next() else {
                return false;
            };
            if *text != part.as_str() {
                return false;
            }
        }
        parts.next().is_none()
    }
}
