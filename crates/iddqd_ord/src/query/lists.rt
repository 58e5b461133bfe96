//! A borrowed slice is a query for a `Vec` or a boxed slice with equal elements.
ghost use Rattle.std.specs.Prelude.{◌≡◌, string_bytes};
ghost use Rattle.std.specs.Box.{boxed_slice_items};
ghost use Rattle.std.specs.Ordering.{nat_cmp};
ghost use Rattle.std.specs.Cmp.Lexicographic.{slice_cmp, lists_total};
ghost use Rattle.iddqd_ord.specs.Ordered.{IsRising-key, IsRising-bytes};
ghost use Rattle.iddqd_ord.specs.Queries.{list_side, IsRising-list, IsRising-part};

use super::OrdQuery;
use std::alloc::Allocator;
use std::boxed::BoxedSlice;
use std::cmp::Ordering;

/// Compares two slices, both at one lifetime.
fn order<'a, T: Ord>(key: &'a [T], sought: &'a [T]) -> Ordering
    ensures { result ≡ slice_cmp T.cmp key.now sought.now }
{
    key.cmp(&sought)
}

impl<T: Ord, A: Allocator> OrdQuery<Vec<T, A>> for &[T] {
    ghost compare = { λ q k. slice_cmp T.cmp k.items q.now };

    fn compare(&self, key: &Vec<T, A>) -> Ordering {
        order(key.as_slice(), *self)
    }

    ghost rises = { λ q. IsRising-part (λ k. k.items) (IsRising-key (lists_total T.total) (λ k. k) q.now) };
}

impl<T: Ord, A: Allocator> OrdQuery<BoxedSlice<T, A>> for &[T] {
    ghost compare = { λ q k. slice_cmp T.cmp (boxed_slice_items k) q.now };

    fn compare(&self, key: &BoxedSlice<T, A>) -> Ordering {
        order(key.as_slice(), *self)
    }

    ghost rises = { λ q. IsRising-part boxed_slice_items (IsRising-key (lists_total T.total) (λ k. k) q.now) };
}

/// `get(path)`, where the key is a `Vec<String>`, and `path` is a `&[&str]`.
impl<A: Allocator, B: Allocator> OrdQuery<Vec<String<A>, B>> for &[&str] {
    ghost compare = { λ q k. list_side (λ t s. slice_cmp nat_cmp (string_bytes s) t.now) q.now k.items };

    fn compare(&self, key: &Vec<String<A>, B>) -> Ordering {
        let (mut texts, mut parts) = (self.iter(), key.iter());
        while let Some(part) = parts.next() {
            let Some(text) = texts.next() else {
                return Ordering::Greater;
            };
            match part.as_str().cmp(*text) {
                Ordering::Equal => {}
                side => return side,
            }
        }
        if texts.next().is_some() {
            Ordering::Less
        } else {
            Ordering::Equal
        }
    }

    ghost rises = { λ q. IsRising-part (λ k. k.items) (IsRising-list (λ t. IsRising-bytes string_bytes t.now) q.now) };
}
