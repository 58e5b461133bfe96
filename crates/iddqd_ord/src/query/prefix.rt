//! A query for all keys that begin alike.
ghost use Rattle.std.specs.Prelude.{◌≡◌, nat_eq, string_bytes};
ghost use Rattle.std.specs.Arc.{arc_str_bytes};
ghost use Rattle.std.specs.Box.{boxed_str_bytes, boxed_slice_items};
ghost use Rattle.std.specs.Cow.{cow_str_bytes};
ghost use Rattle.std.specs.Rc.{rc_str_bytes};
ghost use Rattle.std.specs.Ordering.{nat_cmp};
ghost use Rattle.std.specs.List.{starts_with};
ghost use Rattle.std.specs.Cmp.{nat_cmp_total, unsigned_ties};
ghost use Rattle.iddqd_ord.specs.Queries.{prefix_side, prefix_meets, IsSeeking-prefix, IsSeeking-part};

use super::OrdSeek;
use crate::headed::HeadedString;
use std::alloc::Allocator;
use std::borrow::CowStr;
use std::boxed::{BoxedSlice, BoxedStr};
use std::cmp::Ordering;
use std::rc::RcStr;
use std::sync::ArcStr;

/// Seeks all keys that begin with a text, or with a slice: `map.matching(Prefix("com."))`. In a range such keys stand side
/// by side: `map.range(..Prefix("com."))` has the items before them, and `map.range(Prefix("com.")..)` them and what follows.
///
/// A comparison reads as many bytes or elements as the prefix has, at most.
#[derive(Clone, Copy)]
pub struct Prefix<Q>(pub Q);

/// Compares the first elements of a key, as many as the prefix has, with the prefix.
fn compare_first<'a, T: Ord>(key: &'a [T], prefix: &'a [T]) -> Ordering
    ensures { result ≡ prefix_side T.cmp prefix.now key.now }
{
    let first = if key.len() > prefix.len() {
        &key[..prefix.len()]
    } else {
        key
    };
    first.cmp(&prefix)
}

impl<'b> OrdSeek<&'b str> for Prefix<&str> {
    ghost side = { λ q k. prefix_side nat_cmp q.0.now k.now };

    ghost meets = { λ q k. starts_with nat_eq k.now q.0.now };

    fn compare_key(&self, key: &&'b str) -> Ordering {
        compare_first(key.as_bytes(), self.0.as_bytes())
    }

    ghost seeks = { λ q. IsSeeking-part (λ k. k.now) (IsSeeking-prefix nat_cmp_total q.0.now) };

    ghost meets_equal = { λ q k. prefix_meets nat_cmp_total unsigned_ties q.0.now k.now };
}

impl<A: Allocator> OrdSeek<String<A>> for Prefix<&str> {
    ghost side = { λ q k. prefix_side nat_cmp q.0.now (string_bytes k) };

    ghost meets = { λ q k. starts_with nat_eq (string_bytes k) q.0.now };

    fn compare_key(&self, key: &String<A>) -> Ordering {
        compare_first(key.as_bytes(), self.0.as_bytes())
    }

    ghost seeks = { λ q. IsSeeking-part string_bytes (IsSeeking-prefix nat_cmp_total q.0.now) };

    ghost meets_equal = { λ q k. prefix_meets nat_cmp_total unsigned_ties q.0.now (string_bytes k) };
}

impl OrdSeek<HeadedString> for Prefix<&str> {
    ghost side = { λ q k. prefix_side nat_cmp q.0.now (string_bytes k) };

    ghost meets = { λ q k. starts_with nat_eq (string_bytes k) q.0.now };

    fn compare_key(&self, key: &HeadedString) -> Ordering {
        compare_first(key.as_str().as_bytes(), self.0.as_bytes())
    }

    ghost seeks = { λ q. IsSeeking-part string_bytes (IsSeeking-prefix nat_cmp_total q.0.now) };

    ghost meets_equal = { λ q k. prefix_meets nat_cmp_total unsigned_ties q.0.now (string_bytes k) };
}

impl<A: Allocator> OrdSeek<BoxedStr<A>> for Prefix<&str> {
    ghost side = { λ q k. prefix_side nat_cmp q.0.now (boxed_str_bytes k) };

    ghost meets = { λ q k. starts_with nat_eq (boxed_str_bytes k) q.0.now };

    fn compare_key(&self, key: &BoxedStr<A>) -> Ordering {
        compare_first(key.as_str().as_bytes(), self.0.as_bytes())
    }

    ghost seeks = { λ q. IsSeeking-part boxed_str_bytes (IsSeeking-prefix nat_cmp_total q.0.now) };

    ghost meets_equal = { λ q k. prefix_meets nat_cmp_total unsigned_ties q.0.now (boxed_str_bytes k) };
}

impl<A: Allocator> OrdSeek<RcStr<A>> for Prefix<&str> {
    ghost side = { λ q k. prefix_side nat_cmp q.0.now (rc_str_bytes k) };

    ghost meets = { λ q k. starts_with nat_eq (rc_str_bytes k) q.0.now };

    fn compare_key(&self, key: &RcStr<A>) -> Ordering {
        compare_first(key.as_str().as_bytes(), self.0.as_bytes())
    }

    ghost seeks = { λ q. IsSeeking-part rc_str_bytes (IsSeeking-prefix nat_cmp_total q.0.now) };

    ghost meets_equal = { λ q k. prefix_meets nat_cmp_total unsigned_ties q.0.now (rc_str_bytes k) };
}

impl<A: Allocator> OrdSeek<ArcStr<A>> for Prefix<&str> {
    ghost side = { λ q k. prefix_side nat_cmp q.0.now (arc_str_bytes k) };

    ghost meets = { λ q k. starts_with nat_eq (arc_str_bytes k) q.0.now };

    fn compare_key(&self, key: &ArcStr<A>) -> Ordering {
        compare_first(key.as_str().as_bytes(), self.0.as_bytes())
    }

    ghost seeks = { λ q. IsSeeking-part arc_str_bytes (IsSeeking-prefix nat_cmp_total q.0.now) };

    ghost meets_equal = { λ q k. prefix_meets nat_cmp_total unsigned_ties q.0.now (arc_str_bytes k) };
}

impl<'b, A: Allocator> OrdSeek<CowStr<'b, A>> for Prefix<&str> {
    ghost side = { λ q k. prefix_side nat_cmp q.0.now (cow_str_bytes k) };

    ghost meets = { λ q k. starts_with nat_eq (cow_str_bytes k) q.0.now };

    fn compare_key(&self, key: &CowStr<'b, A>) -> Ordering {
        compare_first(key.as_str().as_bytes(), self.0.as_bytes())
    }

    ghost seeks = { λ q. IsSeeking-part cow_str_bytes (IsSeeking-prefix nat_cmp_total q.0.now) };

    ghost meets_equal = { λ q k. prefix_meets nat_cmp_total unsigned_ties q.0.now (cow_str_bytes k) };
}

/// `map.matching(Prefix(bytes))`, where the key is a `Vec<u8>`, and `bytes` is a `&[u8]`.
impl<T: Ord, A: Allocator> OrdSeek<Vec<T, A>> for Prefix<&[T]> {
    ghost side = { λ q k. prefix_side T.cmp q.0.now k.items };

    ghost meets = { λ q k. starts_with T.eq k.items q.0.now };

    fn compare_key(&self, key: &Vec<T, A>) -> Ordering {
        compare_first(key.as_slice(), self.0)
    }

    ghost seeks = { λ q. IsSeeking-part (λ k. k.items) (IsSeeking-prefix T.total q.0.now) };

    ghost meets_equal = { λ q k. prefix_meets T.total T.matches_eq q.0.now k.items };
}

impl<T: Ord, A: Allocator> OrdSeek<BoxedSlice<T, A>> for Prefix<&[T]> {
    ghost side = { λ q k. prefix_side T.cmp q.0.now (boxed_slice_items k) };

    ghost meets = { λ q k. starts_with T.eq (boxed_slice_items k) q.0.now };

    fn compare_key(&self, key: &BoxedSlice<T, A>) -> Ordering {
        compare_first(key.as_slice(), self.0)
    }

    ghost seeks = { λ q. IsSeeking-part boxed_slice_items (IsSeeking-prefix T.total q.0.now) };

    ghost meets_equal = { λ q k. prefix_meets T.total T.matches_eq q.0.now (boxed_slice_items k) };
}
