//! The ranges that a map takes.
use std::ops::{
    Bound, Range, RangeBounds, RangeFrom, RangeFull, RangeInclusive, RangeTo, RangeToInclusive,
};

/// A range of queries: `&3..&7`, `"a"..="m"`, `(&user, "a")..`, or a pair of `Bound`s. Each range has one type of query, so
/// that `map.range(&3..&7)` need not name it; std's `RangeBounds` reads a range of references in two ways. A range of your
/// own is one by `impl OrdRange<Q> for R {}`.
pub trait OrdRange<Q>: RangeBounds<Q> {}

impl<Q: Drop> OrdRange<Q> for Range<Q> {}

impl<Q: Drop> OrdRange<Q> for RangeInclusive<Q> {}

impl<Q: Drop> OrdRange<Q> for RangeFrom<Q> {}

impl<Q: Drop> OrdRange<Q> for RangeTo<Q> {}

impl<Q: Drop> OrdRange<Q> for RangeToInclusive<Q> {}

impl<Q> OrdRange<Q> for RangeFull {}

impl<Q: Drop> OrdRange<Q> for (Bound<Q>, Bound<Q>) {}
