//! An `Option` of a query is a query for an `Option` of a key.
ghost use Rattle.iddqd_ord.specs.Queries.{option_side, IsRising-option};

use super::OrdQuery;
use std::cmp::Ordering;

/// `get(Some("main"))`, where the key is an `Option<String>`. The key `None` is asked for by `get(&None)`.
impl<K: Ord, Q: OrdQuery<K>> OrdQuery<Option<K>> for Option<Q> {
    ghost compare = { option_side Q.compare };

    fn compare(&self, key: &Option<K>) -> Ordering {
        match (self, key) {
            (Some(query), Some(part)) => query.compare(part),
            (Some(_), None) => Ordering::Less,
            (None, Some(_)) => Ordering::Greater,
            (None, None) => Ordering::Equal,
        }
    }

    ghost rises = { IsRising-option Q.rises };
}
