//! An `Option` of a query is a query for an `Option` of a key.
ghost use Rattle.std.specs.Cmp.Rules.{comparing, hashing};
ghost use Rattle.std.proofs.Common.{rules};
ghost use Rattle.iddqd_store.specs.Queries.{option_stands, option_fed, option_agrees};

use super::Query;
use std::hash::Hash;

/// `get(Some("main"))`, where the key is an `Option<String>`. The key `None` is asked for by `get(&None)`.
impl<K: Eq + Hash, Q: Query<K>> Query<Option<K>> for Option<Q> {
    ghost stands_for = { option_stands Q.stands_for };

    ghost respects_hash = { option_fed Q.respects_hash };

    ghost respects_eq = { option_agrees Q.Query.respects_eq };

    fn stands_for(&self, key: &Option<K>) -> bool {
        match self {
            Some(query) => match key {
                Some(part) => query.stands_for(part),
                None => false,
            },
            None => key.is_none(),
        }
    }
}
