//! The rank of an item's key, as a type. The searches of `iddqd_store` are generic over the rank, and this type says
//! which key.
//!
//! Made by tests/widths from crates/iddqd_bi/src/ranks.rt: change that file.
use crate::item::IdHashItem;
use iddqd_store::KeyOf;
use std::hash::Hash;

/// The rank of the key.
#[derive(Drop)]
pub struct First;

impl<T: IdHashItem> KeyOf<T> for First {
    type Key = T::Key;

    ghost key = { T.key };

    fn key(item: &T) -> &T::Key {
        item.key()
    }
}
