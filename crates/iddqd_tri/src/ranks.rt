//! The three ranks of an item, as types. The searches of `iddqd_store` are generic over the rank, and these types say
//! which key is meant.
//!
//! Made by tests/widths from crates/iddqd_bi/src/ranks.rt: change that file.
use crate::item::TriHashItem;
use iddqd_store::KeyOf;
use std::hash::Hash;

/// The rank of the first key.
#[derive(Drop)]
pub struct First;

impl<T: TriHashItem> KeyOf<T> for First {
    type Key = T::K1;

    ghost key = { T.key1 };

    fn key(item: &T) -> &T::K1 {
        item.key1()
    }
}

/// The rank of the second key.
#[derive(Drop)]
pub struct Second;

impl<T: TriHashItem> KeyOf<T> for Second {
    type Key = T::K2;

    ghost key = { T.key2 };

    fn key(item: &T) -> &T::K2 {
        item.key2()
    }
}

/// The rank of the third key.
#[derive(Drop)]
pub struct Third;

impl<T: TriHashItem> KeyOf<T> for Third {
    type Key = T::K3;

    ghost key = { T.key3 };

    fn key(item: &T) -> &T::K3 {
        item.key3()
    }
}
