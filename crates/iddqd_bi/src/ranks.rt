//! The two ranks of an item, as types. The searches of `iddqd_store` are generic over the rank, and these types say
//! which key is meant.
use crate::item::BiHashItem;
use iddqd_store::KeyOf;
use std::hash::Hash;

/// The rank of the first key.
#[derive(Drop)]
pub struct First;

impl<T: BiHashItem> KeyOf<T> for First {
    type Key = T::K1;

    ghost key = { T.key1 };

    fn key(item: &T) -> &T::K1 {
        item.key1()
    }
}

/// The rank of the second key.
#[derive(Drop)]
pub struct Second;

impl<T: BiHashItem> KeyOf<T> for Second {
    type Key = T::K2;

    ghost key = { T.key2 };

    fn key(item: &T) -> &T::K2 {
        item.key2()
    }
}
