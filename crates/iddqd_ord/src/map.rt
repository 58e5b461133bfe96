//! The map, its fields and its invariant.
use crate::item::IdOrdItem;
use iddqd_order::Blocks;
use std::marker::{Model, PhantomData};

mod batch;
mod build;
mod capacity;
mod clone;
mod collect;
mod collection;
mod compare;
mod data;
mod differing;
mod emptied;
mod ends;
mod ends_mut;
mod entries;
mod entry;
mod extend;
mod extend_unique;
mod extract;
mod find;
mod gathered;
mod guard;
mod insert;
mod insert_unique;
mod iterate;
mod matching;
mod overwrite;
mod places;
mod range_mut;
mod rekey;
mod remove;
mod retain;
mod retain_mut;
mod shrink;
mod steps;
mod update;
mod walk;
mod write;

pub use collect::ClonesKeys;

/// Items in the order of their keys. No two items of a map have an equal key.
///
/// The items stand in blocks, in the order of the keys. A lookup among fewer than `4 ^ r` items compares at most
/// `3 * r + 19` keys.
#[derive(Drop)]
pub struct IdOrdMap<T: IdOrdItem> {
    items: Blocks<T>,
    // It names the type of the keys. Without it no function that owns a map whose keys are references has a proof.
    key_types: PhantomData<T::Key>,
}

impl<T: IdOrdItem> Model for IdOrdMap<T> {
    ghost use Rattle.iddqd_order.specs.Row.{BlocksValue, blocks_code, line};
    ghost use Rattle.iddqd_ord.specs.Ordered.{IsAscending};

    ghost Value = { BlocksValue T };

    ghost coded = { blocks_code T.code };

    ghost view = { λ m. m.items };

    ghost invariant = { λ m. IsAscending T.Key.cmp T.key (line m.items.blocks) };
}
