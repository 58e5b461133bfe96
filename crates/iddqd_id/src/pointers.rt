//! References, boxes and reference-counted pointers to items are items, with the keys of the item that they point to. A
//! `&mut` and a `Box` also give that item's data for writing.
//!
//! Made by tests/widths from crates/iddqd_bi/src/pointers.rt: change that file.
ghost use denote.Ref.{at_last};
ghost use Rattle.std.specs.Arc.{arc_value};
ghost use Rattle.std.specs.Box.{with_value};

use crate::item::{IdHashItem, IdHashItemMut};
use std::alloc::Allocator;
use std::boxed::Box;
use std::rc::Rc;
use std::sync::Arc;

impl<T: IdHashItem> IdHashItem for &T {
    type Key = T::Key;

    ghost key = { λ r. T.key r.now };

    fn key(&self) -> &T::Key {
        (**self).key()
    }
}

impl<T: IdHashItem> IdHashItem for &mut T {
    type Key = T::Key;

    ghost key = { λ r. T.key r.now };

    fn key(&self) -> &T::Key {
        (**self).key()
    }
}

impl<T: IdHashItem, A: Allocator> IdHashItem for Box<T, A> {
    type Key = T::Key;

    ghost key = { λ b. T.key b.value };

    fn key(&self) -> &T::Key {
        (**self).key()
    }
}

impl<T: IdHashItem, A: Allocator> IdHashItem for Rc<T, A> {
    type Key = T::Key;

    ghost key = { λ b. T.key b.value };

    fn key(&self) -> &T::Key {
        (**self).key()
    }
}

impl<T: IdHashItem, A: Allocator> IdHashItem for Arc<T, A> {
    type Key = T::Key;

    ghost key = { λ b. T.key b.value };

    fn key(&self) -> &T::Key {
        (**self).key()
    }
}

impl<T: IdHashItemMut> IdHashItemMut for &mut T {
    type Data = T::Data;

    ghost data_of = { λ r. T.data_of r.now };

    ghost put = { λ r d. at_last r (T.put r.now d) };

    ghost keeps_key = { λ r d. T.keeps_key r.now d };

    ghost put_shows = { λ r d. T.put_shows r.now d };

    fn data_mut(&mut self) -> &mut T::Data {
        (**self).data_mut()
    }
}

impl<T: IdHashItemMut, A: Allocator> IdHashItemMut for Box<T, A> {
    type Data = T::Data;

    ghost data_of = { λ b. T.data_of b.value };

    ghost put = { λ b d. with_value b (T.put b.value d) };

    ghost keeps_key = { λ b d. T.keeps_key b.value d };

    ghost put_shows = { λ b d. T.put_shows b.value d };

    fn data_mut(&mut self) -> &mut T::Data {
        (**self).data_mut()
    }
}
