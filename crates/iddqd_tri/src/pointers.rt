//! References, boxes and reference-counted pointers to items are items, with the keys of the item that they point to. A
//! `&mut` and a `Box` also give that item's data for writing.
//!
//! Made by tests/widths from crates/iddqd_bi/src/pointers.rt: change that file.
ghost use denote.Ref.{at_last};
ghost use Rattle.std.specs.Arc.{arc_value};
ghost use Rattle.std.specs.Box.{with_value};

use crate::item::{TriHashItem, TriHashItemMut};
use std::alloc::Allocator;
use std::boxed::Box;
use std::rc::Rc;
use std::sync::Arc;

impl<T: TriHashItem> TriHashItem for &T {
    type K1 = T::K1;

    type K2 = T::K2;

    type K3 = T::K3;

    ghost key1 = { λ r. T.key1 r.now };

    ghost key2 = { λ r. T.key2 r.now };

    ghost key3 = { λ r. T.key3 r.now };

    fn key1(&self) -> &T::K1 {
        (**self).key1()
    }

    fn key2(&self) -> &T::K2 {
        (**self).key2()
    }

    fn key3(&self) -> &T::K3 {
        (**self).key3()
    }
}

impl<T: TriHashItem> TriHashItem for &mut T {
    type K1 = T::K1;

    type K2 = T::K2;

    type K3 = T::K3;

    ghost key1 = { λ r. T.key1 r.now };

    ghost key2 = { λ r. T.key2 r.now };

    ghost key3 = { λ r. T.key3 r.now };

    fn key1(&self) -> &T::K1 {
        (**self).key1()
    }

    fn key2(&self) -> &T::K2 {
        (**self).key2()
    }

    fn key3(&self) -> &T::K3 {
        (**self).key3()
    }
}

impl<T: TriHashItem, A: Allocator> TriHashItem for Box<T, A> {
    type K1 = T::K1;

    type K2 = T::K2;

    type K3 = T::K3;

    ghost key1 = { λ b. T.key1 b.value };

    ghost key2 = { λ b. T.key2 b.value };

    ghost key3 = { λ b. T.key3 b.value };

    fn key1(&self) -> &T::K1 {
        (**self).key1()
    }

    fn key2(&self) -> &T::K2 {
        (**self).key2()
    }

    fn key3(&self) -> &T::K3 {
        (**self).key3()
    }
}

impl<T: TriHashItem, A: Allocator> TriHashItem for Rc<T, A> {
    type K1 = T::K1;

    type K2 = T::K2;

    type K3 = T::K3;

    ghost key1 = { λ b. T.key1 b.value };

    ghost key2 = { λ b. T.key2 b.value };

    ghost key3 = { λ b. T.key3 b.value };

    fn key1(&self) -> &T::K1 {
        (**self).key1()
    }

    fn key2(&self) -> &T::K2 {
        (**self).key2()
    }

    fn key3(&self) -> &T::K3 {
        (**self).key3()
    }
}

impl<T: TriHashItem, A: Allocator> TriHashItem for Arc<T, A> {
    type K1 = T::K1;

    type K2 = T::K2;

    type K3 = T::K3;

    ghost key1 = { λ b. T.key1 b.value };

    ghost key2 = { λ b. T.key2 b.value };

    ghost key3 = { λ b. T.key3 b.value };

    fn key1(&self) -> &T::K1 {
        (**self).key1()
    }

    fn key2(&self) -> &T::K2 {
        (**self).key2()
    }

    fn key3(&self) -> &T::K3 {
        (**self).key3()
    }
}

impl<T: TriHashItemMut> TriHashItemMut for &mut T {
    type Data = T::Data;

    ghost data_of = { λ r. T.data_of r.now };

    ghost put = { λ r d. at_last r (T.put r.now d) };

    ghost keeps_key1 = { λ r d. T.keeps_key1 r.now d };

    ghost keeps_key2 = { λ r d. T.keeps_key2 r.now d };

    ghost keeps_key3 = { λ r d. T.keeps_key3 r.now d };

    ghost put_shows = { λ r d. T.put_shows r.now d };

    fn data_mut(&mut self) -> &mut T::Data {
        (**self).data_mut()
    }
}

impl<T: TriHashItemMut, A: Allocator> TriHashItemMut for Box<T, A> {
    type Data = T::Data;

    ghost data_of = { λ b. T.data_of b.value };

    ghost put = { λ b d. with_value b (T.put b.value d) };

    ghost keeps_key1 = { λ b d. T.keeps_key1 b.value d };

    ghost keeps_key2 = { λ b d. T.keeps_key2 b.value d };

    ghost keeps_key3 = { λ b d. T.keeps_key3 b.value d };

    ghost put_shows = { λ b d. T.put_shows b.value d };

    fn data_mut(&mut self) -> &mut T::Data {
        (**self).data_mut()
    }
}
