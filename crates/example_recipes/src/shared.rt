//! Items with shared owners, in two maps: all orders, and those that are open.
ghost use Rattle.std.specs.Prelude.{◌≡◌, ◌∷◌, map as mapped, IsPermutation, OnOk, OnErr};
ghost use Rattle.iddqd_bi.specs.Map.{bag};

use crate::orders::Order;
use iddqd_bi::BiHashMap;
use std::alloc::Global;
use std::rc::Rc;

/// Opens an order, which goes into both maps or, after an error, into none.
pub fn open(
    alloc: Global,
    all: &mut BiHashMap<Rc<Order>>,
    opened: &mut BiHashMap<Rc<Order>>,
    order: Order,
) -> anyhow::Result<()>
    ensures among_all { OnOk result (IsPermutation (mapped (λ o. o.value) (bag all.new))
        (order ∷ mapped (λ o. o.value) (bag all.old))) }
    ensures among_opened { OnOk result (IsPermutation (mapped (λ o. o.value) (bag opened.new))
        (order ∷ mapped (λ o. o.value) (bag opened.old))) }
    ensures not_opened { OnErr result (opened.new ≡ opened.old) }
    ensures not_among_all { OnErr result (IsPermutation (bag all.new) (bag all.old)) }
{
    let order = Rc::new(alloc, order)?;
    all.try_insert(order.clone()?)?;
    if let Err(rejected) = opened.try_insert(order) {
        all.remove1(&rejected.item.number);
        return Err(rejected.into());
    }
    Ok(())
}
