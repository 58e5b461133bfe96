//! Cloning a map.
ghost use Rattle.std.specs.Prelude.{IfOk};
ghost use Rattle.iddqd_id.specs.Bag.{IsCopy};
ghost use Rattle.iddqd_id.specs.Map.{bag};

use iddqd_id::{IdHashItem, IdHashMap, TryReserveError};

/// The worth of a currency, known by the currency's number.
#[derive(Clone, Copy)]
pub struct Rate {
    pub currency: u32,
    pub place: u8,
    pub worth: u64,
}

impl IdHashItem for Rate {
    type Key = u32;

    ghost key = { λ r. r.currency };

    fn key(&self) -> &u32 {
        &self.currency
    }
}

/// Returns a copy of all rates, or an error if there is no memory for it.
pub fn backup(rates: &IdHashMap<Rate>) -> Result<IdHashMap<Rate>, TryReserveError>
    ensures { IfOk result (λ copy. IsCopy ⟦<Rate as Clone>⟧.is_clone (bag rates.now) (bag copy)) }
{
    rates.clone()
}
