//! A key behind an `Arc`, which other items share.
ghost use Rattle.std.specs.Prelude.{◌≡◌, ◌∷◌, OnOk, OnErr, IsPermutation, option_copied};
ghost use Rattle.iddqd_bi.specs.Bag.{IsOnly};
ghost use Rattle.iddqd_bi.specs.Map.{bag};

use iddqd_bi::{BiHashItem, BiHashMap, Rejected};
use std::sync::Arc;

/// A board, by its part number and its serial number.
#[derive(PartialEq, Eq, Hash, Drop)]
pub struct Board {
    pub part: String,
    pub serial: String,
}

/// An update of a board that is under way, known by the board and by the order in which it came.
#[derive(Drop)]
pub struct Update {
    pub board: Arc<Board>,
    pub order: u64,
}

impl BiHashItem for Update {
    type K1 = Board;

    type K2 = u64;

    ghost key1 = { λ u. u.board.value };

    ghost key2 = { λ u. u.order };

    fn key1(&self) -> &Board {
        &self.board
    }

    fn key2(&self) -> &u64 {
        &self.order
    }
}

/// Begins an update. The error has it, and says which of its keys are taken.
pub fn begin(updates: &mut BiHashMap<Update>, update: Update) -> Result<(), Rejected<Update>>
    ensures went_in { OnOk result (IsPermutation (bag updates.new) (update ∷ bag updates.old)) }
    ensures unchanged { OnErr result (updates.new ≡ updates.old) }
{
    updates.try_insert(update)
}

/// Returns the update of this board, if there is one.
pub fn of_board<'u>(updates: &'u BiHashMap<Update>, board: &Board) -> Option<&'u Update>
    ensures { IsOnly (λ u. ⟦<Board as PartialEq>⟧.eq board.now u.board.value) (bag updates.now) (option_copied result) }
{
    updates.get1(board)
}
