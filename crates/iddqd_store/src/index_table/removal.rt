//! Removal of a pair from a table: of one that is known, or of one in the cell at which a search ended.
ghost use Rattle.std.specs.Prelude.{◌≡◌, ◌+◌, ◌%◌, ◌∷◌, ◌<◌, ◌≤◌, length, Contains};
ghost use Rattle.std.specs.List.Sorted.{IsPermutation};
ghost use Rattle.iddqd_store.specs.Table.Ring.{gap, stretch};
ghost use Rattle.iddqd_store.specs.Table.{hashes, IsCellOf};

use super::{IndexTable, Meter, probe};
use crate::item_set::ItemIndex;

impl IndexTable {
    /// Removes a pair. It allocates nothing. It probes the cells from the home of the hash on, up to the first empty
    /// one.
    ///
    /// It leaves no tombstone: each pair after the hole moves into the hole if that is on the way from the pair's
    /// home to the pair (backward-shift deletion).
    pub fn remove(&mut self, hash: u64, slot: ItemIndex, meter: &mut Meter)
        requires { Contains self.old.pairs (hash, slot) }
        ensures removed { IsPermutation self.old.pairs ((hash, slot) ∷ self.new.pairs) }
        ensures cells { length self.new.row ≡ length self.old.row }
        ensures limit { self.new.limit ≡ self.old.limit }
        ensures room { length self.new.pairs < self.new.limit }
        ensures probes { meter.new
            ≡ meter.old + stretch (hashes self.old.pairs) (length self.old.row) hash + 1 }
        ensures within { stretch (hashes self.old.pairs) (length self.old.row) hash
            ≤ length self.old.pairs }
    {
        let at = probe::seek(&self.cells, hash, slot, meter);
        self.remove_cell(hash, (slot, at), meter);
    }

    /// Removes the pair that a search found in a cell. It probes the cells after that one, up to the first empty one.
    pub fn remove_cell(&mut self, hash: u64, found: (ItemIndex, usize), meter: &mut Meter)
        requires { IsCellOf self.old.row (hash, found.0) found.1 }
        ensures removed { IsPermutation self.old.pairs ((hash, found.0) ∷ self.new.pairs) }
        ensures cells { length self.new.row ≡ length self.old.row }
        ensures limit { self.new.limit ≡ self.old.limit }
        ensures room { length self.new.pairs < self.new.limit }
        ensures probes { meter.new + gap (length self.old.row) (hash % length self.old.row) found.1
            ≡ meter.old + stretch (hashes self.old.pairs) (length self.old.row) hash }
    {
        probe::close_up(&mut self.cells, hash, found.1, meter);
        self.count -= 1;
    }
}
