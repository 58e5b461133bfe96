//! An insert, and what to do with its error.
ghost use Rattle.std.specs.Prelude.{◌≡◌, ◌≢◌, [], ◌∷◌, length, IsPermutation, OnOk, OnErr, IfErr};
ghost use Rattle.iddqd_bi.specs.Bag.{conflicts_of, conflicting};
ghost use Rattle.iddqd_bi.specs.Map.{IsFullFor, bag};

use iddqd_bi::{BiHashItem, BiHashMap, InsertReason, Ranked};

/// A telephone line, known by its number and by the desk that it ends at.
#[derive(Drop)]
pub struct Line {
    pub number: u64,
    pub desk: u32,
}

impl BiHashItem for Line {
    type K1 = u64;

    type K2 = u32;

    ghost key1 = { λ l. l.number };

    ghost key2 = { λ l. l.desk };

    fn key1(&self) -> &u64 {
        &self.number
    }

    fn key2(&self) -> &u32 {
        &self.desk
    }
}

/// A line that was not connected, with the reason, and with the number of lines that conflict with it.
#[derive(Drop)]
pub struct Refused {
    pub line: Line,
    pub conflicts: usize,
    pub reason: InsertReason,
}

/// Connects a line if its number and its desk are free.
pub fn connect(lines: &mut BiHashMap<Line>, line: Line) -> Result<(), Refused>
    ensures connected { OnOk result (IsPermutation (bag lines.new) (line ∷ bag lines.old)) }
    ensures unchanged { OnErr result (lines.new ≡ lines.old) }
    ensures handed_back { IfErr result (λ r. r.line ≡ line) }
    ensures full { IfErr result (λ r. r.reason ≡ InsertReason.Memory → IsFullFor ⟦<Line as Ranked>⟧.ranks lines.old line) }
    ensures taken { IfErr result (λ r. r.reason ≡ InsertReason.Duplicate
        → conflicts_of ⟦<Line as Ranked>⟧.ranks (bag lines.old) line ≢ []) }
    ensures count { IfErr result (λ r. r.conflicts ≡ length (conflicting ⟦<Line as Ranked>⟧.ranks (bag lines.old) line)) }
{
    match lines.insert_unique(line) {
        Ok(()) => Ok(()),
        Err(refusal) => {
            let conflicts = refusal.duplicates().len();
            let reason = refusal.reason();
            Err(Refused {
                line: refusal.into_item(),
                conflicts,
                reason,
            })
        }
    }
}
