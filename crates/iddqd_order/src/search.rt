//! Searches in four parts, and how they compare entries.
ghost use Rattle.std.specs.Prelude.{◌≡◌, ℕ, ◌+◌, ◌-◌, ◌*◌, ◌^◌, ◌<◌, ◌≤◌, length, true, false, All, slice_get, IfOk, IfErr, IfSome, IfNone};
ghost use Rattle.std.specs.Ordering.{is_gt};
ghost use Rattle.std.specs.declared.cmp.Ordering.{Ordering};
ghost use Rattle.iddqd_order.specs.Search.{IsPartitionPoint, IsSearchable, IsLastEqual, IsSplit, order_at};
ghost use Rattle.iddqd_order.specs.Row.{line, block_at, position, HasEntry, IsPlace, IsRow};

use crate::place::Place;
use crate::row::BlockRow;
use iddqd_store::Meter;
use std::cmp::Ordering;

/// How entries compare with what a search in order seeks.
pub trait Compare<E> {
    // The result of `compare`.
    ghost order: { Self → E → Ordering };

    // Which entries it may be asked about.
    ghost MayAsk: { Self → E → Type 0 };

    /// Compares an entry with what is sought, and counts that on the meter.
    fn compare(&self, entry: &E, meter: &mut Meter) -> Ordering
        requires { MayAsk self.now entry.now }
        ensures value { result ≡ order self.now entry.now }
        ensures asked { meter.new ≡ meter.old + 1 };
}

/// Comparisons by number: of the entries of a block, or of the first entries of the blocks.
trait CompareAt {
    // The comparison of this number.
    ghost at: { Self → ℕ → Ordering };

    // Which numbers there are.
    ghost IsIn: { Self → ℕ → Type 0 };

    /// Compares the entry of this number with what is sought, and counts that.
    fn compare_at(&self, number: usize, meter: &mut Meter) -> Ordering
        requires { IsIn self.now number }
        ensures value { result ≡ at self.now number }
        ensures asked { meter.new ≡ meter.old + 1 };
}

/// The entries of a block.
#[derive(Drop)]
struct InBlock<'a, E, C> {
    entries: &'a [E],
    sought: &'a C,
}

impl<'a, E, C: Compare<E>> CompareAt for InBlock<'a, E, C> {
    ghost at = { λ s i. order_at (C.order s.sought.now) (slice_get s.entries.now i) };

    ghost IsIn = { λ s i. (i < length s.entries.now) × All (C.MayAsk s.sought.now) s.entries.now };

    fn compare_at(&self, number: usize, meter: &mut Meter) -> Ordering {
        self.sought.compare(&self.entries[number], meter)
    }
}

/// The first entries of the blocks behind the first block.
#[derive(Drop)]
struct InRow<'a, E, C> {
    row: &'a BlockRow<E>,
    sought: &'a C,
}

impl<'a, E, C: Compare<E>> CompareAt for InRow<'a, E, C> {
    ghost at = { λ s i. order_at (C.order s.sought.now) (slice_get (block_at s.row.now.blocks (i + 1)) 0) };

    ghost IsIn = { λ s i. (i + 1 < length s.row.now.blocks) × All (All (C.MayAsk s.sought.now)) s.row.now.blocks };

    fn compare_at(&self, number: usize, meter: &mut Meter) -> Ordering {
        // The number of the blocks tells the prover that the next one can be counted.
        let _ = self.row.len();
        self.sought.compare(self.row.first_of(number + 1), meter)
    }
}

/// Returns 1 if the entry of this number is not above what is sought, and else 0.
#[inline(always)]
fn passes<A: CompareAt>(compared: &A, number: usize, meter: &mut Meter) -> usize
    requires { A.IsIn compared.now number }
    ensures most { result ≤ 1 }
    ensures passed { result ≡ 1 → is_gt (A.at compared.now number) ≡ false }
    ensures above { result ≡ 0 → is_gt (A.at compared.now number) ≡ true }
    ensures asked { meter.new ≡ meter.old + 1 }
{
    (compared.compare_at(number, meter) != Ordering::Greater) as usize
}

/// Compares the last entries of three parts of the same length. Returns the length of those parts, from the first on, whose
/// last entry is not above what is sought. The sum of three comparisons is compiled without a branch.
#[inline(always)]
fn passed_over<A: CompareAt>(
    compared: &A,
    low: usize,
    part: usize,
    len: usize,
    meter: &mut Meter,
) -> usize
    requires asks { (k : ℕ) → k < len → A.IsIn compared.now k }
    requires rises { (j k : ℕ) → j ≤ k → k < len → is_gt (A.at compared.now j) ≡ true → is_gt (A.at compared.now k) ≡ true }
    requires some { 0 < part }
    requires within { low + 3 * part ≤ len }
    ensures most { result ≤ 3 * part }
    ensures below { (k : ℕ) → 0 < result → k < low + result → is_gt (A.at compared.now k) ≡ false }
    ensures above { (k : ℕ) → result < 3 * part → low + result + part ≤ k + 1 → k < len → is_gt (A.at compared.now k) ≡ true }
    ensures asked { meter.new ≡ meter.old + 3 }
{
    let passed = passes(compared, low + part - 1, meter)
        + passes(compared, low + 2 * part - 1, meter)
        + passes(compared, low + 3 * part - 1, meter);
    part * passed
}

/// Returns how many of the entries are not above what is sought.
#[inline(always)]
fn partition_point<A: CompareAt>(compared: &A, len: usize, meter: &mut Meter) -> usize
    requires asks { (k : ℕ) → k < len → A.IsIn compared.now k }
    requires rises { (j k : ℕ) → j ≤ k → k < len → is_gt (A.at compared.now j) ≡ true → is_gt (A.at compared.now k) ≡ true }
    ensures point { IsPartitionPoint (A.at compared.now) len result }
    ensures asked { (r : ℕ) → len ≤ 2 * 4 ^ r + 1 → meter.new ≤ meter.old + (3 * r + 3) }
{
    let mut low = 0;
    let mut size = len;
    while 4 <= size {
        // A quarter of `size + 1`: so blocks of 64 to 128 entries all take as many steps, and the processor foresees the last one.
        let part = (size - 3) / 4 + 1;
        low += passed_over(compared, low, part, len, meter);
        size -= 3 * part;
    }
    let mut more = 0;
    for number in low..low + size {
        more += passes(compared, number, meter);
    }
    low + more
}

/// Searches for what is sought. `Ok` has its place, and `Err` the place at which it would go.
pub(crate) fn search<E, C: Compare<E>>(
    row: &BlockRow<E>,
    sought: &C,
    meter: &mut Meter,
) -> Result<Place, Place>
    requires asks { All (C.MayAsk sought.now) (line row.now.blocks) }
    requires ordered { IsSearchable (C.order sought.now) (line row.now.blocks) }
    ensures entry { IfOk result (HasEntry row.now.blocks) }
    ensures found { IfOk result (λ p. IsLastEqual (C.order sought.now) (line row.now.blocks) (position row.now.blocks p)) }
    ensures place { IfErr result (IsPlace row.now.blocks) }
    ensures gap { IfErr result (λ p. IsSplit (C.order sought.now) (line row.now.blocks) (position row.now.blocks p) 0) }
    ensures filled { IsRow row.now.memory row.now.blocks }
    ensures asked { (r : ℕ) → length (line row.now.blocks) < 4 ^ r → meter.new ≤ meter.old + (3 * r + 16) }
{
    let blocks = row.len();
    if blocks == 0 {
        return Err(Place {
            block: 0,
            offset: 0,
        });
    }
    let block = partition_point(&InRow { row, sought }, blocks - 1, meter);
    let entries = row.entries_of(block);
    let offset = partition_point(&InBlock { entries, sought }, entries.len(), meter);
    if 0 < offset {
        if let Ordering::Equal = sought.compare(&entries[offset - 1], meter) {
            return Ok(Place {
                block,
                offset: offset - 1,
            });
        }
    }
    Err(Place { block, offset })
}

/// Returns the place behind all entries, if the last entry is lower than what is sought. It compares once at most.
#[inline(always)]
pub(crate) fn behind_last<E, C: Compare<E>>(
    row: &BlockRow<E>,
    sought: &C,
    meter: &mut Meter,
) -> Option<Place>
    requires asks { All (C.MayAsk sought.now) (line row.now.blocks) }
    requires ordered { IsSearchable (C.order sought.now) (line row.now.blocks) }
    ensures place { IfSome result (IsPlace row.now.blocks) }
    ensures gap { IfSome result (λ p. IsSplit (C.order sought.now) (line row.now.blocks) (position row.now.blocks p) 0) }
    ensures none { IfNone result (0 < length (line row.now.blocks)
        → IsSplit (C.order sought.now) (line row.now.blocks) (length (line row.now.blocks)) 0 → ⊥) }
    ensures asked { meter.new ≤ meter.old + 1 }
{
    let blocks = row.len();
    if blocks == 0 {
        return None;
    }
    let entries = row.entries_of(blocks - 1);
    let len = entries.len();
    match sought.compare(&entries[len - 1], meter) {
        Ordering::Less => Some(Place {
            block: blocks - 1,
            offset: len,
        }),
        _ => None,
    }
}
