//! The load of the tables: how many pairs a map makes its tables for. A search ends sooner the more of the cells are
//! empty, so the tables of a small map have room for more pairs than its slots have room for items. The capacity of the
//! map is then that of its slots.
ghost use Rattle.std.specs.Prelude.{◌≡◌, ℕ, ◌+◌, ◌-◌, ◌*◌, ◌/◌, ◌^◌, ◌<◌, ◌≤◌, IfNone, IfSome, min, max};
ghost use Rattle.iddqd_store.specs.Table.Limit.{capacity_of, IsSparse};

/// In a map with room for more items a table has no more cells than its pairs need.
const LARGE: usize = 65536;

/// For at most so many items an insert makes the tables ahead.
pub const AHEAD: usize = LARGE;

/// Returns how many pairs a table is made for in a map in which this many items fit. At most seven eighths of the cells
/// have a pair in a full table. So in a full map at most a third of them have one up to 4,096 items, at most half of them
/// up to 65,536 items, and above that at most seven eighths: larger tables would no longer stay in the processor's caches.
pub fn pairs_for(items: usize) -> usize
    ensures enough { items ≤ result }
    ensures none { items ≡ 0 → result ≡ 0 }
    ensures most { result ≤ 3 * items }
    ensures large { 65536 < items → result ≡ items }
    // It asks for no more than the shares above need.
    ensures tight { (items ≤ 4096 → 8 * result < 21 * items + 8) × (4096 < items → 4 * result < 7 * items + 4) }
    // A table with room for so many pairs has so many cells that at most a third, or a half, have one in a full map.
    ensures sparse { (cells : ℕ) → result ≤ capacity_of cells → IsSparse items cells }
{
    if items <= 4096 {
        (items * 21).div_ceil(8)
    } else if items <= LARGE {
        items * 2 - items / 4
    } else {
        items
    }
}

/// Returns how many items a map has room for whose slots grow as a vector does: twice as many, and at first four.
fn doubled(room: usize) -> usize
    ensures { result ≡ min (2 ^ 64 - 1) (max (2 * room) 4) }
{
    room.saturating_mul(2).max(4)
}

/// Returns for how many more pairs each table reserves capacity where a map of `len` items, whose slots have room for
/// `room`, reserves it for `more` items. If the slots have to grow, it is as many as tables that are made for all these
/// items have room for; and ahead of the items, for twice the room of the slots, but for at most `ahead`. Else it is
/// `more`. It is `None` if so many items are more than a `usize` counts.
pub fn pairs_wanted(len: usize, room: usize, more: usize, ahead: usize) -> Option<usize>
    requires { len ≤ room }
    // The pairs of so many more items fit, and no others are asked for where the slots do not grow.
    ensures enough { IfSome result (λ wanted. more ≤ wanted) }
    ensures as_asked { IfSome result (λ wanted. len + more ≤ room → wanted ≡ more) }
    // Tables have room for at most three times as many pairs as the items that they are made for, and if these are more
    // than 65,536, for no others.
    ensures most { IfSome result (λ wanted. len + wanted ≤ 3 * max (len + more) (min ahead (max (2 * room) 4))) }
    ensures large { IfSome result (λ wanted. 65536 < len + more → ahead ≤ 65536 → wanted ≡ more) }
    // Where the slots grow, a table in which the pairs fit is sparse with all the items that it is made for.
    ensures sparse { IfSome result (λ wanted. room < len + more → (cells : ℕ) → len + wanted ≤ capacity_of cells
        → IsSparse (max (len + more) (min ahead (max (2 * room) 4))) cells) }
    ensures past { IfNone result (2 ^ 64 ≤ len + more) }
{
    if more <= room - len {
        return Some(more);
    }
    let items = len.checked_add(more)?;
    Some(pairs_for(items.max(doubled(room).min(ahead))) - len)
}

/// Returns for how many more items the slots of a map reserve capacity, once its tables, which have at least this many
/// cells, have it for `more` items. If the slots have to grow, it is as many as a vector that grows would have room for,
/// but not beyond what such tables are sparse for. Else it is `more`.
pub fn slots_wanted(len: usize, room: usize, more: usize, cells: usize) -> usize
    requires { len ≤ room }
    // The items fit, and no others are asked for where the slots do not grow.
    ensures enough { more ≤ result }
    ensures as_asked { len + more ≤ room → result ≡ more }
    // Room for others is at most twice what there was, and the tables are sparse with as many items.
    ensures most { more < result → len + result ≤ max (2 * room) 4 }
    ensures sparse { more < result → IsSparse (len + result) cells }
    // Where the slots grow, as many items fit as these two bounds allow.
    ensures as_many { room < len + more → (items : ℕ) → items < 2 ^ 64 → items ≤ max (2 * room) 4 → IsSparse items cells
        → items ≤ len + result }
{
    if more <= room - len {
        return more;
    }
    let most = doubled(room);
    let sparse = if most > LARGE {
        most
    } else if most.min(cells / 2) > 4096 {
        cells / 2
    } else {
        cells / 3
    };
    more.max(most.min(sparse).saturating_sub(len))
}

/// Returns for how many more items a map of `len` items reserves capacity at once where an iterator promises so many: for all of
/// them, but for no more than 65,536, or eight times as many as there are. So an iterator that promises far more than it gives
/// gets no more than nine times the room of what it gave. If a ninth of all is less than that, it is for a ninth of all, so that
/// next time the rest is asked for at once: then each item but a ninth is inserted into the tables in which it stays.
pub fn at_once(promised: usize, len: usize) -> usize
    ensures some { 0 < promised → 0 < result }
    ensures within { result ≤ promised }
    ensures most { result ≤ max (8 * len) 65536 }
    ensures all { promised ≤ max (8 * len) 65536 → result ≡ promised }
    ensures part { max (8 * len) 65536 < promised → result ≡ min (max (8 * len) 65536) ((promised - 8 * len + 8) / 9) }
{
    let most = len.saturating_mul(8).max(AHEAD);
    if promised <= most {
        promised
    } else {
        most.min((promised - len * 8).div_ceil(9))
    }
}
