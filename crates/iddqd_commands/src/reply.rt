//! What a command on a map returns.
use iddqd_store::{DuplicateItem, InsertReason, Iter};

/// What a command returns. A reply may borrow items of the map: `Lent` is a short list of references to items, and
/// `Given` a short list of items. `D` is the data of an item.
#[derive(Drop)]
pub enum MapReply<'m, T, D, Lent, Given> {
    /// The command was carried out.
    Done,
    /// The item was not inserted, because these items of the map conflict with it. They are in the order of the keys.
    Duplicate(DuplicateItem<T, Lent>),
    /// These items were removed, in the order of the keys. An item that was inserted conflicted with them or replaced
    /// them, or the command was to remove what an entry finds.
    Displaced(Given),
    /// The item that was looked up, or `None` if there is none.
    Found(Option<&'m T>),
    /// Whether there is such an item.
    Present(bool),
    /// The item that was removed, or `None` if there was none.
    Taken(Option<T>),
    /// The item was not inserted, for lack of memory.
    Memory(T),
    /// The command was not carried out, for lack of memory.
    Refused,
    /// The number of items.
    Length(usize),
    /// The items, each once, in unspecified order.
    Items(Iter<'m, T>),
    /// The items of an occupied entry stay, and the item that was offered was dropped.
    Kept,
    /// The item was not inserted, because its first key is not that of the entry, or of the item to replace.
    Key1(T),
    /// The item was not inserted, because its second key is not that of the entry, or of the item to replace, although
    /// its first key is.
    Key2(T),
    /// The item was not inserted, because its third key is not that of the entry, or of the item to replace, although
    /// its other keys are. A map with two keys never returns this.
    Key3(T),
    /// The item comes back, because there is no item to replace.
    Absent(T),
    /// The data comes back, because there is no item to write it to.
    AbsentData(D),
    /// No item of a list was inserted, because one could not be: the items before that one, in the order of the list, that
    /// one, and why it was not inserted.
    ExtendRefused(Vec<T>, T, InsertReason),
}
