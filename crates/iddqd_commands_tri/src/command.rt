//! The calls of a map as values (commands), their replies, and what receives the replies.
//!
//! Made by tests/widths from crates/iddqd_commands_bi/src/command.rt: change that file.
ghost use Rattle.std.specs.Prelude.{Result};
ghost use Rattle.iddqd_commands.specs.Reply.{Reply};
ghost use Rattle.iddqd_commands.specs.Values.{value_of};

use iddqd_commands::MapReply;
use iddqd_store::UpToThree;
use iddqd_tri::TriHashItemMut;

/// A call of the map as a value, for `apply` and `run` of [`TriCommands`](crate::TriCommands).
#[derive(Drop)]
pub enum TriCommand<T: TriHashItemMut> {
    /// `insert_unique`.
    InsertUnique(T),
    /// `insert_overwrite`.
    InsertOverwrite(T),
    /// `get1`.
    Get1(T::K1),
    /// `get2`.
    Get2(T::K2),
    /// `get3`.
    Get3(T::K3),
    /// `get_unique`.
    GetUnique(T::K1, T::K2, T::K3),
    /// `contains_key1`.
    Contains1(T::K1),
    /// `contains_key2`.
    Contains2(T::K2),
    /// `contains_key3`.
    Contains3(T::K3),
    /// `contains_key_unique`.
    ContainsUnique(T::K1, T::K2, T::K3),
    /// `remove1`.
    Remove1(T::K1),
    /// `remove2`.
    Remove2(T::K2),
    /// `remove3`.
    Remove3(T::K3),
    /// `remove_unique`.
    RemoveUnique(T::K1, T::K2, T::K3),
    /// `reserve`.
    Reserve(usize),
    /// `shrink_to`.
    ShrinkTo(usize),
    /// `shrink_to_fit`.
    ShrinkToFit,
    /// `clear`.
    Clear,
    /// `len`.
    Len,
    /// `iter`.
    Items,
    /// `extend` by these items, in order.
    Extend(Vec<T>),
    /// `extend_unique` by these items, in order.
    ExtendUnique(Vec<T>),
    /// `entry` of these keys, and then its `insert`, whether it is vacant or occupied.
    EntryInsert(T::K1, T::K2, T::K3, T),
    /// `entry` of these keys, and then its `remove`, if it is occupied.
    EntryRemove(T::K1, T::K2, T::K3),
    /// `entry` of these keys, and then its `or_insert`.
    OrInsert(T::K1, T::K2, T::K3, T),
    /// `replace` by this item, on the guard of the item with this first key.
    Replace1(T::K1, T),
    /// `replace` by this item, on the guard of the item with this second key.
    Replace2(T::K2, T),
    /// `replace` by this item, on the guard of the item with this third key.
    Replace3(T::K3, T),
    /// Writes this data through `data_mut`, on the guard of the item with this first key.
    Set1(T::K1, T::Data),
    /// Writes this data through `data_mut`, on the guard of the item with this second key.
    Set2(T::K2, T::Data),
    /// Writes this data through `data_mut`, on the guard of the item with this third key.
    Set3(T::K3, T::Data),
}

/// The reply to a command. It may borrow items of the map.
pub type TriReply<'m, T> = MapReply<
    'm,
    T,
    <T as TriHashItemMut>::Data,
    UpToThree<&'m T>,
    UpToThree<T>,
>;

/// What receives the replies of `apply` and `run`, one by one.
pub trait TriSink<T: TriHashItemMut> {
    /// What `take` returns to end a run.
    type Fault;

    // `took before reply result after` holds if a sink in the state `before` may take this reply, return this result,
    // and then be in the state `after`.
    ghost took: { Self → Reply T T.Data → Result (Unit {0}) Self.Fault → Self → Type 0 };

    /// Takes a reply. An `Err` is a fault of the sink, at which a run ends.
    fn take(&mut self, reply: TriReply<'_, T>) -> Result<(), Self::Fault>
        ensures { took self.old (value_of reply.entry) result self.new };
}
