//! The errors of a hash map with an order. No item is printed, so an item needs neither `Debug` nor `Display`.
use iddqd_store::InsertReason;
use std::fmt::{self, Debug, Display, Formatter, Write};

/// The error of `extend_unique`, after which the map has the items that it had before the call, and of `from_iter_unique`: the error
/// of the map inside for the item at which the call failed, and the items before it. The items after it in the list were dropped.
#[derive(Drop)]
pub struct ExtendUniqueError<T, R> {
    /// The items before the one that was rejected, in the order of the list.
    pub before: Vec<T>,
    /// The item at which the call failed, and which of its keys are taken: for each of them, whether an item of the map, or one of
    /// `before`, has it. If none is taken, there was no memory for the item.
    pub rejected: R,
}

impl<T, R: Debug> Debug for ExtendUniqueError<T, R> {
    fn fmt<W: Write>(&self, f: &mut Formatter<W>) -> fmt::Result {
        f.debug_struct("ExtendUniqueError")
            .field("before", &self.before.len())
            .field("rejected", &self.rejected)
            .finish()
    }
}

impl<T, R: Display> ExtendUniqueError<T, R> {
    /// Prints that no item was inserted, and why.
    pub(crate) fn tell<W: Write>(&self, f: &mut Formatter<W>, reason: InsertReason) -> fmt::Result {
        let at = self.before.len();
        write!(f, "none was inserted, because of item {at}: ")?;
        match reason {
            InsertReason::Duplicate => Display::fmt(&self.rejected, f),
            InsertReason::Memory => f.write_str("out of memory"),
        }
    }
}
