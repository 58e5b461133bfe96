//! Short lists: inline arrays of at most two or three items.
ghost use Rattle.std.specs.Prelude.{◌≡◌, ◌≤◌, ◌++◌, [], List, length, slice_get, IfNone};
ghost use Rattle.std.specs.Option.{option_to_list};

mod into_iter;
mod iter;
mod up_to_three;
mod up_to_two;

pub use into_iter::ShortIntoIter;
pub use iter::ShortIter;
pub use up_to_three::UpToThree;
pub use up_to_two::UpToTwo;

/// What `UpToTwo` and `UpToThree` share: a list that is kept inline, without an allocation.
pub trait ShortList {
    /// The type of the items.
    type Item;

    // The list.
    ghost list: { Self → List Self.Item };

    /// Returns the number of items.
    fn len(&self) -> usize
        ensures value { result ≡ length (list self.now) }
        ensures short { result ≤ 3 };

    /// Removes and returns the first item, or `None` if there is none.
    fn pop_front(&mut self) -> Option<Self::Item>
        ensures front { result ≡ slice_get (list self.old) 0 }
        ensures rest { list self.old ≡ option_to_list result ++ list self.new }
        ensures end { IfNone result (list self.new ≡ []) };
}

impl<T> ShortList for UpToTwo<T> {
    type Item = T;

    ghost list = { λ items. items };

    fn len(&self) -> usize {
        UpToTwo::len(self)
    }

    fn pop_front(&mut self) -> Option<T> {
        UpToTwo::pop_front(self)
    }
}

impl<T> ShortList for UpToThree<T> {
    type Item = T;

    ghost list = { λ items. items };

    fn len(&self) -> usize {
        UpToThree::len(self)
    }

    fn pop_front(&mut self) -> Option<T> {
        UpToThree::pop_front(self)
    }
}
