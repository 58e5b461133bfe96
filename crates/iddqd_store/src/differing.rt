//! What differs between two maps: the items that only one of them has, and pairs of those that both have.
ghost use Rattle.std.specs.Prelude.{◌≡◌, not};

/// What differs between two maps, an old one and a new one, whose items are paired off by equal keys of one rank. The
/// items are borrowed from the maps.
///
/// ```text
/// for item in &difference.added {
///     // The new map has an item with this key, and the old one has none.
/// }
/// for pair in &difference.common {
///     if pair.is_modified() {
///         // Both maps have an item with this key, and `pair.before` and `pair.after` are not equal.
///     }
/// }
/// ```
#[derive(Debug, Drop)]
pub struct Difference<'a, T> {
    /// The items of the new map whose key no item of the old map has.
    pub added: Vec<&'a T>,
    /// The items of the old map whose key no item of the new map has.
    pub removed: Vec<&'a T>,
    /// All other items of both maps, in pairs with equal keys.
    pub common: Vec<ItemPair<'a, T>>,
}

/// An item of the old map, and the item of the new map that has an equal key.
#[derive(Debug, Drop)]
pub struct ItemPair<'a, T> {
    /// The item of the old map.
    pub before: &'a T,
    /// The item of the new map.
    pub after: &'a T,
}

impl<'a, T: PartialEq> ItemPair<'a, T> {
    /// Returns whether both items are equal by `==`, which is called once.
    pub fn is_unchanged(&self) -> bool
        ensures { result ≡ T.eq self.now.before.now self.now.after.now }
    {
        self.before == self.after
    }

    /// Returns whether the items are not equal by `==`, which is called once.
    pub fn is_modified(&self) -> bool
        ensures { result ≡ not (T.eq self.now.before.now self.now.after.now) }
    {
        !self.is_unchanged()
    }
}
