//! The result of a search.
ghost use Rattle.std.specs.Prelude.{◌≡◌};
ghost use Rattle.iddqd_store.specs.Searched.{found_of};

/// The result of a search: what it found, or where it ended if it found nothing, which is where an insert goes. Every
/// search of a table, of a rank and of a map returns one.
#[derive(Drop)]
pub enum Searched<F, V> {
    /// What the search found.
    Found(F),
    /// The search found nothing. This is where it ended.
    Vacant(V),
}

impl<F, V> Searched<F, V> {
    /// Returns what the search found, or `None`.
    #[inline(always)]
    pub fn found(self) -> Option<F>
    where
        V: Drop,
        ensures { result ≡ found_of self }
    {
        match self {
            Searched::Found(found) => Some(found),
            Searched::Vacant(_) => None,
        }
    }
}
