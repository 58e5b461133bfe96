//! Logins, each known by its number and by its token, in the order of the times at which they were last seen.
ghost use Rattle.std.specs.Prelude.{◌≡◌, ◌<◌, ◌==◌, ◌∷◌, true, false, filter, map, not, nat_eq, nat_le, length, slice_get, IsOk, OnOk, OnErr, IfErr, IfSome, IfNone, option_copied, []};
ghost use Rattle.std.proofs.Common.{rules};
ghost use Rattle.std.specs.List.{list_any};
ghost use Rattle.std.specs.Ordering.{nat_cmp};
ghost use Rattle.iddqd_store.specs.Bag.{IsOnly, conflicts_of};
ghost use Rattle.iddqd_sorted.specs.Batches.{with_items};
ghost use Rattle.iddqd_sorted.specs.Items.{by_sort, items, with_item};

use iddqd_bi::{BiHashItem, BiHashItemMut, Ranked, Rejected};
use iddqd_sorted::{BiHashOrdMap, Iter, Sortable};

/// A login, with the time at which it was last seen.
#[derive(Clone, Copy)]
pub struct Login {
    pub number: u32,
    pub token: u64,
    pub seen: u64,
}

impl BiHashItem for Login {
    type K1 = u32;

    type K2 = u64;

    ghost key1 = { λ l. l.number };

    ghost key2 = { λ l. l.token };

    fn key1(&self) -> &u32 {
        &self.number
    }

    fn key2(&self) -> &u64 {
        &self.token
    }
}

impl BiHashItemMut for Login {
    type Data = u64;

    ghost data_of = { λ l. l.seen };

    ghost put = { λ l seen. record l { seen = seen } };

    fn data_mut(&mut self) -> &mut u64 {
        &mut self.seen
    }

    ghost keeps_key1 = { Prim.search rules };

    ghost keeps_key2 = { Prim.search rules };

    ghost put_shows = { Prim.search rules };
}

impl Sortable for Login {
    type SortKey = u64;

    ghost sort_key = { λ l. l.seen };

    fn sort_key(&self) -> u64 {
        self.seen
    }
}

/// The logins, by number and by token, the one that was not seen for longest first.
pub type Logins = BiHashOrdMap<Login>;

/// Opens a login. If its number or its token is taken, or if there is no memory, the error has the login, and says which of the
/// two is taken.
pub fn open(logins: &mut Logins, login: Login) -> Result<(), Rejected<Login>>
    ensures opened { OnOk result (items logins.new
        ≡ with_item (by_sort (λ l. l.seen) nat_cmp (λ l. l.number) nat_cmp) (items logins.old) login) }
    ensures granted { conflicts_of ⟦<Login as Ranked>⟧.ranks (items logins.old) login ≡ []
        → length (items logins.old) < logins.old.capacity → IsOk result }
    ensures number_taken { IfErr result (λ e. e.taken1 ≡ list_any (λ l. login.number == l.number) (items logins.old)) }
    ensures token_taken { IfErr result (λ e. e.taken2 ≡ list_any (λ l. login.token == l.token) (items logins.old)) }
    ensures handed_back { IfErr result (λ e. e.item ≡ login) }
    ensures unchanged { OnErr result (logins.new ≡ logins.old) }
{
    logins.try_insert(login)
}

/// Returns the login with this token, if there is one.
pub fn by_token(logins: &Logins, token: u64) -> Option<&Login>
    ensures { IsOnly (λ l. token == l.token) (items logins.now) (option_copied result) }
{
    logins.get2(&token)
}

/// Notes that the login with this token was seen now, and returns whether there is one. It moves to the place of this time, and the
/// others stay in their order. No table is written.
pub fn touch(logins: &mut Logins, token: u64, now: u64) -> bool
    ensures found { result ≡ list_any (λ l. token == l.token) (items logins.old) }
    ensures moved { items logins.new ≡ with_items (by_sort (λ l. l.seen) nat_cmp (λ l. l.number) nat_cmp)
        (filter (λ l. not (token == l.token)) (items logins.old))
        (map (λ (l : Login). record l { seen = now }) (filter (λ l. token == l.token) (items logins.old))) }
    ensures unchanged { result ≡ false → logins.new ≡ logins.old }
    ensures capacity { logins.new.capacity ≡ logins.old.capacity }
{
    logins.update2(&token, |_| now)
}

/// Closes the logins that have not been seen since this time. The call looks at these alone, and at one more.
pub fn expire(logins: &mut Logins, since: u64)
    ensures closed { items logins.new ≡ filter (λ l. nat_le since l.seen) (items logins.old) }
    ensures capacity { logins.new.capacity ≡ logins.old.capacity }
{
    logins.drop_before(&since);
}

/// Closes the login that was not seen for longest, and returns it, if it was last seen by this time.
pub fn close_next(logins: &mut Logins, time: u64) -> Option<Login>
    ensures first { IfSome result (λ l. items logins.old ≡ l ∷ items logins.new) }
    ensures due { IfSome result (λ l. nat_le l.seen time ≡ true) }
    ensures early { IfNone result (filter (λ l. nat_le l.seen time) (items logins.old) ≡ []) }
    ensures unchanged { IfNone result (logins.new ≡ logins.old) }
{
    logins.pop_to(&time)
}

/// Returns the login that was not seen for longest, if there is one.
pub fn oldest(logins: &Logins) -> Option<&Login>
    ensures { option_copied result ≡ slice_get (items logins.now) 0 }
{
    logins.first()
}

/// Goes over the logins that were last seen at this time, in the order of their numbers.
pub fn seen_at(logins: &Logins, time: u64) -> Iter<'_, Login>
    ensures { result ≡ filter (λ l. nat_eq l.seen time) (items logins.now) }
{
    logins.group(&time)
}
