//! A text as a key: items hold it as a `String`, and lookups and ranges take a `&str`.
ghost use Rattle.std.specs.Prelude.{◌≡◌, ◌&&◌, if◌then◌else◌, filter, map, nat_eq, string_bytes, option_copied};
ghost use Rattle.std.proofs.Common.{rules};
ghost use Rattle.std.specs.Cmp.Lexicographic.{slice_cmp};
ghost use Rattle.std.specs.List.{starts_with};
ghost use Rattle.std.specs.Ordering.{is_eq, is_ge, is_lt, nat_cmp};
ghost use Rattle.iddqd_ord.specs.Bag.{IsOnly};
ghost use Rattle.iddqd_ord.specs.Items.{items};

use iddqd_ord::{IdOrdItem, IdOrdItemMut, IdOrdMap, Iter, Prefix};

/// A term of a glossary, and the page that explains it.
#[derive(Drop)]
pub struct Term {
    pub name: String,
    pub page: u32,
}

impl IdOrdItem for Term {
    type Key = String;

    ghost key = { λ t. t.name };

    fn key(&self) -> &String {
        &self.name
    }
}

impl IdOrdItemMut for Term {
    type Data = u32;

    ghost data_of = { λ t. t.page };

    ghost put = { λ t page. record t { page = page } };

    ghost keeps_key = { Prim.search rules };

    ghost put_shows = { Prim.search rules };

    fn data_mut(&mut self) -> &mut u32 {
        &mut self.page
    }
}

/// Returns the term of this name, if there is one.
pub fn find_term<'t>(terms: &'t IdOrdMap<Term>, name: &str) -> Option<&'t Term>
    ensures { IsOnly (λ t. is_eq (slice_cmp nat_cmp (string_bytes t.name) name.now)) (items terms.now) (option_copied result) }
{
    terms.get(name)
}

/// Goes over the terms from a text on and before another one, in the order of their names.
pub fn terms_between<'t>(terms: &'t IdOrdMap<Term>, from: &str, before: &str) -> Iter<'t, Term>
    ensures { result ≡ filter (λ t. is_ge (slice_cmp nat_cmp (string_bytes t.name) from.now)
        && is_lt (slice_cmp nat_cmp (string_bytes t.name) before.now)) (items terms.now) }
{
    terms.range(from..before)
}

/// Goes over the terms that begin with a text, in the order of their names.
pub fn terms_under<'t>(terms: &'t IdOrdMap<Term>, text: &str) -> Iter<'t, Term>
    ensures { result ≡ filter (λ t. starts_with nat_eq (string_bytes t.name) text.now) (items terms.now) }
{
    terms.matching(Prefix(text))
}

/// Notes that the page which explains a term is another one. Nothing changes if there is no such term.
pub fn move_term(terms: &mut IdOrdMap<Term>, name: &str, page: u32)
    ensures { items terms.new ≡ map (λ (t : Term).
        if is_eq (slice_cmp nat_cmp (string_bytes t.name) name.now) then record t { page = page } else t) (items terms.old) }
{
    terms.update(name, |_| page);
}
