//! A cache of at most a fixed number of pages, each known by its number and by the frame that it is in, in the order in which
//! they were last put or looked up. Each use has a number of its own, so the first page is the one that was used longest ago.
ghost use Rattle.std.specs.Prelude.{◌≡◌, ◌≤◌, ◌<◌, ◌+◌, ◌-◌, ◌^◌, ◌++◌, ◌∷◌, ◌==◌, [], length, All, IfOk, IfErr, IfSome, IfNone, IsOk, OnOk, false, Contains, IsPermutation};
ghost use Rattle.std.specs.Option.{option_to_list};
ghost use Rattle.iddqd_store.specs.Bag.{IsOnly};
ghost use Rattle.iddqd_sorted.specs.Items.{items};
ghost use Rattle.example_cache.specs.Uses.{is_taken, others};

use iddqd_bi::{BiHashItem, TryReserveError};
use iddqd_sorted::{BiHashOrdMap, Sortable};
use std::alloc::Global;

/// A page in its frame, with what it holds, and the use by which it was last used. The cache sets `used` of the pages in it.
#[derive(Clone, Copy)]
pub struct Page {
    pub number: u64,
    pub frame: u32,
    pub used: u64,
    pub value: u64,
}

impl BiHashItem for Page {
    type K1 = u64;

    type K2 = u32;

    ghost key1 = { λ p. p.number };

    ghost key2 = { λ p. p.frame };

    fn key1(&self) -> &u64 {
        &self.number
    }

    fn key2(&self) -> &u32 {
        &self.frame
    }
}

impl Sortable for Page {
    type SortKey = u64;

    ghost sort_key = { λ p. p.used };

    fn sort_key(&self) -> u64 {
        self.used
    }
}

/// A cache of at most `limit` pages. All of its memory is allocated when it is made.
#[derive(Drop)]
pub struct Cache {
    pages: BiHashOrdMap<Page>,
    limit: usize,
    /// The number of the next use.
    clock: u64,
    ghost some: { 0 < limit },
    ghost bounded: { length (items pages) ≤ limit },
    ghost room: { limit ≤ pages.capacity },
    ghost before: { All (λ p. p.used < clock) (items pages) },
}

impl Cache {
    /// Makes an empty cache. Only this call allocates memory.
    pub fn new(alloc: Global, limit: usize) -> Result<Self, TryReserveError>
        requires { 0 < limit }
        ensures empty { IfOk result (λ c. items c.pages ≡ []) }
        ensures limit { IfOk result (λ c. c.limit ≡ limit) }
        ensures memory { IfOk result (λ c. c.pages.capacity ≡ limit) }
    {
        Ok(Cache {
            pages: BiHashOrdMap::with_capacity(alloc, limit)?,
            limit,
            clock: 0,
        })
    }

    /// Inserts a page in place of those with its number or its frame. If there are none and the cache is full, the page that
    /// was used longest ago leaves, and is returned. All other pages stay. No memory is allocated, and the call never fails.
    ///
    /// The uses are numbered from 0. After the largest `u64` the cache begins anew, empty.
    #[tactic(auto, using(crate::proofs::Uses::free_now))]
    pub fn put(&mut self, page: Page) -> Option<Page>
        ensures entered { self.old.clock + 1 < 2 ^ 64 → option_to_list result ++ items self.new.pages
            ≡ others (items self.old.pages) page ++ record page { used = self.old.clock } ∷ [] }
        ensures full { IfSome result (λ _. length (items self.old.pages) ≡ self.old.limit) }
        ensures free { IfSome result (λ _. is_taken (items self.old.pages) page ≡ false) }
        ensures evicted { IfSome result (λ g. All (λ p. g.used ≤ p.used) (items self.old.pages)) }
        ensures begins_anew { self.old.clock + 1 ≡ 2 ^ 64 → items self.new.pages ≡ record page { used = 0 } ∷ [] }
        ensures newest { Contains (items self.new.pages) (record page { used = self.new.clock - 1 }) }
        ensures limit { self.new.limit ≡ self.old.limit }
        ensures same_memory { self.new.pages.capacity ≡ self.old.pages.capacity }
    {
        if self.clock == u64::MAX {
            self.pages.clear();
            insert(&mut self.pages, Page { used: 0, ..page });
            self.clock = 1;
            return None;
        }
        let page = Page {
            used: self.clock,
            ..page
        };
        let gone = make_place(&mut self.pages, self.limit, &page);
        insert(&mut self.pages, page);
        self.clock += 1;
        gone
    }

    /// Inserts a page if no page has its number or its frame. If the cache is full, the page that was used longest ago leaves
    /// first, and is returned. If a page has the number or the frame, the new one comes back, and nothing changes. No memory
    /// is allocated.
    #[tactic(auto, using(crate::proofs::Uses::all_others))]
    pub fn admit(&mut self, page: Page) -> Result<Option<Page>, Page>
        ensures went_in { IfOk result (λ gone. self.old.clock + 1 < 2 ^ 64 → option_to_list gone ++ items self.new.pages
            ≡ items self.old.pages ++ record page { used = self.old.clock } ∷ []) }
        ensures evicted { IfOk result (λ gone. IfSome gone (λ g. (length (items self.old.pages) ≡ self.old.limit)
            × All (λ p. g.used ≤ p.used) (items self.old.pages))) }
        ensures begins_anew { OnOk result (self.old.clock + 1 ≡ 2 ^ 64
            → items self.new.pages ≡ record page { used = 0 } ∷ []) }
        ensures refused { IfErr result (λ p. (p ≡ page) × (self.new ≡ self.old)) }
        ensures free { OnOk result (is_taken (items self.old.pages) page ≡ false) }
        ensures granted { is_taken (items self.old.pages) page ≡ false → IsOk result }
        ensures limit { self.new.limit ≡ self.old.limit }
        ensures same_memory { self.new.pages.capacity ≡ self.old.pages.capacity }
    {
        if is_taken(&self.pages, &page) {
            return Err(page);
        }
        Ok(self.put(page))
    }

    /// Returns the page with this number, if it is in the cache, which makes it the page that was used last. Once the uses
    /// have reached the largest `u64`, they are no longer counted until the next page goes in.
    #[tactic(auto, using(iddqd_sorted::proofs::Finding::only_there))]
    pub fn page(&mut self, number: u64) -> Option<Page>
        ensures found { IsOnly (λ p. number == p.number) (items self.old.pages) result }
        ensures counted { IfSome result (λ p. self.old.clock + 1 < 2 ^ 64 → IsPermutation (p ∷ items self.new.pages)
            (record p { used = self.old.clock } ∷ items self.old.pages)) }
        ensures not_counted { self.old.clock + 1 ≡ 2 ^ 64 → self.new ≡ self.old }
        ensures absent { IfNone result (self.new ≡ self.old) }
        ensures limit { self.new.limit ≡ self.old.limit }
        ensures same_memory { self.new.pages.capacity ≡ self.old.pages.capacity }
    {
        let page = self.pages.get1(&number).copied()?;
        self.count_use(page);
        Some(page)
    }

    /// Returns the page in this frame, if there is one, which makes it the page that was used last, as `page` does.
    #[tactic(auto, using(iddqd_sorted::proofs::Finding::only_there))]
    pub fn in_frame(&mut self, frame: u32) -> Option<Page>
        ensures found { IsOnly (λ p. frame == p.frame) (items self.old.pages) result }
        ensures counted { IfSome result (λ p. self.old.clock + 1 < 2 ^ 64 → IsPermutation (p ∷ items self.new.pages)
            (record p { used = self.old.clock } ∷ items self.old.pages)) }
        ensures not_counted { self.old.clock + 1 ≡ 2 ^ 64 → self.new ≡ self.old }
        ensures absent { IfNone result (self.new ≡ self.old) }
        ensures limit { self.new.limit ≡ self.old.limit }
        ensures same_memory { self.new.pages.capacity ≡ self.old.pages.capacity }
    {
        let page = self.pages.get2(&frame).copied()?;
        self.count_use(page);
        Some(page)
    }

    /// Returns how many pages there are.
    pub fn len(&self) -> usize
        ensures value { result ≡ length (items self.now.pages) }
        ensures bounded { result ≤ self.now.limit }
    {
        self.pages.len()
    }

    /// Makes a page of the cache the one that was used last. No table is written.
    #[tactic(auto, using(crate::proofs::Uses::used_again))]
    fn count_use(&mut self, page: Page)
        requires { Contains (items self.old.pages) page }
        ensures counted { self.old.clock + 1 < 2 ^ 64 → IsPermutation (page ∷ items self.new.pages)
            (record page { used = self.old.clock } ∷ items self.old.pages) }
        ensures not_counted { self.old.clock + 1 ≡ 2 ^ 64 → self.new ≡ self.old }
        ensures limit { self.new.limit ≡ self.old.limit }
        ensures same_memory { self.new.pages.capacity ≡ self.old.pages.capacity }
    {
        if self.clock == u64::MAX {
            return;
        }
        let again = Page {
            used: self.clock,
            ..page
        };
        match self.pages.replace(again) {
            Ok(_) => self.clock += 1,
            // The page is in the cache.
            Err(_) => unreachable!(),
        }
    }
}

/// Returns whether a page has the number or the frame of this one.
fn is_taken(pages: &BiHashOrdMap<Page>, page: &Page) -> bool
    ensures { result ≡ is_taken (items pages.now) page.now }
{
    pages.contains_key1(&page.number) || pages.contains_key2(&page.frame)
}

/// Removes the pages with the number or the frame of this one or, if there are none and the cache is full, the page that was
/// used longest ago, which is returned.
#[tactic(auto, using(crate::proofs::Uses::all_others, crate::proofs::Uses::fewer_others))]
fn make_place(pages: &mut BiHashOrdMap<Page>, limit: usize, page: &Page) -> Option<Page>
    requires some { 0 < limit }
    requires bounded { length (items pages.old) ≤ limit }
    ensures gone { option_to_list result ++ items pages.new ≡ others (items pages.old) page.now }
    ensures full { IfSome result (λ _. length (items pages.old) ≡ limit) }
    ensures free { IfSome result (λ _. is_taken (items pages.old) page.now ≡ false) }
    ensures evicted { IfSome result (λ g. All (λ p. g.used ≤ p.used) (items pages.old)) }
    ensures place { length (items pages.new) < limit }
    ensures same_room { pages.new.capacity ≡ pages.old.capacity }
{
    if is_taken(pages, page) {
        pages.remove1(&page.number);
        pages.remove2(&page.frame);
        return None;
    }
    if pages.len() < limit {
        return None;
    }
    match pages.pop_first() {
        Some(gone) => Some(gone),
        // The limit is not 0, so there is a page.
        None => unreachable!(),
    }
}

/// Inserts a page that was used last. There is a place for it.
#[tactic(auto, using(crate::proofs::Uses::comes_last))]
fn insert(pages: &mut BiHashOrdMap<Page>, page: Page)
    requires free { is_taken (items pages.old) page ≡ false }
    requires place { length (items pages.old) < pages.old.capacity }
    requires before { All (λ p. p.used < page.used) (items pages.old) }
    ensures came { items pages.new ≡ items pages.old ++ page ∷ [] }
    ensures same_room { pages.new.capacity ≡ pages.old.capacity }
{
    match pages.try_insert(page) {
        Ok(()) => {}
        // No page has the number or the frame, and there is a place.
        Err(_) => unreachable!(),
    }
}
