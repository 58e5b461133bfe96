//! The items of callers that use keys of some types: symbols, files and words.
ghost use Rattle.std.proofs.Common.{rules};

use iddqd_bi::{BiHashItem, BiHashItemMut};

/// A symbol, known by its name and by its place: the section, and the distance from the section's start.
#[derive(Drop)]
pub struct Symbol {
    pub name: String,
    pub place: (String, u32),
    pub size: u64,
}

impl BiHashItem for Symbol {
    type K1 = String;

    type K2 = (String, u32);

    ghost key1 = { λ s. s.name };

    ghost key2 = { λ s. s.place };

    fn key1(&self) -> &String {
        &self.name
    }

    fn key2(&self) -> &(String, u32) {
        &self.place
    }
}

/// A file, known by its number and by its place, and how often it was opened.
#[derive(Drop)]
pub struct File {
    pub number: u64,
    pub place: u64,
    pub opened: u64,
}

impl BiHashItem for File {
    type K1 = u64;

    type K2 = u64;

    ghost key1 = { λ f. f.number };

    ghost key2 = { λ f. f.place };

    fn key1(&self) -> &u64 {
        &self.number
    }

    fn key2(&self) -> &u64 {
        &self.place
    }
}

impl BiHashItemMut for File {
    type Data = u64;

    ghost data_of = { λ f. f.opened };

    ghost put = { λ f n. record f { opened = n } };

    ghost keeps_key1 = { Prim.search rules };

    ghost keeps_key2 = { Prim.search rules };

    ghost put_shows = { Prim.search rules };

    fn data_mut(&mut self) -> &mut u64 {
        &mut self.opened
    }
}

/// A word, known by its text and by its number.
#[derive(Drop)]
pub struct Word {
    pub text: &'static str,
    pub number: u64,
}

impl BiHashItem for Word {
    type K1 = &'static str;

    type K2 = u64;

    ghost key1 = { λ w. w.text };

    ghost key2 = { λ w. w.number };

    fn key1(&self) -> &&'static str {
        &self.text
    }

    fn key2(&self) -> &u64 {
        &self.number
    }
}
