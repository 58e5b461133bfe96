//! A key of two parts: files, each known by its user and its name together.
ghost use Rattle.std.specs.Prelude.{◌≡◌, ◌==◌, ◌&&◌, filter, length, nat_eq, option_copied, string_bytes};
ghost use Rattle.std.specs.Cmp.Lexicographic.{slice_cmp};
ghost use Rattle.std.specs.List.{starts_with};
ghost use Rattle.std.specs.Ordering.{is_eq, nat_cmp};
ghost use Rattle.iddqd_ord.specs.Bag.{IsOnly};
ghost use Rattle.iddqd_ord.specs.Items.{items};

use iddqd_ord::{First, FirstTwo, IdOrdItem, IdOrdMap, Iter, Prefix};

/// A file, known by its user and its name.
#[derive(Drop)]
pub struct File {
    pub path: (u32, String),
    pub size: u64,
}

impl IdOrdItem for File {
    type Key = (u32, String);

    ghost key = { λ f. f.path };

    fn key(&self) -> &(u32, String) {
        &self.path
    }
}

/// Returns the file of this user and name, if there is one.
pub fn find_file<'f>(files: &'f IdOrdMap<File>, user: u32, name: &str) -> Option<&'f File>
    ensures { IsOnly (λ f. (f.path.0 == user) && is_eq (slice_cmp nat_cmp (string_bytes f.path.1) name.now))
        (items files.now) (option_copied result) }
{
    files.get((&user, name))
}

/// Returns how many files a user has.
pub fn count_of_user(files: &IdOrdMap<File>, user: u32) -> usize
    ensures { result ≡ length (filter (λ f. f.path.0 == user) (items files.now)) }
{
    files.matching(First(&user)).count()
}

/// Goes over the files of a user whose names begin with a text, in the order of their names.
pub fn of_user_under<'f>(files: &'f IdOrdMap<File>, user: u32, text: &str) -> Iter<'f, File>
    ensures { result ≡ filter (λ f. (f.path.0 == user) && starts_with nat_eq (string_bytes f.path.1) text.now) (items files.now) }
{
    files.matching(FirstTwo(&user, Prefix(text)))
}
