//! Hosts, in the order of their names, which differ in their first bytes.
ghost use Rattle.std.specs.Prelude.{◌≡◌, ◌&&◌, filter, option_copied, string_bytes, nat_eq};
ghost use Rattle.std.specs.List.{starts_with};
ghost use Rattle.std.specs.Ordering.{nat_cmp, is_eq, is_ge, is_lt};
ghost use Rattle.std.specs.Cmp.Lexicographic.{slice_cmp};
ghost use Rattle.iddqd_store.specs.Bag.{IsOnly};
ghost use Rattle.iddqd_ord.specs.Items.{items};

use iddqd_ord::{HeadedStr, HeadedString, IdOrdItem, IdOrdMap, Iter, Prefix};

/// A host, known by its name, and its address.
#[derive(Drop)]
pub struct Host {
    pub name: HeadedString,
    pub address: u32,
}

impl Host {
    /// Makes a host of a name and an address.
    pub fn new(name: String, address: u32) -> Self
        ensures name { result.name ≡ name }
        ensures address { result.address ≡ address }
    {
        Host {
            name: HeadedString::new(name),
            address,
        }
    }
}

impl IdOrdItem for Host {
    type Key = HeadedString;

    ghost key = { λ h. h.name };

    fn key(&self) -> &HeadedString {
        &self.name
    }
}

/// Returns the host of this name, if there is one.
pub fn find_host<'h>(hosts: &'h IdOrdMap<Host>, name: &str) -> Option<&'h Host>
    ensures { IsOnly (λ h. is_eq (slice_cmp nat_cmp (string_bytes h.name) name.now)) (items hosts.now) (option_copied result) }
{
    hosts.get(HeadedStr::new(name))
}

/// Goes over the hosts from a text on and before another one, in the order of their names.
pub fn hosts_between<'h>(hosts: &'h IdOrdMap<Host>, from: &str, before: &str) -> Iter<'h, Host>
    ensures { result ≡ filter (λ h. is_ge (slice_cmp nat_cmp (string_bytes h.name) from.now)
        && is_lt (slice_cmp nat_cmp (string_bytes h.name) before.now)) (items hosts.now) }
{
    hosts.range(HeadedStr::new(from)..HeadedStr::new(before))
}

/// Goes over the hosts whose names begin with a text, in the order of their names.
pub fn hosts_under<'h>(hosts: &'h IdOrdMap<Host>, text: &str) -> Iter<'h, Host>
    ensures { result ≡ filter (λ h. starts_with nat_eq (string_bytes h.name) text.now) (items hosts.now) }
{
    hosts.matching(Prefix(text))
}
