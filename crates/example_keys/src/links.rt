//! A path and a socket address as keys.
ghost use Rattle.std.specs.Prelude.{◌≡◌, ◌∷◌, OnOk, OnErr, IsPermutation, option_copied};
ghost use Rattle.iddqd_bi.specs.Bag.{IsOnly};
ghost use Rattle.iddqd_bi.specs.Map.{bag};

use iddqd_bi::{BiHashItem, BiHashMap, Rejected};
use std::net::SocketAddrV4;
use std::path::PathBuf;

/// A link, known by its path and by its peer.
#[derive(Drop)]
pub struct Link {
    pub path: PathBuf,
    pub peer: SocketAddrV4,
}

impl BiHashItem for Link {
    type K1 = PathBuf;

    type K2 = SocketAddrV4;

    ghost key1 = { λ l. l.path };

    ghost key2 = { λ l. l.peer };

    fn key1(&self) -> &PathBuf {
        &self.path
    }

    fn key2(&self) -> &SocketAddrV4 {
        &self.peer
    }
}

/// Opens a link. The error has it, and says which of its keys are taken.
pub fn open(links: &mut BiHashMap<Link>, link: Link) -> Result<(), Rejected<Link>>
    ensures went_in { OnOk result (IsPermutation (bag links.new) (link ∷ bag links.old)) }
    ensures unchanged { OnErr result (links.new ≡ links.old) }
{
    links.try_insert(link)
}

/// Returns the link with this peer, if there is one.
pub fn with_peer(links: &BiHashMap<Link>, peer: SocketAddrV4) -> Option<&Link>
    ensures { IsOnly (λ l. ⟦<SocketAddrV4 as PartialEq>⟧.eq peer l.peer) (bag links.now) (option_copied result) }
{
    links.get2(&peer)
}

/// Returns the link with this path, if there is one.
pub fn with_path<'l>(links: &'l BiHashMap<Link>, path: &PathBuf) -> Option<&'l Link>
    ensures { IsOnly (λ l. ⟦<PathBuf as PartialEq>⟧.eq path.now l.path) (bag links.now) (option_copied result) }
{
    links.get1(path)
}
