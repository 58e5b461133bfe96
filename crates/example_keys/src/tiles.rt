//! A key that is a pair made of two fields.
ghost use Rattle.std.specs.Prelude.{◌≡◌, ◌==◌, ◌&&◌, ◌∷◌, OnOk, OnErr, IsPermutation, option_copied};
ghost use Rattle.iddqd_bi.specs.Bag.{IsOnly};
ghost use Rattle.iddqd_bi.specs.Map.{bag};

use iddqd_bi::{BiHashMap, Made, MakesKey, Rejected, WithMadeKeys};

/// A tile, known by its row and column together, and by its number.
#[derive(Drop)]
pub struct Tile {
    pub row: u16,
    pub column: u16,
    pub number: u32,
}

impl MakesKey<1> for Tile {
    type Made = (u16, u16);

    ghost made = { λ t. (t.row, t.column) };

    fn make_key(&self) -> (u16, u16) {
        (self.row, self.column)
    }
}

impl MakesKey<2> for Tile {
    type Made = u32;

    ghost made = { λ t. t.number };

    fn make_key(&self) -> u32 {
        self.number
    }
}

/// The tiles of a floor.
pub type Tiles = BiHashMap<WithMadeKeys<Tile>>;

/// Lays a tile. The error has it, and says which of its keys are taken.
pub fn lay(tiles: &mut Tiles, tile: Tile) -> Result<(), Rejected<WithMadeKeys<Tile>>>
    ensures laid { OnOk result (IsPermutation (bag tiles.new) (tile ∷ bag tiles.old)) }
    ensures unchanged { OnErr result (tiles.new ≡ tiles.old) }
{
    tiles.try_insert(WithMadeKeys::new(tile))
}

/// Returns the tile at a place, if there is one.
pub fn tile_at(tiles: &Tiles, row: u16, column: u16) -> Option<&WithMadeKeys<Tile>>
    ensures { IsOnly (λ t. (row == t.row) && (column == t.column)) (bag tiles.now) (option_copied result) }
{
    tiles.get1(Made { key: (row, column) })
}
