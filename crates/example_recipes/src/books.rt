//! A map in a map: books of orders, each known by its name and by its shelf.
ghost use Rattle.std.specs.Prelude.{◌≡◌, ◌<◌, [], ◌∷◌, nat_eq, string_bytes, length, true, false, None, Some, IsPermutation};
ghost use Rattle.std.specs.Cmp.Lexicographic.{pointwise};
ghost use Rattle.std.proofs.Common.{rules};
ghost use Rattle.iddqd_bi.specs.Bag.{IsOnly, conflicts_of, swap};
ghost use Rattle.iddqd_bi.specs.Map.{bag};

use crate::orders::Order;
use iddqd_bi::{BiHashItem, BiHashItemMut, BiHashMap, Ranked};

/// A book of orders.
#[derive(Drop)]
pub struct Book {
    pub name: String,
    pub shelf: u32,
    pub orders: BiHashMap<Order>,
}

impl BiHashItem for Book {
    type K1 = String;

    type K2 = u32;

    ghost key1 = { λ b. b.name };

    ghost key2 = { λ b. b.shelf };

    fn key1(&self) -> &String {
        &self.name
    }

    fn key2(&self) -> &u32 {
        &self.shelf
    }
}

impl BiHashItemMut for Book {
    type Data = BiHashMap<Order>;

    ghost data_of = { λ b. b.orders };

    ghost put = { λ b m. record b { orders = m } };

    ghost keeps_key1 = { Prim.search rules };

    ghost keeps_key2 = { Prim.search rules };

    ghost put_shows = { Prim.search rules };

    fn data_mut(&mut self) -> &mut BiHashMap<Order> {
        &mut self.orders
    }
}

/// Enters an order into the book with this name. Returns whether there is such a book, and the order went in.
pub fn enter(books: &mut BiHashMap<Book>, name: &str, order: Order) -> bool
    ensures entered { result ≡ true → (b c : Book)
        × IsOnly (λ b. pointwise nat_eq name.now (string_bytes b.name)) (bag books.old) (Some b)
        × (c.name ≡ b.name) × (c.shelf ≡ b.shelf) × IsPermutation (bag c.orders) (order ∷ bag b.orders)
        × IsPermutation (bag books.new) (swap ⟦<Book as Ranked>⟧.ranks (bag books.old) b c) }
    ensures granted { (b : Book) → IsOnly (λ b. pointwise nat_eq name.now (string_bytes b.name)) (bag books.old) (Some b)
        → conflicts_of ⟦<Order as Ranked>⟧.ranks (bag b.orders) order ≡ []
        → length (bag b.orders) < b.orders.capacity → result ≡ true }
    ensures refused { (b : Book) → IsOnly (λ b. pointwise nat_eq name.now (string_bytes b.name)) (bag books.old) (Some b)
        → result ≡ false → (c : Book) × (c.name ≡ b.name) × (c.shelf ≡ b.shelf) × (c.orders ≡ b.orders)
        × IsPermutation (bag books.new) (swap ⟦<Book as Ranked>⟧.ranks (bag books.old) b c) }
    ensures absent { IsOnly (λ b. pointwise nat_eq name.now (string_bytes b.name)) (bag books.old) None
        → books.new ≡ books.old }
{
    match books.data1_mut(name) {
        Some(orders) => orders.try_insert(order).is_ok(),
        None => false,
    }
}
