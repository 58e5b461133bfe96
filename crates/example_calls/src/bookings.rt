//! A pair of a text and a number as a key, asked for by a pair of queries.
ghost use Rattle.std.specs.Prelude.{◌≡◌, ◌==◌, ◌&&◌, filter, if◌then◌else◌, map, nat_eq, nat_lt, string_bytes, IsPermutation, option_copied};
ghost use Rattle.std.specs.Cmp.Lexicographic.{pointwise};
ghost use Rattle.std.specs.List.{list_any};
ghost use Rattle.std.proofs.Common.{rules};
ghost use Rattle.iddqd_id.specs.Bag.{IsOnly};
ghost use Rattle.iddqd_id.specs.Map.{bag};

use iddqd_id::{IdHashItem, IdHashItemMut, IdHashMap};

/// A booking, known by the room and the hour at which it begins, and when it ends.
#[derive(Drop)]
pub struct Booking {
    pub slot: (String, u32),
    pub until: u32,
}

impl IdHashItem for Booking {
    type Key = (String, u32);

    ghost key = { λ b. b.slot };

    fn key(&self) -> &(String, u32) {
        &self.slot
    }
}

impl IdHashItemMut for Booking {
    type Data = u32;

    ghost data_of = { λ b. b.until };

    ghost put = { λ b h. record b { until = h } };

    ghost keeps_key = { Prim.search rules };

    ghost put_shows = { Prim.search rules };

    fn data_mut(&mut self) -> &mut u32 {
        &mut self.until
    }
}

/// Returns the booking of a room that begins at this hour, if there is one.
pub fn booked<'b>(bookings: &'b IdHashMap<Booking>, room: &str, hour: u32) -> Option<&'b Booking>
    ensures { IsOnly (λ b. (pointwise nat_eq room.now (string_bytes b.slot.0)) && (hour == b.slot.1))
        (bag bookings.now) (option_copied result) }
{
    bookings.get((room, &hour))
}

/// Lets the booking of a room that begins at this hour end at another one, and returns whether there is such a booking.
pub fn prolong(bookings: &mut IdHashMap<Booking>, room: &str, hour: u32, until: u32) -> bool
    ensures prolonged { IsPermutation (bag bookings.new) (map (λ (b : Booking).
        if (pointwise nat_eq room.now (string_bytes b.slot.0)) && (hour == b.slot.1) then record b { until = until } else b)
        (bag bookings.old)) }
    ensures found { result ≡ list_any (λ b. (pointwise nat_eq room.now (string_bytes b.slot.0)) && (hour == b.slot.1))
        (bag bookings.old) }
{
    bookings.update((room, &hour), |_booking| until)
}

/// Drops the bookings that have ended.
pub fn clear_past(bookings: &mut IdHashMap<Booking>, hour: u32)
    ensures { IsPermutation (bag bookings.new) (filter (λ b. nat_lt hour b.until) (bag bookings.old)) }
{
    bookings.retain(|booking| booking.until > hour);
}
