//! A key that a getter returns by value, and a key out of a bit field: neither is a part of the item to borrow.
ghost use Rattle.std.specs.Prelude.{◌≡◌, ◌==◌, ◌∷◌, ◌/◌, OnOk, OnErr, IfErr, IfSome, IfNone, IsPermutation, option_copied};
ghost use Rattle.iddqd_bi.specs.Bag.{IsOnly};
ghost use Rattle.iddqd_bi.specs.Map.{bag};

use iddqd_bi::{BiHashMap, Made, MakesKey, WithMadeKeys};

/// A frame, known by its number and by its port, which is what the word `bits` has above its four low bits.
#[derive(Debug, Drop, PartialEq)]
pub struct Frame {
    number: u32,
    pub bits: u16,
    pub text: String,
}

impl Frame {
    /// Makes a frame.
    pub fn new(number: u32, bits: u16, text: String) -> Self
        ensures { result ≡ record { number = number; bits = bits; text = text } }
    {
        Frame { number, bits, text }
    }

    /// Returns the number.
    pub fn number(&self) -> u32
        ensures { result ≡ self.now.number }
    {
        self.number
    }
}

impl MakesKey<1> for Frame {
    type Made = u32;

    ghost made = { λ f. f.number };

    fn make_key(&self) -> u32 {
        self.number()
    }
}

impl MakesKey<2> for Frame {
    type Made = u16;

    ghost made = { λ f. f.bits / 16 };

    fn make_key(&self) -> u16 {
        self.bits / 16
    }
}

/// Keeps a frame, or returns it if there is one with its number or its port, or if there is no memory.
pub fn keep(frames: &mut BiHashMap<WithMadeKeys<Frame>>, frame: Frame) -> Result<(), Frame>
    ensures kept { OnOk result (IsPermutation (bag frames.new) (frame ∷ bag frames.old)) }
    ensures handed_back { IfErr result (λ f. f ≡ frame) }
    ensures unchanged { OnErr result (frames.new ≡ frames.old) }
{
    frames
        .try_insert(WithMadeKeys::new(frame))
        .map_err(|rejected| rejected.item.into_item())
}

/// Returns the frame with this number, if there is one.
pub fn numbered(frames: &BiHashMap<WithMadeKeys<Frame>>, number: u32) -> Option<&Frame>
    ensures { IsOnly (λ f. number == f.number) (bag frames.now) (option_copied result) }
{
    let found = frames.get1(Made { key: number })?;
    Some(found.item())
}

/// Removes the frame at this port, and returns it, if there is one.
pub fn take_from(frames: &mut BiHashMap<WithMadeKeys<Frame>>, port: u16) -> Option<Frame>
    ensures it { IsOnly (λ f. port == f.bits / 16) (bag frames.old) result }
    ensures gone { IfSome result (λ f. IsPermutation (bag frames.old) (f ∷ bag frames.new)) }
    ensures none { IfNone result (frames.new ≡ frames.old) }
{
    let taken = frames.remove2(Made { key: port })?;
    Some(taken.into_item())
}

/// Returns whether both maps have equal frames. This compares whole frames, and not their keys alone.
pub fn are_same(
    frames: &BiHashMap<WithMadeKeys<Frame>>,
    others: &BiHashMap<WithMadeKeys<Frame>>,
) -> bool {
    *frames == *others
}
