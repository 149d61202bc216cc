//! How far back a ring reaches, and the words that this takes.

ghost use Rattle.std.specs.Prelude.{◌≡◌, ◌+◌, ◌<◌, ◌≤◌, ◌^◌};
ghost use Rattle.gl_bits.specs.Words.{IsWidth};
ghost use Rattle.gl_frames_wire.specs.Reaches.{IsPlaceWidth, IsReach, place_bits};

use gl_bits::Word;
use gl_wire::least_exponent;

/// How far back a ring reaches.
#[derive(Clone, Copy, PartialEq, Eq, Debug)]
pub struct Reach {
    /// So many rows before a row.
    pub back: u32,
    /// The bits of a place of the ring.
    pub bits: u8,
}

impl Reach {
    /// That of the smallest ring that has more words than so many rows.
    pub fn new(back: u32) -> Reach
        requires some { 1 ≤ back }
        requires most { back ≤ 2 ^ 16 }
        ensures back { result.back ≡ back }
        ensures bits { result.bits ≡ place_bits back }
        ensures fits { IsReach result }
    {
        let depth = u64::from(back) + 1;
        let bits = least_exponent(depth, 1, depth);
        Reach { back, bits }
    }
}

/// A word of a number that fits it.
pub(crate) fn word(number: u128, width: u8) -> Word
    requires width { IsWidth width }
    requires fits { number < 2 ^ width }
    ensures bits { result.bits ≡ number }
    ensures width { result.width ≡ width }
{
    Word::new(number, width).unwrap()
}

/// How many words a ring has, in the bits of its count.
pub(crate) fn size_word(bits: u8) -> Word
    requires { IsPlaceWidth bits }
    ensures bits { result.bits ≡ 2 ^ bits }
    ensures width { result.width ≡ bits + 1 }
{
    word(1u128 << bits, bits + 1)
}

/// The number behind which a count goes back to the size of its ring.
pub(crate) fn last_word(bits: u8) -> Word
    requires { IsPlaceWidth bits }
    ensures bits { result.bits + 1 ≡ 2 ^ bits + 2 ^ bits }
    ensures width { result.width ≡ bits + 1 }
{
    let size = 1u128 << bits;
    word(size + (size - 1), bits + 1)
}

/// How far back a ring reaches, in the bits of a place.
pub(crate) fn back_word(reach: Reach) -> Word
    requires { IsReach reach }
    ensures bits { result.bits ≡ reach.back }
    ensures width { result.width ≡ reach.bits }
{
    word(u128::from(reach.back), reach.bits)
}

/// How far back a ring reaches, in the bits of its count.
pub(crate) fn many_word(reach: Reach) -> Word
    requires { IsReach reach }
    ensures bits { result.bits ≡ reach.back }
    ensures width { result.width ≡ reach.bits + 1 }
{
    word(u128::from(reach.back), reach.bits + 1)
}
