//! Words of 1 to 128 bits.

ghost use Rattle.std.specs.Prelude.{◌≡◌, ◌+◌, ◌-◌, ◌%◌, ◌^◌, ◌<◌, ◌≤◌, ◌↔◌, IfSome, IsSome, bit_and, bit_or, bit_xor};
ghost use Rattle.gl_bits.specs.Words.{IsWord, bit as bit_of, choose_of, cut_of, difference_of, eq_of, join_of, lt_of, not_of, product_of, sum_of};

use std::hash::Hash;
use std::marker::Model;

/// A number below `2^width`, with its width of 1 to 128 bits.
#[derive(Clone, Copy, PartialEq, Eq, Hash, Debug)]
pub struct Word {
    bits: u128,
    width: u8,
}

impl Model for Word {
    ghost use Rattle.gl_bits.specs.Words.{Word, IsWord};

    ghost Value = { Word };

    ghost view = { λ w. record { bits = w.bits; width = w.width } };

    ghost invariant = { λ w. IsWord (record { bits = w.bits; width = w.width }) };

    ghost inverse = { λ v. record { bits = v.bits; width = v.width } };
}

impl Word {
    /// The word of this number and width; None where the width is 0 or above 128, or the number
    /// does not fit it.
    pub fn new(bits: u128, width: u8) -> Option<Word>
        ensures given { IsSome result ↔ ((1 ≤ width) × (width ≤ 128) × (bits < 2 ^ width)) }
        ensures bits { IfSome result (λ w. w.bits ≡ bits) }
        ensures width { IfSome result (λ w. w.width ≡ width) }
    {
        if width == 0 || width > 128 {
            return None;
        }
        if width < 128 && bits >= 1u128 << width {
            return None;
        }
        Some(Word { bits, width })
    }

    /// The number.
    pub fn bits(self) -> u128
        ensures value { result ≡ self.bits }
        ensures word { IsWord self }
    {
        self.bits
    }

    /// The width in bits.
    pub fn width(self) -> u8
        ensures value { result ≡ self.width }
        ensures word { IsWord self }
    {
        self.width
    }

    /// The sum, which wraps in the width.
    #[tactic(auto, using(crate::proofs::Wrapping::sum_wraps))]
    pub fn add(self, other: Word) -> Word
        requires { self.width ≡ other.width }
        ensures bits { result.bits ≡ sum_of self.width self.bits other.bits }
        ensures width { result.width ≡ self.width }
    {
        Word {
            bits: wrapped(self.bits.wrapping_add(other.bits), self.width),
            width: self.width,
        }
    }

    /// The difference, which wraps in the width.
    #[tactic(auto, using(crate::proofs::Wrapping::difference_whole, crate::proofs::Wrapping::difference_wraps))]
    pub fn sub(self, other: Word) -> Word
        requires { self.width ≡ other.width }
        ensures bits { result.bits ≡ difference_of self.width self.bits other.bits }
        ensures width { result.width ≡ self.width }
    {
        let bits = if other.bits <= self.bits {
            self.bits - other.bits
        } else {
            self.bits + (greatest(self.width) - other.bits) + 1
        };
        Word {
            bits,
            width: self.width,
        }
    }

    /// The product, which wraps in the width.
    #[tactic(auto, using(crate::proofs::Wrapping::product_wraps))]
    pub fn mul(self, other: Word) -> Word
        requires { self.width ≡ other.width }
        ensures bits { result.bits ≡ product_of self.width self.bits other.bits }
        ensures width { result.width ≡ self.width }
    {
        Word {
            bits: wrapped(self.bits.wrapping_mul(other.bits), self.width),
            width: self.width,
        }
    }

    /// The bits that are 1 in both.
    pub fn and(self, other: Word) -> Word
        requires { self.width ≡ other.width }
        ensures bits { result.bits ≡ bit_and self.bits other.bits }
        ensures width { result.width ≡ self.width }
    {
        Word {
            bits: self.bits & other.bits,
            width: self.width,
        }
    }

    /// The bits that are 1 in one at least.
    #[tactic(auto, using(std::proofs::lemmas::Nat::or_lt))]
    pub fn or(self, other: Word) -> Word
        requires { self.width ≡ other.width }
        ensures bits { result.bits ≡ bit_or self.bits other.bits }
        ensures width { result.width ≡ self.width }
    {
        Word {
            bits: self.bits | other.bits,
            width: self.width,
        }
    }

    /// The bits that are 1 in exactly one.
    #[tactic(auto, using(std::proofs::lemmas::Nat::xor_lt))]
    pub fn xor(self, other: Word) -> Word
        requires { self.width ≡ other.width }
        ensures bits { result.bits ≡ bit_xor self.bits other.bits }
        ensures width { result.width ≡ self.width }
    {
        Word {
            bits: self.bits ^ other.bits,
            width: self.width,
        }
    }

    /// Every bit inverted.
    #[tactic(auto, unfolding(crate::specs::Words::not_of))]
    pub fn not(self) -> Word
        ensures bits { result.bits ≡ not_of self.width self.bits }
        ensures width { result.width ≡ self.width }
    {
        Word {
            bits: greatest(self.width) - self.bits,
            width: self.width,
        }
    }

    /// One bit: whether the numbers are equal.
    #[tactic(auto, unfolding(crate::specs::Words::eq_of))]
    pub fn eq(self, other: Word) -> Word
        requires { self.width ≡ other.width }
        ensures bits { result.bits ≡ eq_of self.bits other.bits }
        ensures width { result.width ≡ 1 }
    {
        bit(self.bits == other.bits)
    }

    /// One bit: whether this number is below the other.
    #[tactic(auto, unfolding(crate::specs::Words::lt_of))]
    pub fn lt(self, other: Word) -> Word
        requires { self.width ≡ other.width }
        ensures bits { result.bits ≡ lt_of self.bits other.bits }
        ensures width { result.width ≡ 1 }
    {
        bit(self.bits < other.bits)
    }

    /// These bits above those of the other.
    #[tactic(auto, using(crate::proofs::Wrapping::join_whole, crate::proofs::Wrapping::join_fits))]
    pub fn join(self, low: Word) -> Word
        requires { self.width + low.width ≤ 128 }
        ensures bits { result.bits ≡ join_of low.width self.bits low.bits }
        ensures width { result.width ≡ self.width + low.width }
    {
        Word {
            bits: (self.bits << low.width) + low.bits,
            width: self.width + low.width,
        }
    }

    /// The bits from `low` to `high`, both among them.
    #[tactic(auto, unfolding(crate::specs::Words::cut_of))]
    pub fn cut(self, high: u8, low: u8) -> Word
        requires order { low ≤ high }
        requires inside { high < self.width }
        ensures bits { result.bits ≡ cut_of high low self.bits }
        ensures width { result.width ≡ high + 1 - low }
    {
        let width = high + 1 - low;
        Word {
            bits: wrapped(self.bits >> low, width),
            width,
        }
    }

    /// The same number in a width that is not below its own.
    #[tactic(auto, using(crate::proofs::Wrapping::fits_wider))]
    pub fn extend(self, width: u8) -> Word
        requires wider { self.width ≤ width }
        requires most { width ≤ 128 }
        ensures bits { result.bits ≡ self.bits }
        ensures width { result.width ≡ width }
    {
        Word {
            bits: self.bits,
            width,
        }
    }

    /// The first where this bit is 1, else the second.
    #[tactic(auto, unfolding(crate::specs::Words::choose_of))]
    pub fn choose(self, yes: Word, no: Word) -> Word
        requires bit { self.width ≡ 1 }
        requires widths { yes.width ≡ no.width }
        ensures bits { result.bits ≡ choose_of self.bits yes.bits no.bits }
        ensures width { result.width ≡ yes.width }
    {
        if self.bits == 1 { yes } else { no }
    }
}

// The greatest number of a width.
fn greatest(width: u8) -> u128
    requires some { 1 ≤ width }
    requires most { width ≤ 128 }
    ensures { result + 1 ≡ 2 ^ width }
{
    if width == 128 {
        u128::MAX
    } else {
        (1u128 << width) - 1
    }
}

// The number without the bits past a width.
pub fn wrapped(number: u128, width: u8) -> u128
    requires some { 1 ≤ width }
    requires most { width ≤ 128 }
    ensures { result ≡ number % 2 ^ width }
{
    if width == 128 {
        number
    } else {
        number % (1u128 << width)
    }
}

// One bit: 1 where the fact holds.
fn bit(holds: bool) -> Word
    ensures bits { result.bits ≡ bit_of holds }
    ensures width { result.width ≡ 1 }
{
    Word {
        bits: u128::from(holds),
        width: 1,
    }
}
