//! Digits become numbers, which are compared with powers of two, whatever their size.

ghost use Rattle.std.specs.Prelude.{◌≡◌, ◌+◌, ◌*◌, ◌/◌, ◌%◌, ◌^◌, ◌<◌, ◌≤◌, ◌&&◌, nat_lt, nat_le, false, true, MatchOption, MatchResult, IfNone, IfSome, IfOk};
ghost use Rattle.gl_verilog.specs.Resolve as resolve;
ghost use Rattle.gl_verilog.specs.Tokens.{number_in};
ghost use Rattle.gl_verilog.specs.Tokens as tokens;
ghost use Rattle.gl_verilog_elaborator.specs.Numbers.{value_of, grown};
ghost use Rattle.gl_verilog_elaborator.specs.View.{is_broken};

use crate::stop::Stop;
use gl_verilog_tokens::{digit_of, small_number};
use std::alloc::{AllocError, Global};

// The number so far, and one more digit, where it is below 2^128.
#[tactic(auto, using(crate::proofs::Powers::positives))]
fn with_digit(radix: u8, number: u128, b: u8) -> Option<u128>
    ensures radix { IfNone result (1 ≤ radix) }
    ensures small { IfSome result (λ n. n < 2 ^ 128) }
    ensures value { MatchOption result (2 ^ 128 ≤ tokens.with_digit radix number b) (λ n. n
        ≡ tokens.with_digit radix number b) }
{
    if b == b'_' {
        return Some(number);
    }
    let shifted = number.checked_mul(u128::from(radix))?;
    shifted.checked_add(u128::from(digit_of(b)))
}

/// The number of these digits, where it is below 2^128.
pub(crate) fn big_number(radix: u8, digits: &[u8]) -> Option<u128>
    ensures { MatchOption result (2 ^ 128 ≤ number_in radix digits.now) (λ n. n
        ≡ number_in radix digits.now) }
{
    let mut number = 0u128;
    for b in digits {
        number = with_digit(radix, number, *b)?;
    }
    Some(number)
}

/// The low bits of a limb times a radix, and what is carried on.
#[derive(Clone, Copy)]
pub struct Grown {
    /// The low 32 bits.
    pub low: u32,
    /// What the next limb takes over.
    pub carry: u8,
}

// A limb times a radix, and what was carried.
#[tactic(auto, using(crate::proofs::Powers::limbs))]
fn grow_limb(limb: u32, radix: u8, carry: u8) -> Grown
    ensures low { result.low ≡ (limb * radix + carry) % 4294967296 }
    ensures carry { result.carry ≡ (limb * radix + carry) / 4294967296 }
{
    let sum = u64::from(limb) * u64::from(radix) + u64::from(carry);
    Grown {
        low: (sum % 4_294_967_296) as u32,
        carry: (sum / 4_294_967_296) as u8,
    }
}

// Limbs times a radix, and a digit more.
fn grow(alloc: Global, limbs: &[u32], radix: u8, digit: u8) -> Result<Vec<u32>, AllocError>
    ensures { IfOk result (λ v. v.items ≡ grown radix digit limbs.now) }
{
    let mut all = Vec::new(alloc);
    let mut carry = digit;
    for limb in limbs {
        let next = grow_limb(*limb, radix, carry);
        all.push(next.low)?;
        carry = next.carry;
    }
    if carry > 0 {
        all.push(u32::from(carry))?;
    }
    Ok(all)
}

// Limbs, and one more digit.
fn take_digit(alloc: Global, limbs: Vec<u32>, radix: u8, b: u8) -> Result<Vec<u32>, AllocError>
    ensures { IfOk result (λ v. value_of v.items
        ≡ tokens.with_digit radix (value_of limbs.items) b) }
{
    if b == b'_' {
        return Ok(limbs);
    }
    // Named, since a goal speaks of the value.
    let grown = grow(alloc, &limbs, radix, digit_of(b))?;
    Ok(grown)
}

// Whether a limb is below a power of two.
#[tactic(auto, using(crate::proofs::Powers::limb_fits_far))]
fn limb_fits(limb: u32, size: u32) -> bool
    ensures fits { result ≡ nat_lt limb (2 ^ size) }
    ensures small { limb < 4294967296 }
{
    size >= 32 || u64::from(limb) < 1u64 << size
}

// Whether limbs are below a power of two.
fn are_below(limbs: &[u32], size: u32) -> bool
    ensures { result ≡ nat_lt (value_of limbs.now) (2 ^ size) }
{
    let mut left = size;
    for limb in limbs {
        if !limb_fits(*limb, left) {
            return false;
        }
        left = left.saturating_sub(32);
    }
    true
}

// Whether the number of these digits is below a power of two. The time grows with the square of the
// number of digits where it is close to that power.
fn is_below(alloc: Global, radix: u8, digits: &[u8], size: u32) -> Result<bool, AllocError>
    ensures { IfOk result (λ b. b ≡ nat_lt (number_in radix digits.now) (2 ^ size)) }
{
    let mut limbs = Vec::new(alloc);
    for b in digits {
        limbs = take_digit(alloc, limbs, radix, *b)?;
        if radix > 0 && !are_below(&limbs, size) {
            return Ok(false);
        }
    }
    Ok(are_below(&limbs, size))
}

// Whether a number is below a power of two.
#[tactic(auto, using(crate::proofs::Powers::fits_far))]
fn fits(value: u128, size: u32) -> bool
    ensures { result ≡ nat_lt value (2 ^ size) }
{
    size >= 128 || value < 1u128 << size
}

// The bits that any digit needs at most.
fn digit_bits(_radix: u8, _b: u8) -> u32
    ensures bits { result ≡ 8 }
    ensures radix { _radix < 256 }
    ensures digit { _b < 256 }
{
    8
}

// Whether digits are so few that any number of them is below a power of two.
fn are_few(radix: u8, digits: &[u8], size: u32) -> bool
    ensures { result ≡ true → number_in radix digits.now < 2 ^ size }
{
    let mut bits = 0u32;
    for b in digits {
        let more = digit_bits(radix, *b);
        if size - bits < more {
            return false;
        }
        bits += more;
    }
    true
}

// Whether the number of these digits is below a power of two.
#[tactic(auto, using(crate::proofs::Powers::few_fit))]
fn number_fits(alloc: Global, size: u32, radix: u8, digits: &[u8]) -> Result<bool, AllocError>
    ensures { IfOk result (λ b. b ≡ nat_lt (number_in radix digits.now) (2 ^ size)) }
{
    if let Some(value) = big_number(radix, digits) {
        return Ok(fits(value, size));
    }
    if are_few(radix, digits, size) {
        return Ok(true);
    }
    is_below(alloc, radix, digits, size)
}

/// Whether a literal has a bit, and its number fits the bits that it has. A size that is not below
/// 2^32 is that of no token: its literal counts as one that wants too much memory.
pub(crate) fn literal_fits(
    alloc: Global,
    size: &[u8],
    radix: u8,
    digits: &[u8],
) -> Result<bool, Stop>
    ensures { MatchResult result (λ b. b ≡ (nat_le 1 (resolve.decimal_number size.now)
        && nat_lt (number_in radix digits.now) (2 ^ resolve.decimal_number size.now)))
        (λ e. is_broken e ≡ false) }
{
    let Some(size) = small_number(size) else {
        return Err(Stop::Memory);
    };
    if size < 1 {
        return Ok(false);
    }
    Ok(number_fits(alloc, size, radix, digits)?)
}

/// A number of bits, where it is at most 128.
pub(crate) fn narrow(digits: &[u8]) -> Option<u8>
    ensures { MatchOption result (nat_le (resolve.decimal_number digits.now) 128 ≡ false)
        (λ n. (n ≡ resolve.decimal_number digits.now) × (n ≤ 128)) }
{
    let number = small_number(digits)?;
    if number <= 128 {
        Some(number as u8)
    } else {
        None
    }
}

/// Two places in a word, the higher one first.
#[derive(Clone, Copy)]
pub struct Part {
    /// The number of the higher bit.
    pub high: u8,
    /// The number of the lower bit.
    pub low: u8,
}

/// The places of a part of a word of `width` bits; None where it has no such part.
pub(crate) fn part_of(width: u8, high: &[u8], low: &[u8]) -> Option<Part>
    ensures { MatchOption result ((nat_le (resolve.decimal_number low.now)
        (resolve.decimal_number high.now) && nat_lt (resolve.decimal_number high.now) width)
        ≡ false) (λ p. (p.high ≡ resolve.decimal_number high.now)
        × (p.low ≡ resolve.decimal_number low.now) × (p.low ≤ p.high) × (p.high < width)) }
{
    let high = small_number(high)?;
    let low = small_number(low)?;
    if low <= high && high < u32::from(width) {
        Some(Part {
            high: high as u8,
            low: low as u8,
        })
    } else {
        None
    }
}
