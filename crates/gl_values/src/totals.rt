//! Totals of the values of a column, answered as plainly as they are defined.

ghost use Rattle.std.specs.Prelude.{◌≡◌, ◌≢◌, ◌+◌, ◌^◌, ◌<◌, ◌≤◌};
ghost use Rattle.gl_values.specs.Kinds.{IsKind, number_in, signed_number, width_of, word_of};
ghost use Rattle.gl_values.specs.Totals.{average_of, count_of, greatest_of, least_of, quotient_of, sum_of_numbers, sum_total, weighted_sum};

use crate::kind::{Kind, fits};
use gl_bits::word::wrapped;

/// The number of values, which wraps in 32 bits.
#[tactic(auto, unfolding(crate::specs::Totals::count_of))]
pub fn count<T>(values: &[T]) -> u128
    ensures { result ≡ count_of values.now }
{
    values.len() as u128 % (1u128 << 32)
}

/// The sum of the values, which wraps in a width of 1 to 128 bits.
#[tactic(auto, using(crate::proofs::Totalling::sums))]
pub fn sum(width: u8, values: &[u128]) -> u128
    requires some { 1 ≤ width }
    requires most { width ≤ 128 }
    ensures { result ≡ sum_total width values.now }
{
    let mut total = 0u128;
    for value in values {
        total = total.wrapping_add(*value);
    }
    wrapped(total, width)
}

/// The least value; 0 over none.
#[tactic(auto, using(crate::proofs::Totalling::folds), unfolding(crate::specs::Totals::least_of))]
pub fn least(kind: Kind, values: &[u128]) -> u128
    ensures { result ≡ least_of kind values.now }
{
    let Some((first, others)) = values.split_first() else {
        return 0;
    };
    let mut best = *first;
    for value in others {
        if kind.is_below(*value, best) {
            best = *value;
        }
    }
    best
}

/// The greatest value; 0 over none.
#[tactic(auto, using(crate::proofs::Totalling::folds), unfolding(crate::specs::Totals::greatest_of))]
pub fn greatest(kind: Kind, values: &[u128]) -> u128
    ensures { result ≡ greatest_of kind values.now }
{
    let Some((first, others)) = values.split_first() else {
        return 0;
    };
    let mut best = *first;
    for value in others {
        if kind.is_below(best, *value) {
            best = *value;
        }
    }
    best
}

// The sum of the numbers that words of a kind stand for, in 128 bits.
#[tactic(auto, using(crate::proofs::Totalling::numbers))]
fn sum_of_numbers(kind: Kind, values: &[u128]) -> u128
    requires { IsKind kind }
    ensures { result ≡ word_of 128 (sum_of_numbers kind values.now) }
{
    let mut total = 0u128;
    for value in values {
        total = total.wrapping_add(kind.resized(*value, 128));
    }
    total
}

// The quotient of a sum with a sign, in 32 bits more than a width, in that width.
#[tactic(auto, using(crate::proofs::Totalling::quotient_low, crate::proofs::Totalling::quotient_high))]
fn signed_quotient(width: u8, sum: u128, number: u128) -> u128
    requires some { 1 ≤ width }
    requires most { width ≤ 64 }
    requires fits { sum < 2 ^ (width + 32) }
    requires number { number ≢ 0 }
    ensures { result ≡ word_of width (quotient_of (signed_number (width + 32) sum) number) }
{
    let wide = width + 32;
    if fits(sum, u16::from(wide - 1)) {
        return wrapped(sum / number, width);
    }
    let size = (1u128 << wide) - sum;
    wrapped(0u128.wrapping_sub(size / number), width)
}

// The same for a kind, which says whether the sum has a sign.
#[tactic(auto, using(crate::proofs::Totalling::quotient_plain))]
fn quotient(kind: Kind, sum: u128, number: u128) -> u128
    requires kind { IsKind kind }
    requires fits { sum < 2 ^ (width_of kind + 32) }
    requires number { number ≢ 0 }
    ensures { result ≡ word_of (width_of kind)
        (quotient_of (number_in kind (width_of kind + 32) sum) number) }
{
    if kind.is_signed() {
        signed_quotient(kind.width(), sum, number)
    } else {
        wrapped(sum / number, kind.width())
    }
}

/// The sum of the numbers, in 32 bits more than the width of the kind, by their count, which wraps in
/// 32 bits, toward 0; 0 where the count is 0.
#[tactic(auto, using(crate::proofs::Totalling::average_none))]
pub fn average(kind: Kind, values: &[u128]) -> u128
    requires { IsKind kind }
    ensures { result ≡ average_of kind values.now }
{
    let number = count(values);
    if number == 0 {
        return 0;
    }
    let sum = wrapped(sum_of_numbers(kind, values), kind.width() + 32);
    quotient(kind, sum, number)
}

/// The sum of the values by their weights, the first weight with the first value, which wraps in a
/// width of 1 to 128 bits. Values past the last weight count 0.
#[tactic(auto, using(crate::proofs::Totalling::sums), unfolding(crate::specs::Totals::weighted_sum))]
pub fn weigh(width: u8, weights: &[u128], values: &[u128]) -> u128
    requires some { 1 ≤ width }
    requires most { width ≤ 128 }
    ensures { result ≡ weighted_sum width weights.now values.now }
{
    let mut total = 0u128;
    for (weight, value) in weights.iter().zip(values) {
        total = total.wrapping_add(weight.wrapping_mul(*value));
    }
    wrapped(total, width)
}
