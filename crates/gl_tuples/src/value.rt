//! Values of fields.

ghost use Rattle.std.specs.Prelude.{◌≡◌, ◌^◌, IsTrue, option_map, min};
ghost use Rattle.gl_values.specs.Kinds.{IsKind, is_text};
ghost use Rattle.gl_schema.specs.Names as names;
ghost use Rattle.gl_tuples.specs.Values as spec;

use gl_bits::Word;
use gl_schema::text_number;
use gl_values::{Family, Kind};

/// What stands for every number that 64 bits do not hold.
const TOO_LARGE: u128 = 0x1_0000_0000_0000_0000;

/// Whether a field is UTF-8.
#[tactic(auto, using(crate::proofs::Numbers::utf8_steps), unfolding(crate::specs::Values::is_utf8))]
pub fn is_utf8(field: &[u8]) -> bool
    ensures { result ≡ spec.is_utf8 field.now }
{
    str::from_utf8(field).is_ok()
}

/// The number that one or more decimal digits spell, or `TOO_LARGE` where that is 2^64 or more;
/// None for any other field.
#[tactic(auto, unfolding(crate::specs::Values::number_of))]
pub fn number_of(field: &[u8]) -> Option<u128>
    ensures { result ≡ option_map (λ n. min n (2 ^ 64)) (spec.number_of field.now) }
{
    if is_number(field) {
        Some(number_in(field))
    } else {
        None
    }
}

#[tactic(auto, unfolding(crate::specs::Values::is_number))]
fn is_number(field: &[u8]) -> bool
    ensures { result ≡ spec.is_number field.now }
{
    !field.is_empty() && are_digits(field)
}

#[tactic(auto, unfolding(crate::specs::Values::are_digits))]
fn are_digits(field: &[u8]) -> bool
    ensures { result ≡ spec.are_digits field.now }
{
    field.iter().all(|byte| is_digit(*byte))
}

fn is_digit(byte: u8) -> bool
    ensures { result ≡ names.is_digit byte }
{
    matches!(byte, b'0'..=b'9')
}

fn number_in(digits: &[u8]) -> u128
    ensures { result ≡ min (spec.number_in digits.now) (2 ^ 64) }
{
    let mut number: u128 = 0;
    for digit in digits {
        number = (10 * number + u128::from(digit.saturating_sub(b'0'))).min(TOO_LARGE);
    }
    number
}

/// The word of a field in a column of this kind.
#[tactic(auto, unfolding(crate::specs::Values::word_of))]
pub fn word_of(kind: Kind, field: &[u8]) -> Option<Word>
    requires { IsKind kind }
    ensures { result ≡ spec.word_of kind field.now }
{
    match kind.family() {
        Family::Numbers => integer_word(kind, field),
        Family::Texts => text_word(kind, field),
    }
}

/// The word of digits, or of a minus sign and digits, in a column of this kind.
fn integer_word(kind: Kind, field: &[u8]) -> Option<Word>
    requires { IsKind kind }
    ensures { result ≡ spec.integer_word kind field.now }
{
    match field {
        [b'-', digits @ ..] => negative_word(kind, digits),
        _ => plain_word(kind, field),
    }
}

/// The word of digits behind a minus sign.
fn negative_word(kind: Kind, digits: &[u8]) -> Option<Word>
    requires { IsKind kind }
    ensures { result ≡ spec.fitting_negative kind (spec.number_of digits.now) }
{
    let number = number_of(digits)?;
    if kind.has_negative(number) {
        Word::new(kind.negative_word(number), kind.width())
    } else {
        None
    }
}

/// The word of digits.
fn plain_word(kind: Kind, digits: &[u8]) -> Option<Word>
    requires { IsKind kind }
    ensures { result ≡ spec.fitting kind (spec.number_of digits.now) }
{
    let number = number_of(digits)?;
    if kind.has_number(number) {
        Word::new(number, kind.width())
    } else {
        None
    }
}

/// The word of a text in a column of this kind, zero bytes behind it.
fn text_word(kind: Kind, field: &[u8]) -> Option<Word>
    requires kind { IsKind kind }
    requires text { IsTrue (is_text kind) }
    ensures { result ≡ spec.short_enough kind field.now }
{
    let bytes = usize::from(kind.bytes());
    if field.len() <= bytes && is_plain(field) {
        Word::new(u128::from(text_number(field, bytes)), kind.width())
    } else {
        None
    }
}

#[tactic(auto, unfolding(crate::specs::Values::is_plain))]
fn is_plain(field: &[u8]) -> bool
    ensures { result ≡ spec.is_plain field.now }
{
    field.iter().all(|byte| is_printable(*byte))
}

fn is_printable(byte: u8) -> bool
    ensures { result ≡ (spec.is_printable byte) }
{
    matches!(byte, b' '..=b'~')
}
