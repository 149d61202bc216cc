//! Kinds, and values of them: numbers in decimal, texts by their letters.

use crate::fits::is_kind;
use gl_values::Kind;
use std::alloc::AllocError;

// A number of at most 8 bits; 0 where there is none.
fn small_of(text: &str) -> u8 {
    text.parse::<u8>().unwrap_or(0)
}

/// A kind; one without bits, which is none, where the text names none.
pub(crate) fn kind_of(text: &str) -> Kind {
    match (text.strip_prefix("text"), text.strip_prefix("s")) {
        (Some(bytes), _) => Kind::Text(small_of(bytes)),
        (None, Some(width)) => Kind::Signed(small_of(width)),
        (None, None) => Kind::Unsigned(small_of(text.strip_prefix("u").unwrap_or(""))),
    }
}

// The letters of a text of `bytes` bytes as a number: the first one highest, and zero bytes behind them.
fn letters_of(text: &str, bytes: u8) -> u128 {
    let mut number: u128 = 0;
    for at in 0..usize::from(bytes) {
        let byte = text.as_bytes().get(at).copied().unwrap_or(0);
        number = number.wrapping_mul(256).wrapping_add(u128::from(byte));
    }
    number
}

// A number behind a minus sign as a word of a kind; 0 where there is no such kind.
fn negative_of(kind: Kind, digits: &str) -> u128 {
    if !is_kind(kind) {
        return 0;
    }
    kind.negative_word(digits.parse::<u128>().unwrap_or(0))
}

// The word of a number.
fn number_of(kind: Kind, text: &str) -> u128 {
    match text.strip_prefix("-") {
        Some(digits) => negative_of(kind, digits),
        None => text.parse::<u128>().unwrap_or(0),
    }
}

/// A value of a kind; 0 where the text tells none.
pub(crate) fn value_of(kind: Kind, text: &str) -> u128 {
    match kind {
        Kind::Text(bytes) => letters_of(text.trim_matches('\''), bytes),
        Kind::Unsigned(_) | Kind::Signed(_) => number_of(kind, text),
    }
}

// Adds a number, which may be below 0; that of the word where there is no kind.
fn push_number(out: &mut String, kind: Option<Kind>, value: u128) -> Result<(), AllocError> {
    let Some(kind) = kind else {
        return write!(out, "{value}");
    };
    if is_kind(kind) && kind.is_below(value, 0) {
        write!(out, "-{}", (1u128 << kind.width()).saturating_sub(value))
    } else {
        write!(out, "{value}")
    }
}

/// Adds a value: the letters of a text, else a number.
pub(crate) fn push_value(
    out: &mut String,
    kind: Option<Kind>,
    value: u128,
) -> Result<(), AllocError> {
    let Some(Kind::Text(_)) = kind else {
        return push_number(out, kind, value);
    };
    out.push_str("'")?;
    for byte in value.to_be_bytes() {
        if byte != 0 {
            out.push(char::from(byte))?;
        }
    }
    out.push_str("'")
}
