//! What a piece of a query is.

use crate::pieces::{is_one_of, is_sign, is_word_byte};

/// The words of the language, none of which is a name.
const TAKEN: [&[u8]; 30] = [
    b"select", b"from", b"where", b"group", b"by", b"groups", b"each", b"in", b"size", b"advance",
    b"tuples", b"time", b"union", b"concat", b"into", b"as", b"and", b"or", b"not", b"cast",
    b"count", b"sum", b"min", b"max", b"avg", b"wsum", b"end", b"tick", b"valid", b"eos",
];

const TOTALS: [&[u8]; 6] = [b"count", b"sum", b"min", b"max", b"avg", b"wsum"];

const SIGNS: [&[u8]; 23] = [
    b"+", b"-", b"*", b"/", b"%", b"=", b"<>", b"<", b"<=", b">", b">=", b"!=", b"==", b"&", b"|",
    b"^", b"~", b"<<", b">>", b"and", b"or", b"not", b"||",
];

const COMPARISONS: [&[u8]; 7] = [b"=", b"<>", b"!=", b"<", b"<=", b">", b">="];

/// Whether a word is one of the language.
pub(crate) fn is_taken(word: &[u8]) -> bool {
    is_one_of(word, &TAKEN)
}

/// Whether a word is that of an aggregate.
pub(crate) fn is_total(word: &[u8]) -> bool {
    is_one_of(word, &TOTALS)
}

/// Whether a piece is an operator, here or elsewhere.
pub(crate) fn is_operator(word: &[u8]) -> bool {
    is_one_of(word, &SIGNS)
}

/// Whether a piece compares its two sides.
pub(crate) fn is_comparison(word: &[u8]) -> bool {
    is_one_of(word, &COMPARISONS)
}

/// Whether a piece is a run of letters, digits and `_`.
pub(crate) fn is_word(word: &[u8]) -> bool {
    !word.is_empty() && word.iter().all(|byte| is_word_byte(*byte))
}

/// Whether a piece is a run of digits.
pub(crate) fn is_number(word: &[u8]) -> bool {
    !word.is_empty() && word.iter().all(|byte| byte.is_ascii_digit())
}

/// Whether a piece is a word that may be a name.
pub(crate) fn is_name(word: &[u8]) -> bool {
    is_word(word) && !is_number(word) && !is_taken(word)
}

/// Whether an operand may end with a piece.
pub(crate) fn ends_operand(word: &[u8]) -> bool {
    is_name(word) || is_number(word) || is_sign(word, b')') || word.starts_with(b"'")
}

/// Whether a word has a capital letter.
pub(crate) fn has_capital(word: &[u8]) -> bool {
    word.iter().any(|byte| byte.is_ascii_uppercase())
}

/// Why a word is no name, apart from being a word of the language.
pub(crate) fn name_cure(word: &[u8]) -> Option<&'static str> {
    if !is_word(word) || is_taken(word) {
        return None;
    }
    if has_capital(word) {
        return Some("A name has small letters alone: write price in place of Price.");
    }
    if word.len() > 32 {
        return Some("A name has at most 32 bytes: write a shorter one.");
    }
    if word.starts_with(b"_")
        || word.ends_with(b"_")
        || word.windows(2).any(|two| two == b"__".as_slice())
    {
        return Some("A name begins with a small letter and has single _, none at its end.");
    }
    if matches!(word, [b'0'..=b'9', ..]) && !is_number(word) {
        return Some("A name begins with a letter, and a number has digits alone, without a unit.");
    }
    None
}

/// The value of a run of digits.
pub(crate) fn number_of(word: &[u8]) -> Option<u64> {
    if !is_number(word) {
        return None;
    }
    let mut value = 0u64;
    for byte in word {
        value = value
            .checked_mul(10)?
            .checked_add(u64::from(byte.wrapping_sub(b'0')))?;
    }
    Some(value)
}
