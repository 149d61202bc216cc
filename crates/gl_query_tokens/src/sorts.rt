//! What a token is.

ghost use Rattle.std.specs.Prelude.{◌≡◌};
ghost use Rattle.gl_query_tokens.specs.Sorts as sorts;

use crate::token::{Plain, Spelling, Token, Word};
use crate::words::word_text;
use gl_query::{Name, Num};

/// Whether the token is this keyword or sign.
pub fn is_plain(token: &Token, plain: Plain) -> bool
    ensures { result ≡ sorts.is_plain plain token.now }
{
    match token {
        Token::Plain(other) => *other == plain,
        _ => false,
    }
}

/// The number that the token is.
pub fn number_in(token: &Token) -> Option<Num>
    ensures { result ≡ sorts.number_in token.now }
{
    match token {
        Token::Number(number) => Some(*number),
        _ => None,
    }
}

/// The place of the opening bracket that the token is.
pub fn open_in(token: &Token) -> Option<u64>
    ensures { result ≡ sorts.open_in token.now }
{
    match token {
        Token::Open { at } => Some(*at),
        _ => None,
    }
}

/// The place of the SIZE that the token is.
pub fn size_in(token: &Token) -> Option<u64>
    ensures { result ≡ sorts.size_in token.now }
{
    match token {
        Token::Size { at } => Some(*at),
        _ => None,
    }
}

/// The place of the BY that the token is.
pub fn by_in(token: &Token) -> Option<u64>
    ensures { result ≡ sorts.by_in token.now }
{
    match token {
        Token::By { at } => Some(*at),
        _ => None,
    }
}

fn is_same(a: Word, b: Word) -> bool
    ensures { result ≡ sorts.word_eq a b }
{
    a == b
}

/// Whether the name is the word in small letters.
pub fn is_small(name: &Name, word: Word) -> bool
    ensures { result ≡ sorts.is_small word name.now }
{
    name.text.as_slice() == word_text(word)
}

fn small_in(name: &Name, word: Word) -> Option<Spelling>
    ensures { result ≡ sorts.small_in word name.now }
{
    if is_small(name, word) {
        Some(Spelling::Small { at: name.at })
    } else {
        None
    }
}

fn capital_in(other: Word, at: u64, word: Word) -> Option<Spelling>
    ensures { result ≡ sorts.capital_in word other at }
{
    if is_same(other, word) {
        Some(Spelling::Capital { at })
    } else {
        None
    }
}

/// How the word is spelled, where the token is it.
pub fn word_in(token: &Token, word: Word) -> Option<Spelling>
    ensures { result ≡ sorts.word_in word token.now }
{
    match token {
        Token::Name(name) => small_in(name, word),
        Token::Word { word: other, at } => capital_in(*other, *at, word),
        _ => None,
    }
}
