//! Words: keywords, names and numbers.

ghost use Rattle.std.specs.Prelude.{◌≡◌, IfOk, Some};
ghost use Rattle.gl_query_tokens.specs.declared.token.Token.TheVariants as token;
ghost use Rattle.gl_query_tokens.specs.Words.{is_keyword, clause_of, window_of, operator_of, keyword_of, frame_word_of, with_digit, number_of, word_token, word_text};

use crate::token::{Fold, Join, Plain, Token, Word};
use gl_query::{Name, Num, Op};
use gl_schema::{NameText, is_name};
use std::alloc::{AllocError, Global};

// The word is this keyword, in either case.
fn is_keyword(word: &[u8], keyword: &[u8]) -> bool
    ensures { result ≡ is_keyword word.now keyword.now }
{
    word.eq_ignore_ascii_case(keyword)
}

// The keywords of a select.
fn clause_of(word: &[u8], at: u64) -> Option<Token>
    ensures { result ≡ clause_of word.now at }
{
    if is_keyword(word, b"select") {
        return Some(Token::Plain(Plain::Select));
    }
    if is_keyword(word, b"from") {
        return Some(Token::Plain(Plain::From));
    }
    if is_keyword(word, b"where") {
        return Some(Token::Plain(Plain::Where));
    }
    if is_keyword(word, b"group") {
        return Some(Token::Plain(Plain::Group));
    }
    if is_keyword(word, b"by") {
        return Some(Token::By { at });
    }
    if is_keyword(word, b"groups") {
        return Some(Token::Plain(Plain::Groups));
    }
    if is_keyword(word, b"into") {
        return Some(Token::Plain(Plain::Into));
    }
    if is_keyword(word, b"as") {
        return Some(Token::Plain(Plain::As));
    }
    None
}

// The keywords of windows, bodies and what stands between queries.
fn window_of(word: &[u8], at: u64) -> Option<Token>
    ensures { result ≡ window_of word.now at }
{
    if is_keyword(word, b"each") {
        return Some(Token::Each { at });
    }
    if is_keyword(word, b"in") {
        return Some(Token::Plain(Plain::In));
    }
    if is_keyword(word, b"size") {
        return Some(Token::Size { at });
    }
    if is_keyword(word, b"advance") {
        return Some(Token::Plain(Plain::Advance));
    }
    if is_keyword(word, b"tuples") {
        return Some(Token::Plain(Plain::Tuples));
    }
    if is_keyword(word, b"time") {
        return Some(Token::Plain(Plain::Time));
    }
    if is_keyword(word, b"union") {
        return Some(Token::Join {
            join: Join::Union,
            at,
        });
    }
    if is_keyword(word, b"concat") {
        return Some(Token::Join {
            join: Join::Concat,
            at,
        });
    }
    None
}

// The keywords of expressions and aggregates.
fn operator_of(word: &[u8], at: u64) -> Option<Token>
    ensures { result ≡ operator_of word.now at }
{
    if is_keyword(word, b"and") {
        return Some(Token::Operator { op: Op::And, at });
    }
    if is_keyword(word, b"or") {
        return Some(Token::Operator { op: Op::Or, at });
    }
    if is_keyword(word, b"not") {
        return Some(Token::Not { at });
    }
    if is_keyword(word, b"cast") {
        return Some(Token::Cast { at });
    }
    if is_keyword(word, b"count") {
        return Some(Token::Count { at });
    }
    if is_keyword(word, b"sum") {
        return Some(Token::Fold {
            fold: Fold::Sum,
            at,
        });
    }
    if is_keyword(word, b"min") {
        return Some(Token::Fold {
            fold: Fold::Min,
            at,
        });
    }
    if is_keyword(word, b"max") {
        return Some(Token::Fold {
            fold: Fold::Max,
            at,
        });
    }
    if is_keyword(word, b"avg") {
        return Some(Token::Fold {
            fold: Fold::Avg,
            at,
        });
    }
    if is_keyword(word, b"wsum") {
        return Some(Token::Wsum { at });
    }
    None
}

fn keyword_of(word: &[u8], at: u64) -> Option<Token>
    ensures { result ≡ keyword_of word.now at }
{
    if let Some(token) = clause_of(word, at) {
        return Some(token);
    }
    if let Some(token) = window_of(word, at) {
        return Some(token);
    }
    operator_of(word, at)
}

fn framed(word: Word, at: u64) -> Option<Token>
    ensures { result ≡ Some (token.Word word at) }
{
    Some(Token::Word { word, at })
}

// The words of the frames of a select, of a union by arrival, and ASOF.
fn frame_word_of(word: &[u8], at: u64) -> Option<Token>
    ensures { result ≡ frame_word_of word.now at }
{
    if is_keyword(word, b"over") {
        framed(Word::Over, at)
    } else if is_keyword(word, b"filter") {
        framed(Word::Filter, at)
    } else if is_keyword(word, b"partition") {
        framed(Word::Partition, at)
    } else if is_keyword(word, b"rows") {
        framed(Word::Rows, at)
    } else if is_keyword(word, b"preceding") {
        framed(Word::Preceding, at)
    } else if is_keyword(word, b"unbounded") {
        framed(Word::Unbounded, at)
    } else if is_keyword(word, b"between") {
        framed(Word::Between, at)
    } else if is_keyword(word, b"current") {
        framed(Word::Current, at)
    } else if is_keyword(word, b"row") {
        framed(Word::Row, at)
    } else if is_keyword(word, b"lag") {
        framed(Word::Lag, at)
    } else if is_keyword(word, b"last_value") {
        framed(Word::LastValue, at)
    } else if is_keyword(word, b"arrival") {
        framed(Word::Arrival, at)
    } else if is_keyword(word, b"asof") {
        framed(Word::AsOf, at)
    } else {
        None
    }
}

/// The letters of a word of frames, of a union by arrival, or of ASOF.
#[tactic(auto, unfolding(crate::specs::Words::word_text))]
pub fn word_text(word: Word) -> &'static [u8]
    ensures { result.now ≡ word_text word }
{
    match word {
        Word::Over => b"over",
        Word::Filter => b"filter",
        Word::Partition => b"partition",
        Word::Rows => b"rows",
        Word::Preceding => b"preceding",
        Word::Unbounded => b"unbounded",
        Word::Between => b"between",
        Word::Current => b"current",
        Word::Row => b"row",
        Word::Lag => b"lag",
        Word::LastValue => b"last_value",
        Word::Arrival => b"arrival",
        Word::AsOf => b"asof",
    }
}

// The number that the digits spell, where it is below 2^128.
#[tactic(auto, unfolding(crate::specs::Words::number_of), using(crate::proofs::Numbers::number_steps))]
fn number_of(word: &[u8]) -> Option<u128>
    ensures { result ≡ number_of word.now }
{
    let mut value = 0u128;
    for b in word {
        value = with_digit(value, *b)?;
    }
    Some(value)
}

fn with_digit(value: u128, b: u8) -> Option<u128>
    ensures { result ≡ with_digit (Some value) b }
{
    if b < b'0' || b'9' < b {
        return None;
    }
    value.checked_mul(10)?.checked_add(u128::from(b - b'0'))
}

/// The token of a run of letters, digits and underscores that begins at a place.
#[tactic(auto, unfolding(crate::specs::Words::word_token))]
pub fn word_token(alloc: Global, word: &[u8], at: u64) -> Result<Token, AllocError>
    ensures { IfOk result (λ token. token ≡ word_token word.now at) }
{
    if let Some(token) = keyword_of(word, at) {
        return Ok(token);
    }
    if is_name(word) {
        let text = NameText::from_vec(Vec::from_slice(alloc, word)?);
        return Ok(Token::Name(Name { text, at }));
    }
    if let Some(token) = frame_word_of(word, at) {
        return Ok(token);
    }
    match number_of(word) {
        Some(value) => Ok(Token::Number(Num { value, at })),
        None => Ok(Token::Stray),
    }
}
