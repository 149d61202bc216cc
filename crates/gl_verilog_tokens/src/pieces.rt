//! Tokens of more than one byte, from where they stand in the text.

ghost use Rattle.std.specs.Prelude.{◌≡◌, ◌≤◌, ◌++◌, ◌∷◌, [], length, OnOk};
ghost use Rattle.gl_verilog.specs.Tokens as tokens;
ghost use Rattle.gl_verilog_tokens.specs.View.{token_of, tokens_in, name_of};
ghost use Rattle.gl_verilog_tokens.specs.Lexed.{piece};
ghost use Rattle.gl_verilog_tokens.specs.Placed.{places_in};

use crate::classes::reserved;
use crate::{Lexeme, Token, Word, small_number};
use std::alloc::AllocError;

pub(crate) fn word_at<'a>(text: &'a [u8], from: usize, to: usize) -> Word<'a>
    requires order { from ≤ to }
    requires within { to ≤ length text.now }
    ensures bytes { name_of result ≡ piece text.now from to }
    ensures at { result.at ≡ from }
{
    Word {
        bytes: &text[from..to],
        at: from,
    }
}

pub(crate) fn word_token<'a>(word: Word<'a>) -> Token<'a>
    ensures { token_of result ≡ tokens.word_token (name_of word.entry) }
{
    match reserved(word.bytes) {
        Some(keyword) => Token::Reserved(keyword),
        None => {
            if word.bytes.len() <= 128 {
                Token::Name(word)
            } else {
                Token::Never
            }
        }
    }
}

pub(crate) fn number_token<'a>(word: Word<'a>) -> Token<'a>
    ensures { token_of result ≡ tokens.number_token (name_of word.entry) }
{
    match small_number(word.bytes) {
        Some(_) => Token::Number(word),
        None => Token::Never,
    }
}

pub(crate) fn sized_token<'a>(size: Word<'a>, radix: u8, digits: Word<'a>) -> Token<'a>
    ensures { token_of result ≡ tokens.sized_token (name_of size.entry) radix
        (name_of digits.entry) }
{
    match small_number(size.bytes) {
        Some(_) => Token::Sized {
            size,
            radix,
            digits,
        },
        None => Token::Never,
    }
}

#[tactic(auto, using(crate::proofs::LexSteps::steps))]
pub(crate) fn put<'a>(
    out: &mut Vec<Lexeme<'a>>,
    token: Token<'a>,
    at: usize,
) -> Result<(), AllocError>
    ensures tokens { OnOk result (tokens_in out.new.items
        ≡ tokens_in out.old.items ++ token_of token.entry ∷ []) }
    ensures places { OnOk result (places_in out.new.items ≡ places_in out.old.items ++ at ∷ []) }
{
    out.push(Lexeme { token, at })?;
    Ok(())
}

// A number and a quote that is part of no token.
#[tactic(auto, using(crate::proofs::LexSteps::steps))]
pub(crate) fn put_quoted<'a>(
    size: Word<'a>,
    quote: usize,
    out: &mut Vec<Lexeme<'a>>,
) -> Result<(), AllocError>
    ensures tokens { OnOk result (tokens_in out.new.items ≡ tokens_in out.old.items
        ++ tokens.number_token (name_of size.entry) ∷ tokens.Never ∷ []) }
    ensures places { OnOk result (places_in out.new.items
        ≡ places_in out.old.items ++ size.entry.at ∷ quote ∷ []) }
{
    put(out, number_token(size), size.at)?;
    put(out, Token::Never, quote)
}
