//! Tests of tokens.

ghost use Rattle.std.specs.Prelude.{◌≡◌, option_map};
ghost use Rattle.gl_verilog_grammar.specs.Stages as machine;
ghost use Rattle.gl_verilog_tokens.specs.View.{keyword_of, sign_of, token_of, name_of};

use gl_verilog_tokens::{Keyword, Sign, Token, Word};

// The number of a sign in the order of their declaration.
fn sign_number(sign: Sign) -> u8
    ensures { result ≡ machine.sign_number (sign_of sign) }
{
    match sign {
        Sign::OpenParen => 0,
        Sign::CloseParen => 1,
        Sign::OpenBracket => 2,
        Sign::CloseBracket => 3,
        Sign::OpenBrace => 4,
        Sign::CloseBrace => 5,
        Sign::Semicolon => 6,
        Sign::Comma => 7,
        Sign::Colon => 8,
        Sign::Question => 9,
        Sign::At => 10,
        Sign::Equals => 11,
        Sign::Tilde => 12,
        Sign::Exclamation => 13,
        Sign::Star => 14,
        Sign::Plus => 15,
        Sign::Minus => 16,
        Sign::Less => 17,
        Sign::Greater => 18,
        Sign::Ampersand => 19,
        Sign::Caret => 20,
        Sign::Bar => 21,
        Sign::LessEquals => 22,
        Sign::GreaterEquals => 23,
        Sign::EqualsEquals => 24,
        Sign::ExclamationEquals => 25,
        Sign::AmpersandAmpersand => 26,
        Sign::BarBar => 27,
    }
}

// The number of a reserved word in the order of their declaration.
fn word_number(word: Keyword) -> u8
    ensures { result ≡ machine.word_number (keyword_of word) }
{
    match word {
        Keyword::Module => 0,
        Keyword::EndModule => 1,
        Keyword::Input => 2,
        Keyword::Output => 3,
        Keyword::Wire => 4,
        Keyword::Reg => 5,
        Keyword::Assign => 6,
        Keyword::Always => 7,
        Keyword::Posedge => 8,
        Keyword::Begin => 9,
        Keyword::End => 10,
        Keyword::If => 11,
        Keyword::Else => 12,
    }
}

// Whether a token is this sign.
pub(crate) fn is_mark(token: Token, sign: Sign) -> bool
    ensures { result ≡ machine.is_mark (sign_of sign) (token_of token.entry) }
{
    match token {
        Token::Mark(found) => sign_number(found) == sign_number(sign),
        _ => false,
    }
}

// Whether a token is this reserved word.
pub(crate) fn is_word(token: Token, word: Keyword) -> bool
    ensures { result ≡ machine.is_word (keyword_of word) (token_of token.entry) }
{
    match token {
        Token::Reserved(found) => word_number(found) == word_number(word),
        _ => false,
    }
}

pub(crate) fn name_in<'a>(token: Token<'a>) -> Option<Word<'a>>
    ensures { option_map name_of result ≡ machine.name_in (token_of token.entry) }
{
    match token {
        Token::Name(name) => Some(name),
        _ => None,
    }
}

pub(crate) fn digits_in<'a>(token: Token<'a>) -> Option<Word<'a>>
    ensures { option_map name_of result ≡ machine.digits_in (token_of token.entry) }
{
    match token {
        Token::Number(digits) => Some(digits),
        _ => None,
    }
}

// Whether a token is the number that is written `0`.
pub(crate) fn is_zero(token: Token) -> bool
    ensures { result ≡ machine.is_zero (token_of token.entry) }
{
    match token {
        Token::Number(digits) => matches!(digits.bytes, b"0"),
        _ => false,
    }
}
