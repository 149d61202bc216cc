//! What bytes and words are, each by itself.

ghost use Rattle.std.specs.Prelude.{◌≡◌, option_map};
ghost use Rattle.std.specs.Str.{bytes_eq};
ghost use Rattle.gl_verilog.specs.Tokens as tokens;
ghost use Rattle.gl_verilog_tokens.specs.View.{keyword_of, token_of};
ghost use Rattle.gl_verilog_tokens.specs.Lexed.{class_is, follow_is};

use crate::{Keyword, Sign, Token, digit_of};

/// What a byte is between tokens.
#[derive(Clone, Copy)]
pub enum Class {
    /// A letter or `_`, which may begin a name.
    Letter,
    /// A decimal digit.
    Digit,
    /// The quote between the size and the base of a literal.
    Quote,
    /// A space, a tab or a carriage return.
    Blank,
    /// A line feed.
    LineEnd,
    /// A byte that may begin a sign of two bytes or a comment.
    Opens,
    /// A sign of one byte, or a byte of no token.
    Alone,
}

/// What two bytes make: a token, a comment, or nothing new.
#[derive(Clone, Copy)]
pub enum Follow<'a> {
    /// A sign of two bytes, as this token.
    Pair(Token<'a>),
    /// A comment up to the end of the line.
    Line,
    /// A comment up to `*/`.
    Block,
    /// Nothing: the second byte begins something of its own.
    New,
}

pub(crate) fn class_of(b: u8) -> Class
    ensures { class_is result ≡ tokens.class_of b }
{
    match b {
        b'a'..=b'z' | b'A'..=b'Z' | b'_' => Class::Letter,
        b'0'..=b'9' => Class::Digit,
        b' ' | b'\t' | b'\r' => Class::Blank,
        b'\n' => Class::LineEnd,
        b'\'' => Class::Quote,
        b'<' | b'>' | b'=' | b'!' | b'&' | b'|' | b'^' | b'/' => Class::Opens,
        _ => Class::Alone,
    }
}

// The token of a byte that stands alone.
pub(crate) fn sign_token<'a>(b: u8) -> Token<'a>
    ensures { token_of result ≡ tokens.sign_token b }
{
    match b {
        b'(' => Token::Mark(Sign::OpenParen),
        b')' => Token::Mark(Sign::CloseParen),
        b'[' => Token::Mark(Sign::OpenBracket),
        b']' => Token::Mark(Sign::CloseBracket),
        b'{' => Token::Mark(Sign::OpenBrace),
        b'}' => Token::Mark(Sign::CloseBrace),
        b';' => Token::Mark(Sign::Semicolon),
        b',' => Token::Mark(Sign::Comma),
        b':' => Token::Mark(Sign::Colon),
        b'?' => Token::Mark(Sign::Question),
        b'@' => Token::Mark(Sign::At),
        b'=' => Token::Mark(Sign::Equals),
        b'~' => Token::Mark(Sign::Tilde),
        b'!' => Token::Mark(Sign::Exclamation),
        b'*' => Token::Mark(Sign::Star),
        b'+' => Token::Mark(Sign::Plus),
        b'-' => Token::Mark(Sign::Minus),
        b'<' => Token::Mark(Sign::Less),
        b'>' => Token::Mark(Sign::Greater),
        b'&' => Token::Mark(Sign::Ampersand),
        b'^' => Token::Mark(Sign::Caret),
        b'|' => Token::Mark(Sign::Bar),
        _ => Token::Never,
    }
}

// What two bytes make. `^~` is a sign of the standard that the subset lacks.
pub(crate) fn follow_of<'a>(first: u8, second: u8) -> Follow<'a>
    ensures { follow_is result ≡ tokens.follow_of first second }
{
    match (first, second) {
        (b'<', b'=') => Follow::Pair(Token::Mark(Sign::LessEquals)),
        (b'>', b'=') => Follow::Pair(Token::Mark(Sign::GreaterEquals)),
        (b'=', b'=') => Follow::Pair(Token::Mark(Sign::EqualsEquals)),
        (b'!', b'=') => Follow::Pair(Token::Mark(Sign::ExclamationEquals)),
        (b'&', b'&') => Follow::Pair(Token::Mark(Sign::AmpersandAmpersand)),
        (b'|', b'|') => Follow::Pair(Token::Mark(Sign::BarBar)),
        (b'^', b'~') => Follow::Pair(Token::Never),
        (b'/', b'/') => Follow::Line,
        (b'/', b'*') => Follow::Block,
        _ => Follow::New,
    }
}

// The radix of a base letter.
pub(crate) fn radix_of(b: u8) -> Option<u8>
    ensures { result ≡ tokens.radix_of b }
{
    match b {
        b'd' | b'D' => Some(10),
        b'h' | b'H' => Some(16),
        b'b' | b'B' => Some(2),
        _ => None,
    }
}

pub(crate) fn is_digit_of(radix: u8, b: u8) -> bool
    ensures { result ≡ tokens.is_digit_of radix b }
{
    matches!(b, b'0'..=b'9' | b'a'..=b'f' | b'A'..=b'F') && digit_of(b) < radix
}

// Whether a byte goes on the digits of a literal.
pub(crate) fn goes_on(radix: u8, b: u8) -> bool
    ensures { result ≡ tokens.goes_on radix b }
{
    is_digit_of(radix, b) || b == b'_'
}

fn is_text(word: &[u8], text: &[u8]) -> bool
    ensures { result ≡ bytes_eq word.now text.now }
{
    word == text
}

// The reserved word of these bytes.
pub(crate) fn reserved(word: &[u8]) -> Option<Keyword>
    ensures { option_map keyword_of result ≡ tokens.reserved word.now }
{
    if is_text(word, b"module") {
        Some(Keyword::Module)
    } else if is_text(word, b"endmodule") {
        Some(Keyword::EndModule)
    } else if is_text(word, b"input") {
        Some(Keyword::Input)
    } else if is_text(word, b"output") {
        Some(Keyword::Output)
    } else if is_text(word, b"wire") {
        Some(Keyword::Wire)
    } else if is_text(word, b"reg") {
        Some(Keyword::Reg)
    } else if is_text(word, b"assign") {
        Some(Keyword::Assign)
    } else if is_text(word, b"always") {
        Some(Keyword::Always)
    } else if is_text(word, b"posedge") {
        Some(Keyword::Posedge)
    } else if is_text(word, b"begin") {
        Some(Keyword::Begin)
    } else if is_text(word, b"end") {
        Some(Keyword::End)
    } else if is_text(word, b"if") {
        Some(Keyword::If)
    } else if is_text(word, b"else") {
        Some(Keyword::Else)
    } else {
        None
    }
}
