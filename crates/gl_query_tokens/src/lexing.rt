//! Bytes to tokens.

ghost use Rattle.std.specs.Prelude.{◌≡◌, ◌<◌, ◌≤◌, ◌+◌, ◌++◌, ◌∷◌, [], length, slice_index, IfOk, OnOk};
ghost use Rattle.gl_query_tokens.specs.Tokens.{class_of, sign_token, follow_of, text_token, begin, move, after_half, last_of, lexeme, tokens_of, InWord, InText};
ghost use Rattle.gl_query_tokens.specs.Words.{word_token};
ghost use Rattle.gl_query_tokens.specs.Places.{part, mode_of, IsInside};

use crate::token::{Lexeme, Plain, Token};
use crate::words::word_token;
use gl_query::{Op, TextBytes};
use std::alloc::{AllocError, Global};

/// What a byte is between tokens.
#[derive(Clone, Copy, Debug, PartialEq, Eq)]
pub enum Class {
    /// A letter, a digit or an underscore.
    Letter,
    /// White space.
    Blank,
    /// What begins a text literal.
    Quote,
    /// What may begin a sign of two bytes, or a comment.
    Half,
    /// Any other byte.
    Alone,
}

/// What two bytes are together.
#[derive(Clone, Copy, Debug, PartialEq, Eq)]
pub enum Follow {
    /// One operator.
    Pair(Op),
    /// The beginning of a comment.
    Comment,
    /// Two tokens.
    Fresh,
}

/// What the bytes so far leave open, by its place.
#[derive(Clone, Copy, Debug, PartialEq, Eq)]
pub enum Standing {
    /// Nothing is open.
    Between,
    /// A word that begins at a place.
    InWord(usize),
    /// A text literal, whose quote stands at a place.
    InText(usize),
    /// The first byte of a sign or a comment: its place and the byte.
    AfterHalf(usize, u8),
    /// A comment, up to the end of its line.
    InComment,
}

#[tactic(auto, unfolding(crate::specs::Tokens::class_of))]
fn class_of(b: u8) -> Class
    ensures { result ≡ class_of b }
{
    match b {
        b'0'..=b'9' | b'a'..=b'z' | b'A'..=b'Z' | b'_' => Class::Letter,
        b' ' | b'\t' | b'\r' | b'\n' => Class::Blank,
        b'\'' => Class::Quote,
        b'<' | b'>' | b'-' | b'!' => Class::Half,
        _ => Class::Alone,
    }
}

// The sign of one byte, where there is one.
#[tactic(auto, unfolding(crate::specs::Tokens::sign_token))]
fn sign_token(b: u8, at: u64) -> Token
    ensures { result ≡ sign_token b at }
{
    match b {
        b'(' => Token::Open { at },
        b')' => Token::Plain(Plain::Close),
        b'[' => Token::Plain(Plain::LeftSquare),
        b']' => Token::Plain(Plain::RightSquare),
        b',' => Token::Plain(Plain::Comma),
        b';' => Token::Plain(Plain::Semicolon),
        b':' => Token::Colon { at },
        b'*' => Token::Operator { op: Op::Mul, at },
        b'&' => Token::Operator { op: Op::BitAnd, at },
        b'^' => Token::Operator { op: Op::BitXor, at },
        b'|' => Token::Operator { op: Op::BitOr, at },
        b'~' => Token::Tilde { at },
        b'+' => Token::Operator { op: Op::Add, at },
        b'-' => Token::Operator { op: Op::Sub, at },
        b'<' => Token::Operator { op: Op::Lt, at },
        b'=' => Token::Operator { op: Op::Eq, at },
        b'>' => Token::Operator { op: Op::Gt, at },
        _ => Token::Stray,
    }
}

#[tactic(auto, unfolding(crate::specs::Tokens::follow_of))]
fn follow_of(first: u8, second: u8) -> Follow
    ensures { result ≡ follow_of first second }
{
    if first == b'<' && second == b'=' {
        return Follow::Pair(Op::Le);
    }
    if first == b'<' && second == b'>' {
        return Follow::Pair(Op::Ne);
    }
    if first == b'>' && second == b'=' {
        return Follow::Pair(Op::Ge);
    }
    if first == b'<' && second == b'<' {
        return Follow::Pair(Op::ShiftLeft);
    }
    if first == b'>' && second == b'>' {
        return Follow::Pair(Op::ShiftRight);
    }
    if first == b'!' && second == b'=' {
        return Follow::Pair(Op::Ne);
    }
    if first == b'-' && second == b'-' {
        return Follow::Comment;
    }
    Follow::Fresh
}

fn put(out: &mut Vec<Lexeme>, token: Token, from: usize) -> Result<(), AllocError>
    ensures { OnOk result (out.new.items ≡ out.old.items ++ lexeme token from ∷ []) }
{
    let at = from as u64;
    out.push(Lexeme { token, at })?;
    Ok(())
}

// The word that ends here.
fn put_word(
    alloc: Global,
    text: &[u8],
    from: usize,
    to: usize,
    out: &mut Vec<Lexeme>,
) -> Result<(), AllocError>
    requires order { from ≤ to }
    requires end { to ≤ length text.now }
    ensures { OnOk result (out.new.items ≡ out.old.items
        ++ lexeme (word_token (part text.now from to) from) from ∷ []) }
{
    let token = word_token(alloc, &text[from..to], from as u64)?;
    put(out, token, from)
}

// What stands between quotes.
#[tactic(auto, unfolding(crate::specs::Tokens::text_token))]
fn text_token(alloc: Global, bytes: &[u8], at: u64) -> Result<Token, AllocError>
    ensures { IfOk result (λ token. token ≡ text_token bytes.now at) }
{
    if bytes.len() > 8 {
        return Ok(Token::Stray);
    }
    let text = TextBytes::from_vec(Vec::from_slice(alloc, bytes)?);
    Ok(Token::Letters { text, at })
}

// A byte behind which nothing else is open.
#[tactic(auto, using(crate::proofs::Steps::lex_steps))]
fn begin(text: &[u8], at: usize, b: u8, out: &mut Vec<Lexeme>) -> Result<Standing, AllocError>
    requires here { at < length text.now }
    requires byte { b ≡ slice_index text.now at }
    ensures inside { IfOk result (λ s. IsInside (at + 1) s) }
    ensures mode { IfOk result (λ s. mode_of text.now (at + 1) s ≡ (begin (class_of b) at b).mode) }
    ensures tokens { OnOk result (out.new.items ≡ out.old.items
        ++ (begin (class_of b) at b).tokens) }
{
    match class_of(b) {
        Class::Letter => Ok(Standing::InWord(at)),
        Class::Blank => Ok(Standing::Between),
        Class::Quote => Ok(Standing::InText(at)),
        Class::Half => Ok(Standing::AfterHalf(at, b)),
        Class::Alone => {
            put(out, sign_token(b, at as u64), at)?;
            Ok(Standing::Between)
        }
    }
}

// A byte behind a word's.
#[tactic(auto, using(crate::proofs::Steps::lex_steps))]
fn go_on(
    alloc: Global,
    text: &[u8],
    from: usize,
    at: usize,
    b: u8,
    out: &mut Vec<Lexeme>,
) -> Result<Standing, AllocError>
    requires order { from ≤ at }
    requires here { at < length text.now }
    requires byte { b ≡ slice_index text.now at }
    ensures inside { IfOk result (λ s. IsInside (at + 1) s) }
    ensures mode { IfOk result (λ s. mode_of text.now (at + 1) s
        ≡ (move (InWord from (part text.now from at)) at b).mode) }
    ensures tokens { OnOk result (out.new.items ≡ out.old.items
        ++ (move (InWord from (part text.now from at)) at b).tokens) }
{
    match class_of(b) {
        Class::Letter => Ok(Standing::InWord(from)),
        Class::Blank | Class::Quote | Class::Half | Class::Alone => {
            put_word(alloc, text, from, at, out)?;
            begin(text, at, b, out)
        }
    }
}

// A byte behind a quote.
#[tactic(auto, using(crate::proofs::Steps::lex_steps))]
fn go_on_text(
    alloc: Global,
    text: &[u8],
    quote: usize,
    at: usize,
    b: u8,
    out: &mut Vec<Lexeme>,
) -> Result<Standing, AllocError>
    requires order { quote < at }
    requires here { at < length text.now }
    requires byte { b ≡ slice_index text.now at }
    ensures inside { IfOk result (λ s. IsInside (at + 1) s) }
    ensures mode { IfOk result (λ s. mode_of text.now (at + 1) s
        ≡ (move (InText quote (part text.now (quote + 1) at)) at b).mode) }
    ensures tokens { OnOk result (out.new.items ≡ out.old.items
        ++ (move (InText quote (part text.now (quote + 1) at)) at b).tokens) }
{
    if b == b'\'' {
        let token = text_token(alloc, &text[quote + 1..at], quote as u64)?;
        put(out, token, quote)?;
        return Ok(Standing::Between);
    }
    if b' ' <= b && b <= b'~' {
        return Ok(Standing::InText(quote));
    }
    put(out, Token::Stray, quote)?;
    Ok(Standing::Between)
}

// A byte behind one that may begin a sign of two bytes, or a comment.
#[tactic(auto, using(crate::proofs::Steps::lex_steps))]
fn go_on_half(
    text: &[u8],
    from: usize,
    first: u8,
    at: usize,
    b: u8,
    out: &mut Vec<Lexeme>,
) -> Result<Standing, AllocError>
    requires here { at < length text.now }
    requires byte { b ≡ slice_index text.now at }
    ensures inside { IfOk result (λ s. IsInside (at + 1) s) }
    ensures mode { IfOk result (λ s. mode_of text.now (at + 1) s
        ≡ (after_half (follow_of first b) from first at b).mode) }
    ensures tokens { OnOk result (out.new.items ≡ out.old.items
        ++ (after_half (follow_of first b) from first at b).tokens) }
{
    match follow_of(first, b) {
        Follow::Pair(op) => {
            put(
                out,
                Token::Operator {
                    op,
                    at: from as u64,
                },
                from,
            )?;
            Ok(Standing::Between)
        }
        Follow::Comment => Ok(Standing::InComment),
        Follow::Fresh => {
            put(out, sign_token(first, from as u64), from)?;
            begin(text, at, b, out)
        }
    }
}

// One byte.
#[tactic(auto, using(crate::proofs::Steps::lex_steps))]
fn advance(
    alloc: Global,
    text: &[u8],
    standing: Standing,
    at: usize,
    b: u8,
    out: &mut Vec<Lexeme>,
) -> Result<Standing, AllocError>
    requires here { at < length text.now }
    requires byte { b ≡ slice_index text.now at }
    requires inside { IsInside at standing }
    ensures inside { IfOk result (λ s. IsInside (at + 1) s) }
    ensures mode { IfOk result (λ s. mode_of text.now (at + 1) s
        ≡ (move (mode_of text.now at standing) at b).mode) }
    ensures tokens { OnOk result (out.new.items ≡ out.old.items
        ++ (move (mode_of text.now at standing) at b).tokens) }
{
    match standing {
        Standing::Between => begin(text, at, b, out),
        Standing::InWord(from) => go_on(alloc, text, from, at, b, out),
        Standing::InText(quote) => go_on_text(alloc, text, quote, at, b, out),
        Standing::AfterHalf(from, first) => go_on_half(text, from, first, at, b, out),
        Standing::InComment => Ok(if b == b'\n' {
            Standing::Between
        } else {
            Standing::InComment
        }),
    }
}

// The token that the end of the text completes.
fn complete(
    alloc: Global,
    text: &[u8],
    standing: Standing,
    out: &mut Vec<Lexeme>,
) -> Result<(), AllocError>
    requires { IsInside (length text.now) standing }
    ensures { OnOk result (out.new.items ≡ out.old.items
        ++ last_of (mode_of text.now (length text.now) standing)) }
{
    match standing {
        Standing::Between | Standing::InComment => Ok(()),
        Standing::InWord(from) => put_word(alloc, text, from, text.len(), out),
        Standing::InText(quote) => put(out, Token::Stray, quote),
        Standing::AfterHalf(from, first) => put(out, sign_token(first, from as u64), from),
    }
}

/// The tokens of a text, each with its place.
#[tactic(auto, unfolding(crate::specs::Tokens::tokens_of), using(crate::proofs::Steps::loop_steps))]
pub fn lexemes(alloc: Global, text: &[u8]) -> Result<Vec<Lexeme>, AllocError>
    ensures { IfOk result (λ v. v.items ≡ tokens_of text.now) }
{
    let mut out = Vec::new(alloc);
    let mut standing = Standing::Between;
    for (at, b) in text.iter().enumerate() {
        standing = advance(alloc, text, standing, at, *b, &mut out)?;
    }
    complete(alloc, text, standing, &mut out)?;
    Ok(out)
}
