//! Bytes to tokens.

ghost use Rattle.std.specs.Prelude.{◌≡◌, ◌≤◌, ◌<◌, ◌+◌, ◌++◌, ◌∷◌, [], length, slice_index, IfOk, OnOk};
ghost use Rattle.gl_verilog.specs.Tokens as tokens;
ghost use Rattle.gl_verilog_tokens.specs.View.{tokens_in, name_of};
ghost use Rattle.gl_verilog_tokens.specs.Lexed.{piece, mode_of, IsInside};
ghost use Rattle.gl_verilog_tokens.specs.Placed.{places_in, ArePlaces, IsNext, opened};

use crate::classes::{
    Class, Follow, class_of, follow_of, goes_on, is_digit_of, radix_of, sign_token,
};
use crate::pieces::{number_token, put, put_quoted, sized_token, word_at, word_token};
use crate::standing::{Base, Literal, Standing};
use crate::{Lexeme, Token, Word};
use std::alloc::{AllocError, Global};

// A byte between tokens.
#[tactic(auto, using(crate::proofs::LexSteps::steps, crate::proofs::Places::fronts))]
fn begin<'a>(
    text: &'a [u8],
    at: usize,
    b: u8,
    out: &mut Vec<Lexeme<'a>>,
) -> Result<Standing<'a>, AllocError>
    requires here { at < length text.now }
    requires byte { b ≡ slice_index text.now at }
    ensures inside { IfOk result (λ s. IsInside text.now (at + 1) s) }
    ensures mode { IfOk result (λ s. mode_of text.now (at + 1) s ≡ (tokens.fresh b).mode) }
    ensures tokens { OnOk result (tokens_in out.new.items ≡ tokens_in out.old.items
        ++ (tokens.fresh b).tokens) }
    ensures places { IfOk result (λ s. IsNext at (places_in out.old.items)
        (places_in out.new.items ++ opened s)) }
{
    match class_of(b) {
        Class::Letter => Ok(Standing::InWord(at)),
        Class::Digit => Ok(Standing::InNumber(at)),
        Class::Blank | Class::LineEnd => Ok(Standing::Between),
        Class::Opens => Ok(Standing::Half { first: b, from: at }),
        Class::Quote => {
            put(out, Token::Never, at)?;
            Ok(Standing::Between)
        }
        Class::Alone => {
            put(out, sign_token(b), at)?;
            Ok(Standing::Between)
        }
    }
}

// A byte behind a word's.
#[tactic(auto, using(crate::proofs::LexSteps::steps, crate::proofs::Places::fronts))]
fn in_word<'a>(
    text: &'a [u8],
    from: usize,
    at: usize,
    b: u8,
    out: &mut Vec<Lexeme<'a>>,
) -> Result<Standing<'a>, AllocError>
    requires order { from ≤ at }
    requires here { at < length text.now }
    requires byte { b ≡ slice_index text.now at }
    ensures inside { IfOk result (λ s. IsInside text.now (at + 1) s) }
    ensures mode { IfOk result (λ s. mode_of text.now (at + 1) s
        ≡ (tokens.in_word (tokens.class_of b) (piece text.now from at) b).mode) }
    ensures tokens { OnOk result (tokens_in out.new.items ≡ tokens_in out.old.items
        ++ (tokens.in_word (tokens.class_of b) (piece text.now from at) b).tokens) }
    ensures places { IfOk result (λ s. IsNext at (places_in out.old.items ++ from ∷ [])
        (places_in out.new.items ++ opened s)) }
{
    match class_of(b) {
        Class::Letter | Class::Digit => Ok(Standing::InWord(from)),
        _ => {
            put(out, word_token(word_at(text, from, at)), from)?;
            begin(text, at, b, out)
        }
    }
}

// A byte behind a number's.
#[tactic(auto, using(crate::proofs::LexSteps::steps, crate::proofs::Places::fronts))]
fn in_number<'a>(
    text: &'a [u8],
    from: usize,
    at: usize,
    b: u8,
    out: &mut Vec<Lexeme<'a>>,
) -> Result<Standing<'a>, AllocError>
    requires order { from ≤ at }
    requires here { at < length text.now }
    requires byte { b ≡ slice_index text.now at }
    ensures inside { IfOk result (λ s. IsInside text.now (at + 1) s) }
    ensures mode { IfOk result (λ s. mode_of text.now (at + 1) s
        ≡ (tokens.in_number (tokens.class_of b) (piece text.now from at) b).mode) }
    ensures tokens { OnOk result (tokens_in out.new.items ≡ tokens_in out.old.items
        ++ (tokens.in_number (tokens.class_of b) (piece text.now from at) b).tokens) }
    ensures places { IfOk result (λ s. IsNext at (places_in out.old.items ++ from ∷ [])
        (places_in out.new.items ++ opened s)) }
{
    match class_of(b) {
        Class::Digit => Ok(Standing::InNumber(from)),
        Class::Quote => Ok(Standing::AtQuote {
            size: word_at(text, from, at),
            quote: at,
        }),
        _ => {
            put(out, number_token(word_at(text, from, at)), from)?;
            begin(text, at, b, out)
        }
    }
}

// A byte behind a number's quote.
#[tactic(auto, using(crate::proofs::LexSteps::steps, crate::proofs::Places::fronts))]
fn at_quote<'a>(
    text: &'a [u8],
    size: Word<'a>,
    quote: usize,
    at: usize,
    b: u8,
    out: &mut Vec<Lexeme<'a>>,
) -> Result<Standing<'a>, AllocError>
    requires here { at < length text.now }
    requires byte { b ≡ slice_index text.now at }
    ensures inside { IfOk result (λ s. IsInside text.now (at + 1) s) }
    ensures mode { IfOk result (λ s. mode_of text.now (at + 1) s
        ≡ (tokens.at_quote (tokens.radix_of b) (name_of size.entry) b).mode) }
    ensures tokens { OnOk result (tokens_in out.new.items ≡ tokens_in out.old.items
        ++ (tokens.at_quote (tokens.radix_of b) (name_of size.entry) b).tokens) }
    ensures places { IfOk result (λ s. IsNext at (places_in out.old.items ++ size.entry.at
        ∷ quote ∷ []) (places_in out.new.items ++ opened s)) }
{
    match radix_of(b) {
        Some(radix) => Ok(Standing::AtBase(Base {
            size,
            quote,
            letter: b,
            radix,
            from: at,
        })),
        None => {
            put_quoted(size, quote, out)?;
            begin(text, at, b, out)
        }
    }
}

// A byte behind a base letter.
#[tactic(auto, using(crate::proofs::LexSteps::steps, crate::proofs::Places::fronts))]
fn at_base<'a>(
    text: &'a [u8],
    base: Base<'a>,
    at: usize,
    b: u8,
    out: &mut Vec<Lexeme<'a>>,
) -> Result<Standing<'a>, AllocError>
    requires order { base.from ≤ at }
    requires letter { piece text.now base.from at ≡ base.letter ∷ [] }
    requires here { at < length text.now }
    requires byte { b ≡ slice_index text.now at }
    ensures inside { IfOk result (λ s. IsInside text.now (at + 1) s) }
    ensures mode { let next = tokens.at_base (tokens.is_digit_of base.entry.radix b)
        (name_of base.entry.size) base.entry.letter base.entry.radix b in
        IfOk result (λ s. mode_of text.now (at + 1) s ≡ next.mode) }
    ensures tokens { let next = tokens.at_base (tokens.is_digit_of base.entry.radix b)
        (name_of base.entry.size) base.entry.letter base.entry.radix b in
        OnOk result (tokens_in out.new.items ≡ tokens_in out.old.items ++ next.tokens) }
    ensures places { IfOk result (λ s. IsNext at (places_in out.old.items ++ base.entry.size.at
        ∷ base.entry.quote ∷ base.entry.from ∷ []) (places_in out.new.items ++ opened s)) }
{
    if is_digit_of(base.radix, b) {
        return Ok(Standing::InDigits(Literal {
            size: base.size,
            radix: base.radix,
            from: at,
        }));
    }
    put_quoted(base.size, base.quote, out)?;
    in_word(text, base.from, at, b, out)
}

// A byte behind a literal's digits.
#[tactic(auto, using(crate::proofs::LexSteps::steps, crate::proofs::Places::fronts))]
fn in_digits<'a>(
    text: &'a [u8],
    literal: Literal<'a>,
    at: usize,
    b: u8,
    out: &mut Vec<Lexeme<'a>>,
) -> Result<Standing<'a>, AllocError>
    requires order { literal.from ≤ at }
    requires here { at < length text.now }
    requires byte { b ≡ slice_index text.now at }
    ensures inside { IfOk result (λ s. IsInside text.now (at + 1) s) }
    ensures mode { let next = tokens.in_digits (tokens.goes_on literal.entry.radix b)
        (name_of literal.entry.size) literal.entry.radix (piece text.now literal.entry.from at) b in
        IfOk result (λ s. mode_of text.now (at + 1) s ≡ next.mode) }
    ensures tokens { let next = tokens.in_digits (tokens.goes_on literal.entry.radix b)
        (name_of literal.entry.size) literal.entry.radix (piece text.now literal.entry.from at) b in
        OnOk result (tokens_in out.new.items ≡ tokens_in out.old.items ++ next.tokens) }
    ensures places { IfOk result (λ s. IsNext at (places_in out.old.items
        ++ literal.entry.size.at ∷ []) (places_in out.new.items ++ opened s)) }
{
    if goes_on(literal.radix, b) {
        return Ok(Standing::InDigits(literal));
    }
    let digits = word_at(text, literal.from, at);
    put(
        out,
        sized_token(literal.size, literal.radix, digits),
        literal.size.at,
    )?;
    begin(text, at, b, out)
}

// A byte behind one that may begin a sign of two bytes, or a comment.
#[tactic(auto, using(crate::proofs::LexSteps::steps, crate::proofs::Places::fronts))]
fn after_half<'a>(
    text: &'a [u8],
    first: u8,
    from: usize,
    at: usize,
    b: u8,
    out: &mut Vec<Lexeme<'a>>,
) -> Result<Standing<'a>, AllocError>
    requires here { at < length text.now }
    requires byte { b ≡ slice_index text.now at }
    ensures inside { IfOk result (λ s. IsInside text.now (at + 1) s) }
    ensures mode { IfOk result (λ s. mode_of text.now (at + 1) s
        ≡ (tokens.after_half (tokens.follow_of first b) first b).mode) }
    ensures tokens { OnOk result (tokens_in out.new.items ≡ tokens_in out.old.items
        ++ (tokens.after_half (tokens.follow_of first b) first b).tokens) }
    ensures places { IfOk result (λ s. IsNext at (places_in out.old.items ++ from ∷ [])
        (places_in out.new.items ++ opened s)) }
{
    match follow_of(first, b) {
        Follow::Pair(token) => {
            put(out, token, from)?;
            Ok(Standing::Between)
        }
        Follow::Line => Ok(Standing::InLine),
        Follow::Block => Ok(Standing::InBlock(from)),
        Follow::New => {
            put(out, sign_token(first), from)?;
            begin(text, at, b, out)
        }
    }
}

// One byte.
#[tactic(auto, using(crate::proofs::LexSteps::steps, crate::proofs::Places::fronts))]
fn advance<'a>(
    text: &'a [u8],
    standing: Standing<'a>,
    at: usize,
    b: u8,
    out: &mut Vec<Lexeme<'a>>,
) -> Result<Standing<'a>, AllocError>
    requires here { at < length text.now }
    requires byte { b ≡ slice_index text.now at }
    requires inside { IsInside text.now at standing }
    ensures inside { IfOk result (λ s. IsInside text.now (at + 1) s) }
    ensures mode { IfOk result (λ s. mode_of text.now (at + 1) s
        ≡ (tokens.move (mode_of text.now at standing.entry) b).mode) }
    ensures tokens { OnOk result (tokens_in out.new.items ≡ tokens_in out.old.items
        ++ (tokens.move (mode_of text.now at standing.entry) b).tokens) }
    ensures places { IfOk result (λ s. IsNext at (places_in out.old.items ++ opened standing.entry)
        (places_in out.new.items ++ opened s)) }
{
    match standing {
        Standing::Between => begin(text, at, b, out),
        Standing::InWord(from) => in_word(text, from, at, b, out),
        Standing::InNumber(from) => in_number(text, from, at, b, out),
        Standing::AtQuote { size, quote } => at_quote(text, size, quote, at, b, out),
        Standing::AtBase(base) => at_base(text, base, at, b, out),
        Standing::InDigits(literal) => in_digits(text, literal, at, b, out),
        Standing::Half { first, from } => after_half(text, first, from, at, b, out),
        Standing::InLine => Ok(if b == b'\n' {
            Standing::Between
        } else {
            Standing::InLine
        }),
        Standing::InBlock(from) => Ok(if b == b'*' {
            Standing::AtStar(from)
        } else {
            Standing::InBlock(from)
        }),
        Standing::AtStar(from) => Ok(match b {
            b'/' => Standing::Between,
            b'*' => Standing::AtStar(from),
            _ => Standing::InBlock(from),
        }),
    }
}

// The end of the text ends its last token.
#[tactic(auto, using(crate::proofs::LexSteps::steps, crate::proofs::Places::fronts))]
fn end<'a>(
    text: &'a [u8],
    standing: Standing<'a>,
    out: &mut Vec<Lexeme<'a>>,
) -> Result<(), AllocError>
    requires inside { IsInside text.now (length text.now) standing }
    ensures tokens { OnOk result (tokens_in out.new.items ≡ tokens_in out.old.items
        ++ tokens.last_of (mode_of text.now (length text.now) standing.entry)) }
    ensures places { OnOk result (places_in out.new.items
        ≡ places_in out.old.items ++ opened standing.entry) }
{
    let at = text.len();
    match standing {
        Standing::Between | Standing::InLine => Ok(()),
        Standing::InWord(from) => put(out, word_token(word_at(text, from, at)), from),
        Standing::InNumber(from) => put(out, number_token(word_at(text, from, at)), from),
        Standing::AtQuote { size, quote } => put_quoted(size, quote, out),
        Standing::AtBase(base) => {
            put_quoted(base.size, base.quote, out)?;
            put(out, word_token(word_at(text, base.from, at)), base.from)
        }
        Standing::InDigits(literal) => {
            let digits = word_at(text, literal.from, at);
            put(
                out,
                sized_token(literal.size, literal.radix, digits),
                literal.size.at,
            )
        }
        Standing::Half { first, from } => put(out, sign_token(first), from),
        Standing::InBlock(from) | Standing::AtStar(from) => put(out, Token::Never, from),
    }
}

/// The tokens of a text, in order, each with the place of its first byte.
#[tactic(auto, using(crate::proofs::LexSteps::passes))]
pub fn lexemes<'a>(alloc: Global, text: &'a [u8]) -> Result<Vec<Lexeme<'a>>, AllocError>
    ensures tokens { IfOk result (λ v. tokens_in v.items ≡ tokens.tokens_of text.now) }
    ensures places { IfOk result (λ v. ArePlaces text.now (places_in v.items)) }
{
    let mut out = Vec::new(alloc);
    let mut standing = Standing::Between;
    for (at, b) in text.iter().enumerate() {
        standing = advance(text, standing, at, *b, &mut out)?;
    }
    end(text, standing, &mut out)?;
    Ok(out)
}
