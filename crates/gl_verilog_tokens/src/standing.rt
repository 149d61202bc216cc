//! Where the reader of tokens stands.

use crate::Word;

/// A number with a quote and a base letter behind it.
#[derive(Clone, Copy)]
pub struct Base<'a> {
    /// The digits of the literal's size.
    pub size: Word<'a>,
    /// The place of the quote.
    pub quote: usize,
    /// The base letter.
    pub letter: u8,
    /// The radix of that letter: 2, 10 or 16.
    pub radix: u8,
    /// The place of the base letter.
    pub from: usize,
}

/// A literal with a size, as far as its digits were read.
#[derive(Clone, Copy)]
pub struct Literal<'a> {
    /// The digits of the literal's size.
    pub size: Word<'a>,
    /// The radix: 2, 10 or 16.
    pub radix: u8,
    /// The place of the first digit.
    pub from: usize,
}

/// Where the reader stands. A place in it is that of a token's first byte.
#[derive(Clone, Copy)]
pub enum Standing<'a> {
    /// Between tokens.
    Between,
    /// In a name or a reserved word.
    InWord(usize),
    /// In a number.
    InNumber(usize),
    /// Behind a number's quote.
    AtQuote {
        /// The digits of the literal's size.
        size: Word<'a>,
        /// The place of the quote.
        quote: usize,
    },
    /// Behind a number's base letter.
    AtBase(Base<'a>),
    /// In the digits of a literal.
    InDigits(Literal<'a>),
    /// Behind a byte that may begin a sign of two bytes, or a comment.
    Half {
        /// The byte.
        first: u8,
        /// The place of the byte.
        from: usize,
    },
    /// In a comment of one line.
    InLine,
    /// In a comment that ends with `*/`.
    InBlock(usize),
    /// In such a comment, behind a star.
    AtStar(usize),
}
