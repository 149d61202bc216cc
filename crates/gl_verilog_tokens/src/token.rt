//! The tokens of a text, and the pieces of the text that they are.

/// A piece of a text, and the place of its first byte.
#[derive(Clone, Copy, Debug)]
pub struct Word<'a> {
    /// The bytes.
    pub bytes: &'a [u8],
    /// The place of the first byte in the text.
    pub at: usize,
}

/// A reserved word.
#[derive(Clone, Copy, PartialEq, Eq, Debug)]
pub enum Keyword {
    /// `module`
    Module,
    /// `endmodule`
    EndModule,
    /// `input`
    Input,
    /// `output`
    Output,
    /// `wire`
    Wire,
    /// `reg`
    Reg,
    /// `assign`
    Assign,
    /// `always`
    Always,
    /// `posedge`
    Posedge,
    /// `begin`
    Begin,
    /// `end`
    End,
    /// `if`
    If,
    /// `else`
    Else,
}

/// A sign of one byte or of two.
#[derive(Clone, Copy, PartialEq, Eq, Debug)]
pub enum Sign {
    /// `(`
    OpenParen,
    /// `)`
    CloseParen,
    /// `[`
    OpenBracket,
    /// `]`
    CloseBracket,
    /// `{`
    OpenBrace,
    /// `}`
    CloseBrace,
    /// `;`
    Semicolon,
    /// `,`
    Comma,
    /// `:`
    Colon,
    /// `?`
    Question,
    /// `@`
    At,
    /// `=`
    Equals,
    /// `~`
    Tilde,
    /// `!`
    Exclamation,
    /// `*`
    Star,
    /// `+`
    Plus,
    /// `-`
    Minus,
    /// `<`
    Less,
    /// `>`
    Greater,
    /// `&`
    Ampersand,
    /// `^`
    Caret,
    /// `|`
    Bar,
    /// `<=`
    LessEquals,
    /// `>=`
    GreaterEquals,
    /// `==`
    EqualsEquals,
    /// `!=`
    ExclamationEquals,
    /// `&&`
    AmpersandAmpersand,
    /// `||`
    BarBar,
}

/// A token.
#[derive(Clone, Copy, Debug)]
pub enum Token<'a> {
    /// A reserved word.
    Reserved(Keyword),
    /// A name.
    Name(Word<'a>),
    /// A decimal number below 2^32.
    Number(Word<'a>),
    /// A literal with its size: the digits of the size, the radix 2, 10 or 16, and the digits.
    Sized {
        /// The decimal digits of the size, which is below 2^32.
        size: Word<'a>,
        /// The radix: 2, 10 or 16.
        radix: u8,
        /// The digits behind the base letter, with any `_` between them.
        digits: Word<'a>,
    },
    /// A sign.
    Mark(Sign),
    /// What is part of no module.
    Never,
}

/// A token and the place of its first byte.
#[derive(Clone, Copy, Debug)]
pub struct Lexeme<'a> {
    /// The token.
    pub token: Token<'a>,
    /// The place of its first byte in the text, counted from 0.
    pub at: usize,
}
