//! Tokens of the query language, each with the place that a statement keeps of it.

use gl_query::{Name, Num, Op, TextBytes};

/// An aggregate over the values of one expression.
#[derive(Clone, Copy, PartialEq, Eq, Debug)]
pub enum Fold {
    /// The sum of the values.
    Sum,
    /// The least value.
    Min,
    /// The greatest value.
    Max,
    /// The sum of the values by their number.
    Avg,
}

/// What stands between two queries.
#[derive(Clone, Copy, PartialEq, Eq, Debug)]
pub enum Join {
    /// The rows of both queries, in any order that keeps each one's.
    Union,
    /// The rows of both queries side by side.
    Concat,
}

/// A keyword or a sign of whose place no statement knows.
#[derive(Clone, Copy, PartialEq, Eq, Debug)]
pub enum Plain {
    /// SELECT
    Select,
    /// FROM
    From,
    /// WHERE
    Where,
    /// GROUP
    Group,
    /// GROUPS
    Groups,
    /// IN
    In,
    /// ADVANCE
    Advance,
    /// TUPLES
    Tuples,
    /// TIME
    Time,
    /// INTO
    Into,
    /// AS
    As,
    /// `)`
    Close,
    /// `[`
    LeftSquare,
    /// `]`
    RightSquare,
    /// `,`
    Comma,
    /// `;`
    Semicolon,
}

/// A word of the frames of a select, of a union by arrival, or of an as-of join: one where the grammar asks
/// for it, and a name elsewhere.
#[derive(Clone, Copy, PartialEq, Eq, Debug)]
pub enum Word {
    /// OVER
    Over,
    /// FILTER
    Filter,
    /// PARTITION
    Partition,
    /// ROWS
    Rows,
    /// PRECEDING
    Preceding,
    /// UNBOUNDED
    Unbounded,
    /// BETWEEN
    Between,
    /// CURRENT
    Current,
    /// ROW
    Row,
    /// LAG
    Lag,
    /// LAST_VALUE
    LastValue,
    /// ARRIVAL
    Arrival,
    /// ASOF
    AsOf,
}

/// How such a word is spelled, and the byte of the text where it begins.
#[derive(Clone, Copy, Debug)]
pub enum Spelling {
    /// In small letters: its token is a name.
    Small { at: u64 },
    /// With a capital: its token is the word.
    Capital { at: u64 },
}

/// A token. Each place is the byte of the text where the token begins.
#[derive(Drop, Debug)]
pub enum Token {
    /// A name: a word that is no keyword.
    Name(Name),
    /// A number in decimal, below 2^128.
    Number(Num),
    /// A text literal, without its quotes.
    Letters { text: TextBytes, at: u64 },
    /// `* + - << >> & ^ | = <> < <= > >=`, AND and OR; `!=` is `<>`
    Operator { op: Op, at: u64 },
    /// `(`
    Open { at: u64 },
    /// `:`
    Colon { at: u64 },
    /// `~`
    Tilde { at: u64 },
    /// NOT
    Not { at: u64 },
    /// CAST
    Cast { at: u64 },
    /// COUNT
    Count { at: u64 },
    /// WSUM
    Wsum { at: u64 },
    /// SUM, MIN, MAX and AVG
    Fold { fold: Fold, at: u64 },
    /// UNION and CONCAT
    Join { join: Join, at: u64 },
    /// EACH
    Each { at: u64 },
    /// BY
    By { at: u64 },
    /// SIZE
    Size { at: u64 },
    /// A word of frames, of a union by arrival, or ASOF, with a capital, so that it is no name.
    Word { word: Word, at: u64 },
    /// A keyword or a sign of whose place no statement knows.
    Plain(Plain),
    /// What is no token of the language.
    Stray,
}

/// A token and the byte of the text where it begins.
#[derive(Drop, Debug)]
pub struct Lexeme {
    /// The token.
    pub token: Token,
    /// The byte of the text where it begins.
    pub at: u64,
}
