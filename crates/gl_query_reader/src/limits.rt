//! How many brackets, operators and joins of queries a text may have.

ghost use Rattle.std.specs.Prelude.{◌≡◌};
ghost use Rattle.gl_query_reader.specs.Limits as limits;

use gl_bits::limits::{MOST_BRACKETS, MOST_JOINS, MOST_OPERATORS};
use gl_query_tokens::{Plain, Token};

/// What was counted so far.
#[derive(Clone, Copy)]
pub struct Counts {
    /// Round brackets that are open.
    pub brackets: u32,
    /// Operators, `~`, NOT and CAST of the whole expression so far.
    pub operators: u32,
    /// UNION and CONCAT so far.
    pub joins: u32,
    /// Whether an operand may begin here, or the bracket of CAST.
    pub operand: bool,
}

// Whether an operand may begin behind a token.
fn begins_operand(token: &Token) -> bool
    ensures { result ≡ limits.begins_operand token.now }
{
    match token {
        Token::Open { .. } | Token::Operator { .. } => true,
        Token::Tilde { .. } | Token::Not { .. } | Token::Cast { .. } => true,
        Token::Plain(plain) => match plain {
            Plain::Select | Plain::Where | Plain::Comma | Plain::LeftSquare => true,
            _ => false,
        },
        _ => false,
    }
}

impl Counts {
    /// Nothing.
    pub fn new() -> Counts
        ensures { result ≡ limits.none_counted }
    {
        Counts {
            brackets: 0,
            operators: 0,
            joins: 0,
            operand: false,
        }
    }

    /// The counts behind a token.
    pub fn after(self, token: &Token) -> Counts
        requires { limits.IsSmall self }
        ensures { result ≡ limits.after self token.now }
    {
        Counts {
            operand: begins_operand(token),
            ..self.with(token)
        }
    }

    fn with(self, token: &Token) -> Counts
        requires { limits.IsSmall self }
        ensures { result ≡ limits.with_token self token.now }
    {
        match token {
            Token::Open { .. } => Counts {
                brackets: self.brackets + 1,
                operators: self.operators_open(),
                ..self
            },
            Token::Operator { .. } => Counts {
                operators: self.operators_with(),
                ..self
            },
            Token::Tilde { .. } | Token::Not { .. } | Token::Cast { .. } => Counts {
                operators: self.operators + 1,
                ..self
            },
            Token::Join { .. } => Counts {
                joins: self.joins + 1,
                ..self
            },
            Token::Fold { .. } | Token::Wsum { .. } => Counts {
                operators: 0,
                ..self
            },
            Token::Plain(plain) => self.with_plain(*plain),
            _ => self,
        }
    }

    fn operators_with(self) -> u32
        requires { limits.IsSmall self }
        ensures { result ≡ limits.operators_with self }
    {
        if self.operand {
            self.operators
        } else {
            self.operators + 1
        }
    }

    // What is in a bracket where no operand begins counts anew.
    fn operators_open(self) -> u32
        ensures { result ≡ limits.operators_open self }
    {
        if self.operand { self.operators } else { 0 }
    }

    fn with_plain(self, plain: Plain) -> Counts
        ensures { result ≡ limits.with_plain self plain }
    {
        match plain {
            Plain::Close => Counts {
                brackets: self.brackets.saturating_sub(1),
                ..self
            },
            Plain::Select | Plain::Comma | Plain::Where => Counts {
                operators: 0,
                ..self
            },
            _ => self,
        }
    }

    /// Whether a count is past its limit.
    pub fn is_past(self) -> bool
        ensures { result ≡ limits.is_past self }
    {
        self.brackets > MOST_BRACKETS || self.operators > MOST_OPERATORS || self.joins > MOST_JOINS
    }
}
