//! Tokens to text.

ghost use Rattle.std.specs.Prelude.{◌≡◌, ◌++◌, OnOk};
ghost use Rattle.gl_query_printer.specs.Spaced as spec;

use gl_bits::Memory;
use gl_query::Op;
use gl_query_tokens::{Fold, Join, Plain, Token, Word};
use itoa::Buffer;

/// What the place behind a token is.
#[derive(Clone, Copy, PartialEq, Eq, Debug)]
pub enum Behind {
    /// The text's beginning, or behind `(`, `[` or `:`.
    Opening,
    /// Behind a name, or behind the keyword of an aggregate.
    Named,
    /// Behind any other token where an operand may begin.
    Operand,
    /// Behind the sign of a number.
    Sign,
    /// Behind any other token.
    Other,
}

// Appends bytes.
fn put(text: &mut Vec<u8>, bytes: &[u8]) -> Result<(), Memory>
    ensures { OnOk result (text.new.items ≡ text.old.items ++ bytes.now) }
{
    match text.extend_from_slice(bytes) {
        Ok(()) => Ok(()),
        Err(_) => Err(Memory),
    }
}

// Appends a number in decimal.
fn put_number(text: &mut Vec<u8>, number: u128) -> Result<(), Memory>
    ensures { OnOk result (text.new.items ≡ text.old.items ++ spec.number_text number) }
{
    let mut buffer = Buffer::new();
    put(text, buffer.format(number).as_bytes())
}

#[tactic(auto, unfolding(crate::specs::Spaced::operator_text))]
fn operator_text(op: Op) -> &'static [u8]
    ensures { result.now ≡ spec.operator_text op }
{
    match op {
        Op::Add => b"+",
        Op::Sub => b"-",
        Op::Mul => b"*",
        Op::BitAnd => b"&",
        Op::BitOr => b"|",
        Op::BitXor => b"^",
        Op::ShiftLeft => b"<<",
        Op::ShiftRight => b">>",
        Op::Eq => b"=",
        Op::Ne => b"<>",
        Op::Lt => b"<",
        Op::Le => b"<=",
        Op::Gt => b">",
        Op::Ge => b">=",
        Op::And => b"AND",
        Op::Or => b"OR",
    }
}

#[tactic(auto, unfolding(crate::specs::Spaced::fold_text))]
fn fold_text(fold: Fold) -> &'static [u8]
    ensures { result.now ≡ spec.fold_text fold }
{
    match fold {
        Fold::Sum => b"sum",
        Fold::Min => b"min",
        Fold::Max => b"max",
        Fold::Avg => b"avg",
    }
}

#[tactic(auto, unfolding(crate::specs::Spaced::join_text))]
fn join_text(join: Join) -> &'static [u8]
    ensures { result.now ≡ spec.join_text join }
{
    match join {
        Join::Union => b"UNION",
        Join::Concat => b"CONCAT",
    }
}

#[tactic(auto, unfolding(crate::specs::Spaced::plain_text))]
fn plain_text(plain: Plain) -> &'static [u8]
    ensures { result.now ≡ spec.plain_text plain }
{
    match plain {
        Plain::Select => b"SELECT",
        Plain::From => b"FROM",
        Plain::Where => b"WHERE",
        Plain::Group => b"GROUP",
        Plain::Groups => b"GROUPS",
        Plain::In => b"IN",
        Plain::Advance => b"ADVANCE",
        Plain::Tuples => b"TUPLES",
        Plain::Time => b"TIME",
        Plain::Into => b"INTO",
        Plain::As => b"AS",
        Plain::Close => b")",
        Plain::LeftSquare => b"[",
        Plain::RightSquare => b"]",
        Plain::Comma => b",",
        Plain::Semicolon => b";",
    }
}

#[tactic(auto, unfolding(crate::specs::Spaced::capitals))]
fn capitals(word: Word) -> &'static [u8]
    ensures { result.now ≡ spec.capitals word }
{
    match word {
        Word::Over => b"OVER",
        Word::Filter => b"FILTER",
        Word::Partition => b"PARTITION",
        Word::Rows => b"ROWS",
        Word::Preceding => b"PRECEDING",
        Word::Unbounded => b"UNBOUNDED",
        Word::Between => b"BETWEEN",
        Word::Current => b"CURRENT",
        Word::Row => b"ROW",
        Word::Lag => b"LAG",
        Word::LastValue => b"LAST_VALUE",
        Word::Arrival => b"ARRIVAL",
        Word::AsOf => b"ASOF",
    }
}

// Appends a text literal.
#[tactic(auto, unfolding(crate::specs::Spaced::letters_text))]
fn put_letters(text: &mut Vec<u8>, letters: &[u8]) -> Result<(), Memory>
    ensures { OnOk result (text.new.items ≡ text.old.items ++ spec.letters_text letters.now) }
{
    put(text, b"'")?;
    put(text, letters)?;
    put(text, b"'")
}

// Appends a token.
#[tactic(auto, unfolding(crate::specs::Spaced::token_text))]
fn put_token(text: &mut Vec<u8>, token: &Token) -> Result<(), Memory>
    ensures { OnOk result (text.new.items ≡ text.old.items ++ spec.token_text token.now) }
{
    match token {
        Token::Name(name) => put(text, name.text.as_slice()),
        Token::Number(number) => put_number(text, number.value),
        Token::Letters { text: letters, .. } => put_letters(text, letters.as_slice()),
        Token::Operator { op, .. } => put(text, operator_text(*op)),
        Token::Open { .. } => put(text, b"("),
        Token::Colon { .. } => put(text, b":"),
        Token::Tilde { .. } => put(text, b"~"),
        Token::Not { .. } => put(text, b"NOT"),
        Token::Cast { .. } => put(text, b"CAST"),
        Token::Count { .. } => put(text, b"count"),
        Token::Wsum { .. } => put(text, b"wsum"),
        Token::Fold { fold, .. } => put(text, fold_text(*fold)),
        Token::Join { join, .. } => put(text, join_text(*join)),
        Token::Each { .. } => put(text, b"EACH"),
        Token::By { .. } => put(text, b"BY"),
        Token::Size { .. } => put(text, b"SIZE"),
        Token::Word { word, .. } => put(text, capitals(*word)),
        Token::Plain(plain) => put(text, plain_text(*plain)),
        Token::Stray => Ok(()),
    }
}

// Whether an operand may begin in such a place.
fn begins_operand(behind: Behind) -> bool
    ensures { result ≡ spec.begins_operand behind }
{
    match behind {
        Behind::Opening | Behind::Operand => true,
        Behind::Named | Behind::Sign | Behind::Other => false,
    }
}

// Whether a token is the sign of a number.
fn is_sign(behind: Behind, token: &Token) -> bool
    ensures { result ≡ spec.is_sign behind token.now }
{
    match token {
        Token::Operator { op: Op::Sub, .. } => begins_operand(behind),
        _ => false,
    }
}

// What the place behind a token is that is no number's sign.
fn behind_token(token: &Token) -> Behind
    ensures { result ≡ spec.behind_token token.now }
{
    match token {
        Token::Open { .. } | Token::Colon { .. } | Token::Plain(Plain::LeftSquare) => {
            Behind::Opening
        }
        Token::Name(_) => Behind::Named,
        Token::Count { .. } | Token::Wsum { .. } | Token::Fold { .. } => Behind::Named,
        Token::Operator { .. } | Token::Tilde { .. } | Token::Not { .. } => Behind::Operand,
        Token::Plain(Plain::Select | Plain::Where | Plain::Comma) => Behind::Operand,
        _ => Behind::Other,
    }
}

#[tactic(auto, unfolding(crate::specs::Spaced::place_behind))]
fn place_behind(behind: Behind, token: &Token) -> Behind
    ensures { result ≡ spec.place_behind behind token.now }
{
    if is_sign(behind, token) {
        Behind::Sign
    } else {
        behind_token(token)
    }
}

// No space stands before it.
#[tactic(auto, unfolding(crate::specs::Spaced::is_closing))]
fn is_closing(token: &Token) -> bool
    ensures { result ≡ spec.is_closing token.now }
{
    match token {
        Token::Plain(Plain::Close | Plain::RightSquare | Plain::Comma) => true,
        _ => false,
    }
}

#[tactic(auto, unfolding(crate::specs::Spaced::is_opening))]
fn is_opening(token: &Token) -> bool
    ensures { result ≡ spec.is_opening token.now }
{
    match token {
        Token::Open { .. } => true,
        _ => false,
    }
}

fn is_number(token: &Token) -> bool
    ensures { result ≡ spec.is_number token.now }
{
    match token {
        Token::Number(_) => true,
        _ => false,
    }
}

fn needs_space(behind: Behind, token: &Token) -> bool
    ensures { result ≡ spec.needs_space behind token.now }
{
    match behind {
        Behind::Opening => false,
        Behind::Named => !is_opening(token) && !is_closing(token),
        Behind::Sign => !is_number(token),
        Behind::Operand | Behind::Other => !is_closing(token),
    }
}

// Appends a token that stands behind another, and the space before it.
fn put_behind(text: &mut Vec<u8>, behind: Behind, token: &Token) -> Result<(), Memory>
    ensures { OnOk result (text.new.items ≡ text.old.items
        ++ spec.gap (spec.needs_space behind token.now)
        ++ spec.token_text token.now) }
{
    if needs_space(behind, token) {
        put(text, b" ")?;
    }
    put_token(text, token)
}

/// Appends the text of tokens.
#[tactic(auto, unfolding(crate::specs::Spaced::text_of), using(crate::proofs::Loops::spaced_next))]
pub(crate) fn put_tokens(text: &mut Vec<u8>, tokens: &[Token]) -> Result<(), Memory>
    ensures { OnOk result (text.new.items ≡ text.old.items ++ spec.text_of tokens.now) }
{
    let mut place = Behind::Opening;
    for token in tokens {
        put_behind(text, place, token)?;
        place = place_behind(place, token);
    }
    Ok(())
}
