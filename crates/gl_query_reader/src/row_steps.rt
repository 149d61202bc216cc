//! The rows of a frame, in the bracket behind OVER.

ghost use Rattle.std.specs.Prelude.{◌≡◌};
ghost use Rattle.gl_query_reader.specs.Framing as framing;
ghost use Rattle.gl_query_reader.specs.declared.over_state.RowsSoFar.TheVariants as so_far;

use crate::over_state::RowsSoFar;
use crate::written::{BetweenFront, Bound, FrameRows};
use gl_query::Op;
use gl_query_tokens::sorts::{number_in, word_in};
use gl_query_tokens::{Spelling, Token, Word};

// Where the rows of a frame begin.
fn bound_in(token: &Token) -> Option<Bound>
    ensures { result ≡ framing.bound_in token.now }
{
    match number_in(token) {
        Some(number) => Some(Bound::Number(number)),
        None => match word_in(token, Word::Unbounded) {
            Some(word) => Some(Bound::Unbounded(word)),
            None => None,
        },
    }
}

fn and_in(token: &Token) -> Option<u64>
    ensures { result ≡ framing.and_in token.now }
{
    match token {
        Token::Operator { op: Op::And, at } => Some(*at),
        _ => None,
    }
}

// ROWS.
fn want_rows(token: &Token) -> Option<RowsSoFar>
    ensures { result ≡ framing.rows_step so_far.WantRows token.now }
{
    match word_in(token, Word::Rows) {
        Some(rows) => Some(RowsSoFar::WantBound { rows }),
        None => None,
    }
}

// BETWEEN or a bound behind ROWS.
fn want_bound(rows: Spelling, token: &Token) -> Option<RowsSoFar>
    ensures { result ≡ framing.rows_step (so_far.WantBound rows) token.now }
{
    if let Some(between) = word_in(token, Word::Between) {
        return Some(RowsSoFar::WantFirst { rows, between });
    }
    match bound_in(token) {
        Some(bound) => Some(RowsSoFar::WantPreceding { rows, bound }),
        None => None,
    }
}

// PRECEDING behind ROWS and a bound.
fn want_preceding(rows: Spelling, bound: Bound, token: &Token) -> Option<RowsSoFar>
    ensures { result ≡ framing.rows_step (so_far.WantPreceding rows bound) token.now }
{
    match word_in(token, Word::Preceding) {
        Some(preceding) => Some(RowsSoFar::WantClose {
            rows: Some(FrameRows::Short {
                rows,
                bound,
                preceding,
            }),
        }),
        None => None,
    }
}

// A bound behind ROWS BETWEEN.
fn want_first(rows: Spelling, between: Spelling, token: &Token) -> Option<RowsSoFar>
    ensures { result ≡ framing.rows_step (so_far.WantFirst rows between) token.now }
{
    match bound_in(token) {
        Some(bound) => Some(RowsSoFar::WantFirstPreceding {
            rows,
            between,
            bound,
        }),
        None => None,
    }
}

// PRECEDING behind ROWS BETWEEN and a bound.
fn want_first_preceding(
    rows: Spelling,
    between: Spelling,
    bound: Bound,
    token: &Token,
) -> Option<RowsSoFar>
    ensures { result
        ≡ framing.rows_step (so_far.WantFirstPreceding rows between bound) token.now }
{
    match word_in(token, Word::Preceding) {
        Some(preceding) => Some(RowsSoFar::WantAnd {
            front: BetweenFront {
                rows,
                between,
                bound,
                preceding,
            },
        }),
        None => None,
    }
}

// AND.
fn want_and(front: BetweenFront, token: &Token) -> Option<RowsSoFar>
    ensures { result ≡ framing.rows_step (so_far.WantAnd front) token.now }
{
    match and_in(token) {
        Some(and_at) => Some(RowsSoFar::WantCurrent { front, and_at }),
        None => None,
    }
}

// CURRENT behind AND.
fn want_current(front: BetweenFront, and_at: u64, token: &Token) -> Option<RowsSoFar>
    ensures { result ≡ framing.rows_step (so_far.WantCurrent front and_at) token.now }
{
    match word_in(token, Word::Current) {
        Some(current) => Some(RowsSoFar::WantRow {
            front,
            and_at,
            current,
        }),
        None => None,
    }
}

// ROW behind CURRENT.
fn want_row(front: BetweenFront, and_at: u64, current: Spelling, token: &Token) -> Option<RowsSoFar>
    ensures { result ≡ framing.rows_step (so_far.WantRow front and_at current) token.now }
{
    match word_in(token, Word::Row) {
        Some(row) => Some(RowsSoFar::WantClose {
            rows: Some(FrameRows::Between {
                front,
                and_at,
                current,
                row,
            }),
        }),
        None => None,
    }
}

/// How far the rows are read behind one token more.
pub fn rows_step(rows: RowsSoFar, token: &Token) -> Option<RowsSoFar>
    ensures { result ≡ framing.rows_step rows token.now }
{
    match rows {
        RowsSoFar::WantRows => want_rows(token),
        RowsSoFar::WantBound { rows } => want_bound(rows, token),
        RowsSoFar::WantPreceding { rows, bound } => want_preceding(rows, bound, token),
        RowsSoFar::WantFirst { rows, between } => want_first(rows, between, token),
        RowsSoFar::WantFirstPreceding {
            rows,
            between,
            bound,
        } => want_first_preceding(rows, between, bound, token),
        RowsSoFar::WantAnd { front } => want_and(front, token),
        RowsSoFar::WantCurrent { front, and_at } => want_current(front, and_at, token),
        RowsSoFar::WantRow {
            front,
            and_at,
            current,
        } => want_row(front, and_at, current, token),
        RowsSoFar::WantClose { rows: _ } => None,
    }
}

/// The rows, where they were read to their end.
pub fn whole_rows(rows: RowsSoFar) -> Option<Option<FrameRows>>
    ensures { result ≡ framing.whole_rows rows }
{
    match rows {
        RowsSoFar::WantClose { rows } => Some(rows),
        _ => None,
    }
}
