//! What can stand at a piece.

use crate::frames::frame_words;
use crate::joins::is_behind_join;
use crate::pieces::{Pieces, is_one_of, is_sign, is_spelled};
use crate::states::{State, is_of_query, state_at};
use crate::words::{is_comparison, is_name};
use std::alloc::AllocError;

const PARTS: [&[u8]; 5] = [b"and", b"or", b"where", b"select", b","];

// Whether a comparison stands in front that has no room for another one.
fn is_compared(pieces: &Pieces<'_>, at: usize) -> bool {
    let mut closed = 0u64;
    for place in (0..at).rev() {
        let word = pieces.get(place);
        match word {
            b")" | b"]" => closed = closed.saturating_add(1),
            b"(" | b"[" if closed == 0 => return false,
            b"(" | b"[" => closed = closed.saturating_sub(1),
            _ if closed == 0 && is_comparison(word) => return true,
            _ if closed == 0 && is_one_of(word, &PARTS) => return false,
            _ => {}
        }
    }
    false
}

/// Whether the piece in front is an item that is a column's name alone.
pub(crate) fn is_bare_item(pieces: &Pieces<'_>, at: usize) -> bool {
    let front = pieces.before(at, 2);
    is_name(pieces.before(at, 1)) && (is_spelled(front, b"select") || is_sign(front, b','))
}

// What ends a query.
fn query_ends(pieces: &Pieces<'_>, at: usize) -> &'static str {
    if pieces.open_before(at).is_some() {
        "UNION, CONCAT or )"
    } else {
        "UNION, CONCAT or INTO"
    }
}

/// Whether a piece stands in brackets of an expression, and the word in front of them.
pub(crate) fn expression_call<'a>(pieces: &Pieces<'a>, at: usize) -> Option<&'a [u8]> {
    match pieces.open_before(at) {
        Some(open) if !is_of_query(pieces, open) => Some(pieces.before(open, 1)),
        _ => None,
    }
}

// What stands behind an operand besides an operator.
fn put_behind_operand(out: &mut String, pieces: &Pieces<'_>, at: usize) -> Result<(), AllocError> {
    out.push_str(if is_compared(pieces, at) {
        "+, -, *, <<, >>, &, ^, |, AND, OR"
    } else {
        "an operator"
    })?;
    match expression_call(pieces, at) {
        Some(call) if is_spelled(call, b"cast") => out.push_str(" or AS"),
        Some(call) if is_spelled(call, b"wsum") => out.push_str(" or a comma"),
        Some(call) if is_spelled(call, b"lag") => out.push_str(", a comma or )"),
        Some(_) => out.push_str(" or )"),
        None if is_spelled(pieces.clause(at), b"where") => {
            out.push_str(", GROUP BY, ")?;
            out.push_str(query_ends(pieces, at))
        }
        None if is_bare_item(pieces, at) => out.push_str(", AS, a comma or FROM"),
        None => out.push_str(" or AS"),
    }
}

// The measures of a window.
fn measures(pieces: &Pieces<'_>, at: usize) -> &'static str {
    if is_spelled(pieces.clause(at), b"groups") {
        "TUPLES"
    } else {
        "TUPLES or TIME"
    }
}

// What stands in front of and in a select, an EACH and their windows.
fn source_words(state: State) -> &'static str {
    match state {
        State::Term => "SELECT, EACH or (",
        State::In => "IN",
        State::Source => "a source's name or (",
        State::BehindEach => "a window or BY",
        State::Size => "SIZE",
        State::Advance => "ADVANCE",
        State::WindowEnd => "]",
        State::Body => "(",
        State::GroupBody => "a window or (",
        State::By => "BY",
        State::Arrival => "ARRIVAL",
        State::JoinBy => "BY",
        State::Key => "a column's name",
        State::Groups => "GROUPS",
        State::BehindName => "a ; or the end of the text",
        State::End => "the end of the text",
        State::Kind => "a kind",
        _ => "a name",
    }
}

// What stands in items and expressions.
fn item_words(state: State) -> Option<&'static str> {
    match state {
        State::FirstItem => {
            Some("*, an aggregate, a column, a parameter, a number, a text, CAST, ~, NOT or (")
        }
        State::Item => {
            Some("an aggregate, a column, a parameter, a number, a text, CAST, ~, NOT or (")
        }
        State::Operand => Some("a column, a parameter, a number, a text, CAST, ~, NOT or ("),
        State::TightOperand => Some("a column, a parameter, a number, a text, CAST, ~ or ("),
        State::Number | State::SignedNumber | State::Weight => Some("a number"),
        State::CallOpen => Some("("),
        State::CountEnd | State::CastEnd | State::WeightsEnd => Some(")"),
        State::TotalAs => Some("AS"),
        State::ParameterName => Some("a parameter's name"),
        State::BehindItem => Some("a comma or FROM"),
        State::From => Some("FROM"),
        State::Weights => Some("["),
        State::BehindWeight => Some("a comma or ]"),
        _ => frame_words(state),
    }
}

/// Appends what can stand at a piece, where the pieces in front begin a statement.
pub(crate) fn put_expected(
    out: &mut String,
    pieces: &Pieces<'_>,
    at: usize,
) -> Result<(), AllocError> {
    let state = state_at(pieces, at);
    out.push_str("Here ")?;
    match state {
        State::BehindOperand => put_behind_operand(out, pieces, at)?,
        State::Measure => out.push_str(measures(pieces, at))?,
        State::BehindSource => {
            if !is_behind_join(pieces, at) {
                out.push_str("ASOF, ")?;
            }
            out.push_str("a window, WHERE, GROUP BY, ")?;
            out.push_str(query_ends(pieces, at))?;
        }
        State::BehindWindow => {
            out.push_str("WHERE, GROUP BY, ")?;
            out.push_str(query_ends(pieces, at))?;
        }
        State::BehindEach if !is_behind_join(pieces, at) => {
            out.push_str("ASOF, a window or BY")?;
        }
        State::BehindQuery => out.push_str(query_ends(pieces, at))?,
        _ => out.push_str(item_words(state).unwrap_or(source_words(state)))?,
    }
    out.push_str(" can stand.")
}
