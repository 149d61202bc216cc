//! Aggregates, functions and selects in expressions: what to write where one of them cannot stand.

use crate::elsewhere::cure_of;
use crate::frames::frame_cure;
use crate::kinds::kind_cure;
use crate::lacking::{EACH_WINDOW, KEY, WEIGHTS};
use crate::pieces::{Pieces, is_one_of, is_sign, is_spelled};
use crate::states::{State, call_at, closed_before};
use crate::words::{is_name, is_operator, is_total};

const TOTAL_ALONE: &str =
    "An aggregate is a whole item. Name each with AS, and reckon with the names in a select over this one: SELECT a - b AS x FROM (SELECT max(p) AS a, min(p) AS b FROM t).";

const TOTAL_BELOW: &str =
    "A condition sees single rows and no total. Write a select over the select: SELECT k, s FROM (SELECT k, sum(x) AS s FROM t GROUP BY k GROUPS 64) WHERE s > 5. To compare a row with a total, let a window have both.";

const SELECT_ALONE: &str =
    "A select stands behind FROM, or in a body, and not in an expression. To compare with a total, let a window have both, or let the host do it.";

// Whether the bracket that closes in front of a piece is that of an aggregate.
fn is_behind_total(pieces: &Pieces<'_>, at: usize) -> bool {
    match closed_before(pieces, at) {
        Some(open) => is_sign(pieces.before(at, 1), b')') && is_total(pieces.before(open, 1)),
        None => false,
    }
}

// Within the brackets of count and of CAST.
fn call_cure(pieces: &Pieces<'_>, at: usize, state: State) -> Option<&'static str> {
    let word = pieces.get(at);
    if state == State::CountEnd {
        return Some(if is_spelled(word, b"distinct") {
            "A group has each key once. A select over it counts them: SELECT count() AS n FROM (SELECT k, count() AS c FROM t GROUP BY k GROUPS 64)."
        } else {
            "Write count(), with nothing in its brackets. There is no NULL, so it counts all rows."
        });
    }
    if state == State::Kind {
        return Some(kind_cure(word).unwrap_or(
            "Kinds are u1 to u64, s2 to s64 and text1 to text8: CAST(price AS u64).",
        ));
    }
    if state != State::BehindOperand || !is_spelled(call_at(pieces, at), b"cast") {
        return None;
    }
    if is_sign(word, b',') {
        Some("Write AS in place of the comma: CAST(price AS u64).")
    } else if is_name(word) {
        Some("AS is lacking in front of the kind: CAST(price AS u64).")
    } else {
        None
    }
}

// The weights of a wsum.
fn weights_cure(pieces: &Pieces<'_>, at: usize, state: State) -> Option<&'static str> {
    let word = pieces.get(at);
    if state == State::Weight && is_sign(word, b'-') {
        return Some(
            "A weight is a number without a sign: take one wsum from another in a select over this one.",
        );
    }
    let is_behind_value = state == State::BehindOperand
        && is_spelled(call_at(pieces, at), b"wsum")
        && is_one_of(word, &[b")", b"[", b"]"]);
    if state == State::Weights || is_behind_value {
        return Some(WEIGHTS);
    }
    None
}

// An aggregate where none can stand.
fn misplaced_cure(pieces: &Pieces<'_>, at: usize, state: State) -> Option<&'static str> {
    let word = pieces.get(at);
    if !is_total(word) || !is_sign(pieces.get(at.saturating_add(1)), b'(') {
        return None;
    }
    if is_spelled(pieces.clause(at), b"where") {
        return Some(TOTAL_BELOW);
    }
    if matches!(state, State::BehindOperand | State::BehindItem) {
        return Some("A comma stands between two items: SELECT symbol, sum(volume) AS v.");
    }
    if is_spelled(call_at(pieces, at), b"cast") && !is_spelled(word, b"count") {
        return Some(
            "CAST stands inside, in front of a total that wraps: sum(CAST(volume AS u64)).",
        );
    }
    Some(TOTAL_ALONE)
}

// Aggregates in expressions, and expressions of aggregates.
fn total_cure(pieces: &Pieces<'_>, at: usize, state: State) -> Option<&'static str> {
    let word = pieces.get(at);
    if let Some(cure) = misplaced_cure(pieces, at, state) {
        return Some(cure);
    }
    if is_behind_total(pieces, at) && is_sign(word, b'/') {
        return Some(
            "There is no division but avg: write both, sum(a) AS a and sum(b) AS b, and the host divides.",
        );
    }
    if is_operator(word) && is_behind_total(pieces, at) {
        return Some(TOTAL_ALONE);
    }
    if is_total(pieces.before(at, 1)) && !is_sign(word, b'(') {
        return Some(
            "The word before is one of the language and no column: brackets stand behind it, count() or sum(price).",
        );
    }
    None
}

// Whether an argument may begin with a piece: with ~, or with a column, by what stands behind it.
fn is_argument(pieces: &Pieces<'_>, at: usize) -> bool {
    let next = pieces.get(at.saturating_add(1));
    is_sign(pieces.get(at), b'~') || is_operator(next) || is_one_of(next, &[b",", b")"])
}

// A call of a function that is not there, whose name stands at a piece.
fn named_cure(pieces: &Pieces<'_>, at: usize) -> Option<&'static str> {
    let (word, before) = (pieces.get(at), pieces.before(at, 1));
    let is_declared = is_one_of(before, &[b"as", b"into", b"each"]);
    if is_declared || !is_name(word) || !is_sign(pieces.get(at.saturating_add(1)), b'(') {
        return None;
    }
    if is_spelled(before, b"in") {
        return Some(EACH_WINDOW);
    }
    if let Some(cure) = cure_of(pieces.get(at.saturating_add(2)))
        && !is_argument(pieces, at.saturating_add(2))
    {
        return Some(cure);
    }
    if let Some(cure) = cure_of(word) {
        return Some(cure);
    }
    if is_spelled(before, b"by") {
        return Some(KEY);
    }
    if is_spelled(before, b"from") {
        return Some(
            "Behind FROM stands the name of a stream or a query in brackets, and no function.",
        );
    }
    Some(
        "There is no such function. There are count, sum, min, max, avg and wsum, lag and last_value with OVER, and CAST.",
    )
}

// Calls of functions that are not there.
fn function_cure(pieces: &Pieces<'_>, at: usize) -> Option<&'static str> {
    if let Some(cure) = named_cure(pieces, at) {
        return Some(cure);
    }
    match at.checked_sub(1) {
        Some(place) => named_cure(pieces, place),
        None => None,
    }
}

// Selects in expressions.
fn select_cure(pieces: &Pieces<'_>, at: usize, state: State) -> Option<&'static str> {
    let (word, next) = (pieces.get(at), pieces.get(at.saturating_add(1)));
    let is_inside = is_spelled(word, b"select")
        && matches!(state, State::Operand | State::TightOperand);
    let is_behind = is_one_of(word, &[b"in", b"any", b"some", b"all", b"exists"])
        && is_sign(next, b'(')
        && is_spelled(pieces.get(at.saturating_add(2)), b"select");
    if is_inside || is_behind {
        Some(SELECT_ALONE)
    } else {
        None
    }
}

/// What to write where an aggregate, a function or a select cannot stand.
pub(crate) fn calls_cure(pieces: &Pieces<'_>, at: usize, state: State) -> Option<&'static str> {
    if let Some(cure) = call_cure(pieces, at, state) {
        return Some(cure);
    }
    if let Some(cure) = weights_cure(pieces, at, state) {
        return Some(cure);
    }
    if let Some(cure) = frame_cure(pieces, at, state) {
        return Some(cure);
    }
    if let Some(cure) = total_cure(pieces, at, state) {
        return Some(cure);
    }
    if let Some(cure) = select_cure(pieces, at, state) {
        return Some(cure);
    }
    function_cure(pieces, at)
}
