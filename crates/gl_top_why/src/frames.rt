//! What stands behind the bracket of a function of rows: FILTER, OVER, and the words in their brackets.
//!
//! None of these words is one of the language elsewhere, so the brackets around tell.

use crate::pieces::{Pieces, is_one_of, is_sign, is_spelled};
use crate::states::{State, call_at, closed_before};
use crate::words::{has_capital, is_number, is_operator};

/// A frame of all rows, and one of some.
pub(crate) const FRAME: &str =
    "OVER says which rows: OVER (ROWS 19 PRECEDING) has the row itself and 19 before, OVER (ROWS UNBOUNDED PRECEDING) all up to this one.";

// A frame of each key.
const PART: &str =
    "PARTITION BY has a column, and GROUPS says of how many of its values rows are kept: OVER (PARTITION BY symbol GROUPS 64 ROWS 19 PRECEDING). Rows come in the order of the stream, so there is no ORDER BY.";

const LAG: &str =
    "lag looks one row back, or as many as its number says, and has no ROWS: lag(price, 3) OVER () AS older. Of each key's own rows it is lag(price) OVER (PARTITION BY symbol GROUPS 64) AS prior.";

const FILTER: &str = "A condition in brackets is lacking: FILTER (WHERE price > 100).";

const FUNCTION: &str =
    "OVER is lacking: lag(price) OVER () AS prior, last_value(price) OVER (ROWS 19 PRECEDING) AS old.";

const FILTERED: &str =
    "FILTER goes with OVER alone. Of a total write the condition behind WHERE, or multiply by it: sum(CAST(price > 100 AS u32) * volume) AS v.";

const NAMELESS: &str =
    "A window has no name: write its rows in brackets behind each OVER, OVER (ROWS 19 PRECEDING).";

const ALONE: &str =
    "A function with OVER is a whole item. Name it with AS, and reckon with the name in a select over this one: SELECT price - prior AS d FROM (SELECT price, lag(price) OVER () AS prior FROM t).";

// Functions that count nowhere else, by their brackets.
const FUNCTIONS: [&[u8]; 2] = [b"lag", b"last_value"];

// Aggregates that OVER may follow.
const AGGREGATES: [&[u8]; 5] = [b"count", b"sum", b"min", b"max", b"avg"];

// Whether a bracket opens behind this word, which stands behind a closed one.
fn opens_behind(pieces: &Pieces<'_>, open: usize, word: &[u8]) -> bool {
    is_spelled(pieces.before(open, 1), word) && is_sign(pieces.before(open, 2), b')')
}

// The bracket around a piece, if it is that of an OVER.
fn over_at(pieces: &Pieces<'_>, at: usize) -> Option<usize> {
    let open = pieces.open_before(at)?;
    if opens_behind(pieces, open, b"over") {
        Some(open)
    } else {
        None
    }
}

// Whether an OVER's bracket belongs to `lag`.
fn is_of_lag(pieces: &Pieces<'_>, open: usize) -> bool {
    let Some(over) = open.checked_sub(1) else {
        return false;
    };
    is_spelled(call_at(pieces, over.saturating_sub(1)), b"lag")
}

// In the PARTITION of an OVER, and behind its number.
fn in_part(pieces: &Pieces<'_>, at: usize, open: usize) -> Option<State> {
    let (word, front) = (pieces.before(at, 1), pieces.before(at, 2));
    if is_spelled(front, b"by") {
        Some(State::Groups)
    } else if is_spelled(word, b"by") {
        Some(State::Key)
    } else if is_spelled(word, b"partition") {
        Some(State::By)
    } else if is_spelled(word, b"groups") {
        Some(State::Number)
    } else if !is_spelled(front, b"groups") {
        None
    } else if is_of_lag(pieces, open) {
        Some(State::FrameEnd)
    } else {
        Some(State::FrameRows)
    }
}

// In the brackets of an OVER.
fn in_over(pieces: &Pieces<'_>, at: usize, open: usize) -> State {
    let (word, front) = (pieces.before(at, 1), pieces.before(at, 2));
    if is_sign(word, b'(') {
        return if is_of_lag(pieces, open) {
            State::LagPart
        } else {
            State::FramePart
        };
    }
    if let Some(state) = in_part(pieces, at, open) {
        return state;
    }
    if is_one_of(word, &[b"rows", b"between"]) {
        return State::FrameBound;
    }
    if is_number(word) || is_spelled(word, b"unbounded") {
        return State::Preceding;
    }
    if is_spelled(word, b"preceding") {
        let is_between = is_spelled(pieces.before(at, 3), b"between");
        return if is_between && !is_sign(front, b'(') {
            State::FrameAnd
        } else {
            State::FrameEnd
        };
    }
    if is_spelled(word, b"and") {
        return State::Current;
    }
    if is_spelled(word, b"current") {
        return State::Row;
    }
    State::FrameEnd
}

// Behind the bracket of a function, of FILTER or of OVER.
fn behind_call(pieces: &Pieces<'_>, at: usize) -> Option<State> {
    let open = closed_before(pieces, at)?;
    let front = pieces.before(open, 1);
    if opens_behind(pieces, open, b"over") {
        Some(State::TotalAs)
    } else if opens_behind(pieces, open, b"filter") || is_spelled(front, b"lag") {
        Some(State::Over)
    } else if is_spelled(front, b"last_value") {
        Some(State::FilterOrOver)
    } else if is_one_of(front, &AGGREGATES) {
        Some(State::TotalEnd)
    } else {
        None
    }
}

// Behind the comma of `lag`, and behind its number.
fn in_lag(pieces: &Pieces<'_>, at: usize) -> Option<State> {
    if !is_spelled(call_at(pieces, at), b"lag") {
        return None;
    }
    if is_sign(pieces.before(at, 1), b',') {
        Some(State::FrameBack)
    } else if is_sign(pieces.before(at, 2), b',') {
        Some(State::FrameEnd)
    } else {
        None
    }
}

/// What a statement waits for at a piece, where that is a matter of functions of rows.
pub(crate) fn frame_state(pieces: &Pieces<'_>, at: usize) -> Option<State> {
    let before = pieces.before(at, 1);
    if let Some(open) = over_at(pieces, at) {
        return Some(in_over(pieces, at, open));
    }
    if is_sign(before, b')') {
        return behind_call(pieces, at);
    }
    if is_one_of(before, &[b"over", b"filter"]) && is_sign(pieces.before(at, 2), b')') {
        return Some(State::FrameOpen);
    }
    if is_sign(before, b'(') {
        let open = at.checked_sub(1)?;
        return if opens_behind(pieces, open, b"filter") {
            Some(State::FilterWhere)
        } else {
            None
        };
    }
    if is_one_of(before, &FUNCTIONS) && has_capital(before) {
        return Some(State::CallOpen);
    }
    in_lag(pieces, at)
}

/// What can stand there.
pub(crate) fn frame_words(state: State) -> Option<&'static str> {
    match state {
        State::TotalEnd => Some("AS, FILTER or OVER"),
        State::FilterOrOver => Some("FILTER or OVER"),
        State::Over => Some("OVER"),
        State::FrameOpen => Some("("),
        State::FilterWhere => Some("WHERE"),
        State::FramePart => Some("PARTITION or ROWS"),
        State::LagPart => Some("PARTITION or )"),
        State::FrameRows => Some("ROWS"),
        State::FrameBound => Some("a number, UNBOUNDED or BETWEEN"),
        State::Preceding => Some("PRECEDING"),
        State::FrameAnd => Some("AND"),
        State::Current => Some("CURRENT"),
        State::Row => Some("ROW"),
        State::FrameEnd => Some(")"),
        State::FrameBack => Some("a number"),
        _ => None,
    }
}

/// What is lacking there.
pub(crate) fn frame_lacking(state: State) -> Option<&'static str> {
    match state {
        State::FilterOrOver | State::Over => Some(FUNCTION),
        State::FilterWhere => Some(FILTER),
        State::FrameOpen
        | State::FramePart
        | State::LagPart
        | State::FrameRows
        | State::FrameBound
        | State::Preceding
        | State::FrameAnd
        | State::Current
        | State::Row
        | State::FrameEnd => Some(FRAME),
        State::FrameBack => Some(LAG),
        _ => None,
    }
}

// Words in the brackets of an OVER.
fn over_cure(word: &[u8]) -> &'static str {
    if is_one_of(word, &[b"order", b"sort"]) {
        "Rows come in the order of the stream: leave ORDER BY out, OVER (ROWS 19 PRECEDING)."
    } else if is_spelled(word, b"partition") {
        "PARTITION BY stands first in the brackets of OVER: OVER (PARTITION BY symbol GROUPS 64 ROWS 19 PRECEDING)."
    } else if is_one_of(word, &[b"range", b"groups", b"interval"]) {
        "A frame counts rows: OVER (ROWS 19 PRECEDING)."
    } else if is_one_of(word, &[b"following", b"exclude"]) {
        "A frame ends with the row itself: OVER (ROWS 19 PRECEDING)."
    } else {
        FRAME
    }
}

// What to write in the brackets of an OVER.
fn bracket_cure(pieces: &Pieces<'_>, at: usize, open: usize, state: State) -> &'static str {
    if matches!(
        state,
        State::By | State::Key | State::Groups | State::Number
    ) {
        PART
    } else if is_of_lag(pieces, open) {
        LAG
    } else {
        over_cure(pieces.get(at))
    }
}

// Whether what closes in front is the bracket of this word, which stands behind a function.
fn is_behind(pieces: &Pieces<'_>, at: usize, word: &[u8]) -> bool {
    match closed_before(pieces, at) {
        Some(open) => is_sign(pieces.before(at, 1), b')') && opens_behind(pieces, open, word),
        None => false,
    }
}

// Whether a function of rows begins there, or its bracket opens.
fn is_function(pieces: &Pieces<'_>, at: usize) -> bool {
    is_one_of(pieces.get(at), &FUNCTIONS) && is_sign(pieces.get(at.saturating_add(1)), b'(')
}

/// What to write where a function of rows, or a word of its brackets, cannot stand.
pub(crate) fn frame_cure(pieces: &Pieces<'_>, at: usize, state: State) -> Option<&'static str> {
    let word = pieces.get(at);
    if let Some(open) = over_at(pieces, at) {
        return Some(bracket_cure(pieces, at, open, state));
    }
    if is_operator(word) && is_behind(pieces, at, b"over") {
        return Some(ALONE);
    }
    if state == State::Over && is_behind(pieces, at, b"filter") {
        return Some(FILTERED);
    }
    if state == State::FrameOpen && is_spelled(pieces.before(at, 1), b"over") {
        return Some(NAMELESS);
    }
    let is_called = at
        .checked_sub(1)
        .is_some_and(|front| is_function(pieces, front));
    if is_function(pieces, at) || is_called {
        return Some(ALONE);
    }
    if is_spelled(word, b"over") && state == State::TotalAs {
        return Some(
            "wsum has no OVER, since its weights count a window's rows. lag(price) OVER () AS prior gives the row before, and a select over it weighs both.",
        );
    }
    frame_lacking(state)
}
