//! What a statement waits for in front of a piece.
//!
//! The pieces in front of the first syntax fault begin a statement. So the last few of them tell, with the
//! bracket around.

use crate::frames::frame_state;
use crate::joins::{behind_asof, is_behind_asof};
use crate::pieces::{Pieces, is_one_of, is_sign, is_spelled};
use crate::unions::{behind_union, is_behind_arrival};
use crate::words::{ends_operand, is_number, is_total};

/// What a statement waits for.
#[derive(Clone, Copy, PartialEq, Eq)]
pub(crate) enum State {
    /// A select, an EACH or a query in brackets.
    Term,
    /// The variable of an EACH.
    Variable,
    /// IN behind a variable.
    In,
    /// A source.
    Source,
    /// A window, or what stands behind one, behind the source of a select.
    BehindSource,
    /// WHERE or what stands behind it, behind the window of a select.
    BehindWindow,
    /// A window or BY behind the source of an EACH.
    BehindEach,
    /// SIZE.
    Size,
    /// The number behind SIZE, ADVANCE or GROUPS.
    Number,
    /// ADVANCE.
    Advance,
    /// TUPLES or TIME.
    Measure,
    /// The end of a window.
    WindowEnd,
    /// The body of an EACH.
    Body,
    /// A window or the body behind the groups of an EACH.
    GroupBody,
    /// BY behind GROUP.
    By,
    /// ARRIVAL behind UNION BY.
    Arrival,
    /// BY behind the right side of ASOF.
    JoinBy,
    /// The key behind BY.
    Key,
    /// GROUPS behind a key.
    Groups,
    /// The first item.
    FirstItem,
    /// A further item.
    Item,
    /// The bracket behind the word of an aggregate or behind CAST.
    CallOpen,
    /// The end of `count(`.
    CountEnd,
    /// AS behind an aggregate.
    TotalAs,
    /// AS, FILTER or OVER behind an aggregate.
    TotalEnd,
    /// FILTER or OVER behind `last_value`.
    FilterOrOver,
    /// OVER behind `lag` or a FILTER.
    Over,
    /// The bracket behind FILTER or OVER.
    FrameOpen,
    /// WHERE in the bracket of a FILTER.
    FilterWhere,
    /// PARTITION or ROWS in the bracket of an OVER.
    FramePart,
    /// PARTITION or the end in the bracket of the OVER of `lag`.
    LagPart,
    /// ROWS in the bracket of an OVER, behind PARTITION.
    FrameRows,
    /// How many rows, behind ROWS and BETWEEN.
    FrameBound,
    /// PRECEDING.
    Preceding,
    /// AND behind the PRECEDING of a BETWEEN.
    FrameAnd,
    /// CURRENT.
    Current,
    /// ROW.
    Row,
    /// The end of `lag` or OVER.
    FrameEnd,
    /// The number of `lag`.
    FrameBack,
    /// The name of an item.
    ItemName,
    /// A comma or FROM behind an item.
    BehindItem,
    /// FROM behind `*`.
    From,
    /// An operand, in front of which NOT may stand.
    Operand,
    /// An operand, in front of which NOT may not stand.
    TightOperand,
    /// The number behind a sign.
    SignedNumber,
    /// The name behind a colon.
    ParameterName,
    /// An operator, or what ends an expression.
    BehindOperand,
    /// A kind.
    Kind,
    /// The end of CAST.
    CastEnd,
    /// The bracket of weights.
    Weights,
    /// A weight.
    Weight,
    /// A comma or the end of the weights.
    BehindWeight,
    /// The end of WSUM.
    WeightsEnd,
    /// UNION, CONCAT, INTO or a closing bracket.
    BehindQuery,
    /// The name behind INTO.
    ResultName,
    /// `;` or the end of the text.
    BehindName,
    /// The end of the text.
    End,
}

// Words, and what a statement waits for behind each of them.
struct Behind {
    words: &'static [&'static [u8]],
    state: State,
}

const BEHIND: [Behind; 13] = [
    Behind {
        words: &[b"union", b"concat"],
        state: State::Term,
    },
    Behind {
        words: &[b"each"],
        state: State::Variable,
    },
    Behind {
        words: &[b"from", b"in"],
        state: State::Source,
    },
    Behind {
        words: &[b"size", b"advance", b"groups"],
        state: State::Number,
    },
    Behind {
        words: &[b"tuples", b"time"],
        state: State::WindowEnd,
    },
    Behind {
        words: &[b"group"],
        state: State::By,
    },
    Behind {
        words: &[b"by"],
        state: State::Key,
    },
    Behind {
        words: &[b"select"],
        state: State::FirstItem,
    },
    Behind {
        words: &[b"cast", b"count", b"sum", b"min", b"max", b"avg", b"wsum"],
        state: State::CallOpen,
    },
    Behind {
        words: &[b"where", b"and", b"or"],
        state: State::Operand,
    },
    Behind {
        words: &[b"not", b"=", b"<>", b"<", b"<=", b">", b">=", b"+"],
        state: State::TightOperand,
    },
    Behind {
        words: &[b"into"],
        state: State::ResultName,
    },
    Behind {
        words: &[b";"],
        state: State::End,
    },
];

// What the first of some rows with a word says.
fn state_in(rows: &[Behind], word: &[u8]) -> Option<State> {
    for row in rows {
        if is_one_of(word, row.words) {
            return Some(row.state);
        }
    }
    None
}

/// The word in front of the bracket that is open at a piece.
pub(crate) fn call_at<'a>(pieces: &Pieces<'a>, at: usize) -> &'a [u8] {
    match pieces.open_before(at) {
        Some(open) => pieces.before(open, 1),
        None => b"",
    }
}

/// The bracket that the piece in front closes.
pub(crate) fn closed_before(pieces: &Pieces<'_>, at: usize) -> Option<usize> {
    match at.checked_sub(1) {
        Some(closing) => pieces.open_before(closing),
        None => None,
    }
}

/// Whether a round bracket stands around a query, and not around an expression.
pub(crate) fn is_of_query(pieces: &Pieces<'_>, open: usize) -> bool {
    for place in (0..open).rev() {
        let word = pieces.get(place);
        if !is_sign(word, b'(') {
            return is_one_of(word, &[b"from", b"in", b"union", b"concat", b"]"])
                || is_number(word)
                || is_behind_arrival(pieces, place.saturating_add(1))
                || is_behind_asof(pieces, place.saturating_add(1));
        }
    }
    true
}

// Behind `(`.
fn behind_open(pieces: &Pieces<'_>, at: usize) -> State {
    if is_spelled(pieces.before(at, 2), b"count") {
        return State::CountEnd;
    }
    match at.checked_sub(1) {
        Some(open) if !is_of_query(pieces, open) => State::Operand,
        _ => State::Term,
    }
}

// Behind `)`.
fn behind_close(pieces: &Pieces<'_>, at: usize) -> State {
    let Some(open) = closed_before(pieces, at) else {
        return State::BehindOperand;
    };
    let front = pieces.before(open, 1);
    if is_total(front) {
        State::TotalAs
    } else if !is_of_query(pieces, open) {
        State::BehindOperand
    } else if is_spelled(front, b"from") {
        State::BehindSource
    } else if is_spelled(front, b"in") {
        State::BehindEach
    } else {
        State::BehindQuery
    }
}

// Behind `]`.
fn behind_square(pieces: &Pieces<'_>, at: usize) -> State {
    let Some(open) = closed_before(pieces, at) else {
        return State::Body;
    };
    if is_sign(pieces.before(open, 1), b',') {
        State::WeightsEnd
    } else if is_spelled(pieces.clause(open), b"from")
        || matches!(behind_asof(pieces, open), Some(State::BehindSource))
    {
        State::BehindWindow
    } else {
        State::Body
    }
}

// Behind a comma.
fn behind_comma(pieces: &Pieces<'_>, at: usize) -> State {
    match pieces.open_before(at) {
        Some(open) if is_sign(pieces.get(open), b'[') => State::Weight,
        Some(open) if is_spelled(pieces.before(open, 1), b"wsum") => State::Weights,
        _ => State::Item,
    }
}

// Behind another sign.
fn behind_sign(pieces: &Pieces<'_>, at: usize) -> Option<State> {
    let front = pieces.before(at, 2);
    match pieces.before(at, 1) {
        b"[" if is_sign(front, b',') => Some(State::Weight),
        b"[" => Some(State::Size),
        b"*" if is_spelled(front, b"select") => Some(State::From),
        b"*" | b"!=" | b"&" | b"|" | b"^" | b"~" | b"<<" | b">>" => Some(State::TightOperand),
        b"-" if ends_operand(front) => Some(State::TightOperand),
        b"-" => Some(State::SignedNumber),
        b":" => Some(State::ParameterName),
        b"(" => Some(behind_open(pieces, at)),
        b")" => Some(behind_close(pieces, at)),
        b"]" => Some(behind_square(pieces, at)),
        b"," => Some(behind_comma(pieces, at)),
        _ => None,
    }
}

// Behind a number.
fn behind_number(pieces: &Pieces<'_>, at: usize) -> State {
    let front = pieces.before(at, 2);
    if is_spelled(front, b"size") {
        return State::Advance;
    }
    if is_spelled(front, b"advance") {
        return State::Measure;
    }
    if is_spelled(front, b"groups") {
        return if is_spelled(pieces.before(at, 5), b"group") {
            State::BehindQuery
        } else {
            State::GroupBody
        };
    }
    match pieces.open_before(at) {
        Some(open) if is_sign(pieces.get(open), b'[') => State::BehindWeight,
        _ => State::BehindOperand,
    }
}

// Behind a name, a text or AS.
fn behind_name(pieces: &Pieces<'_>, at: usize) -> State {
    let front = pieces.before(at, 2);
    let is_cast = is_spelled(call_at(pieces, at), b"cast");
    if is_spelled(pieces.before(at, 1), b"as") {
        return if is_cast {
            State::Kind
        } else {
            State::ItemName
        };
    }
    if is_spelled(front, b"as") {
        return if is_cast {
            State::CastEnd
        } else {
            State::BehindItem
        };
    }
    state_in(&BEHIND_NAMES, front).unwrap_or(State::BehindOperand)
}

const BEHIND_NAMES: [Behind; 5] = [
    Behind {
        words: &[b"each"],
        state: State::In,
    },
    Behind {
        words: &[b"into"],
        state: State::BehindName,
    },
    Behind {
        words: &[b"by"],
        state: State::Groups,
    },
    Behind {
        words: &[b"from"],
        state: State::BehindSource,
    },
    Behind {
        words: &[b"in"],
        state: State::BehindEach,
    },
];

/// What a statement waits for at a piece, where the pieces in front begin one.
pub(crate) fn state_at(pieces: &Pieces<'_>, at: usize) -> State {
    let before = pieces.before(at, 1);
    if before.is_empty() {
        return State::Term;
    }
    if let Some(state) = frame_state(pieces, at) {
        return state;
    }
    if let Some(state) = behind_union(pieces, at) {
        return state;
    }
    if let Some(state) = behind_asof(pieces, at) {
        return state;
    }
    if let Some(state) = state_in(&BEHIND, before) {
        return state;
    }
    if let Some(state) = behind_sign(pieces, at) {
        return state;
    }
    if is_number(before) {
        behind_number(pieces, at)
    } else {
        behind_name(pieces, at)
    }
}
