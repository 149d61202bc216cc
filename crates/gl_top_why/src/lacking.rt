//! What a statement lacks at a piece, by what it waits for there.

use crate::expected::{expression_call, is_bare_item};
use crate::frames::frame_lacking;
use crate::joins::is_join_key;
use crate::pieces::{Pieces, is_one_of, is_sign, is_spelled};
use crate::states::State;
use crate::unions::is_behind_arrival;
use crate::words::is_operator;

pub(crate) const ITEM_NAMES: &str =
    "An item that is no column's bare name has AS and a name: sum(price) AS total.";

const GROUPS: &str =
    "GROUPS and a number are lacking: GROUP BY symbol GROUPS 64. The circuit has so many slots, at most 256.";

const JOIN_GROUPS: &str =
    "GROUPS and a number are lacking: FROM trades ASOF quotes BY symbol GROUPS 64. The circuit has so many slots, 1 to 4,096.";

pub(crate) const WINDOW: &str =
    "A window is [SIZE 600 ADVANCE 60 TUPLES], in this order, or [SIZE 5 ADVANCE 1 TIME] over ticks.";

pub(crate) const EACH_WINDOW: &str =
    "Behind the source of an EACH stands a window, [SIZE 60 ADVANCE 60 TUPLES], or BY symbol GROUPS 8. The body follows in brackets.";

pub(crate) const KEY: &str =
    "Behind BY stands a column's name. Make a key of an expression in a select below, with AS.";

pub(crate) const WEIGHTS: &str =
    "Weights stand in square brackets behind the value: wsum(price, [1, 2]) adds the first row's once and the second's twice.";

pub(crate) const SIGN: &str =
    "A sign stands in front of a number alone: write 0 - x, in a kind with a sign, CAST(x AS s64).";

pub(crate) const ONE_STATEMENT: &str =
    "A text has one statement. The commands many, manyfigures and manyrun take up to eight.";

pub(crate) const ARRIVAL: &str =
    "UNION BY ARRIVAL has the rows of both sides in the order in which they came. UNION alone has them in some order.";

pub(crate) const ONE_JOIN: &str =
    "A source has one ASOF. A join of a join has a select in brackets on one side: FROM (SELECT * FROM trades ASOF quotes BY symbol GROUPS 64) ASOF news BY symbol GROUPS 64.";

pub(crate) const JOIN_BY: &str =
    "Behind the right side of ASOF stand BY, a column of both sides, GROUPS and a number: FROM trades ASOF quotes BY symbol GROUPS 64.";

const PARAMETER: &str =
    "A parameter's name stands behind its colon, price > :cap, and the schema declares it: parameter cap u32;";

const INTO: &str =
    "INTO and a name are lacking: a statement ends in INTO r, which names the module.";

const FROM: &str = "FROM and a source are lacking: SELECT price FROM trades INTO r.";

const BRACKET: &str = "A bracket is open in front, and nothing closes it.";

/// What is lacking behind the key of groups, or of an ASOF.
pub(crate) fn behind_key(pieces: &Pieces<'_>, at: usize) -> &'static str {
    if is_join_key(pieces, at.saturating_sub(1)) {
        JOIN_GROUPS
    } else {
        GROUPS
    }
}

// Behind a query or in a condition.
fn behind_query(pieces: &Pieces<'_>, at: usize) -> &'static str {
    if pieces.open_before(at).is_some() {
        BRACKET
    } else {
        INTO
    }
}

// Behind an operand.
fn behind_operand(pieces: &Pieces<'_>, at: usize) -> &'static str {
    match expression_call(pieces, at) {
        Some(call) if is_spelled(call, b"cast") => "AS and a kind are lacking: CAST(price AS u64).",
        Some(call) if is_spelled(call, b"wsum") => WEIGHTS,
        Some(_) => BRACKET,
        None if is_spelled(pieces.clause(at), b"where") => behind_query(pieces, at),
        None if is_bare_item(pieces, at) => FROM,
        None => ITEM_NAMES,
    }
}

// In the place of an operand.
fn operand(pieces: &Pieces<'_>, at: usize) -> &'static str {
    let before = pieces.before(at, 1);
    if is_spelled(before, b"where") {
        "A condition is lacking behind WHERE: price > 100."
    } else if is_spelled(before, b"not") {
        "A comparison is lacking behind NOT: NOT price > 100."
    } else if is_sign(before, b'(') {
        "An expression is lacking in the brackets."
    } else {
        "The right side of the operator in front is lacking."
    }
}

// In the place of a query.
fn term(pieces: &Pieces<'_>, at: usize) -> &'static str {
    if is_one_of(pieces.before(at, 1), &[b"union", b"concat"]) || is_behind_arrival(pieces, at) {
        "Behind UNION and CONCAT stands another select: SELECT price FROM trades."
    } else {
        "A select is lacking: SELECT price FROM trades."
    }
}

// In the place of a number of a window or of groups.
fn number(pieces: &Pieces<'_>, at: usize) -> &'static str {
    if is_spelled(pieces.before(at, 1), b"groups") {
        "A number is lacking behind GROUPS: GROUP BY symbol GROUPS 64."
    } else {
        WINDOW
    }
}

// In and behind items.
fn item(state: State) -> Option<&'static str> {
    match state {
        State::FirstItem | State::Item => Some(
            "An item is lacking in front: a column's name, or an expression with AS and a name.",
        ),
        State::CallOpen => Some("Brackets are lacking: count(), sum(price) or CAST(price AS u64)."),
        State::CountEnd => Some("Write count(), with nothing in its brackets."),
        State::TotalAs | State::TotalEnd => Some(ITEM_NAMES),
        State::ItemName => Some("A name is lacking behind AS."),
        State::BehindItem | State::From => Some(FROM),
        State::Kind | State::CastEnd => Some(
            "A CAST has a kind and its bracket: CAST(price AS u64).",
        ),
        State::Weights => Some(WEIGHTS),
        State::Weight | State::BehindWeight | State::WeightsEnd => Some(
            "Weights are numbers without a sign, parted by commas: wsum(price, [1, 2]).",
        ),
        State::SignedNumber => Some(SIGN),
        State::ParameterName => Some(PARAMETER),
        _ => frame_lacking(state),
    }
}

// In and behind sources.
fn source(state: State) -> &'static str {
    match state {
        State::Variable =>
            "A variable is lacking: EACH w IN trades, and w is the source of its body.",
        State::In => "IN and a source are lacking: EACH w IN trades.",
        State::Source => "A source is lacking: the name of a stream, or a query in brackets.",
        State::BehindEach => EACH_WINDOW,
        State::Body | State::GroupBody =>
            "A body in brackets is lacking: (SELECT sum(price) AS p FROM w), where w is the variable.",
        State::By => "BY is lacking behind GROUP: GROUP BY symbol GROUPS 64.",
        State::Arrival => ARRIVAL,
        State::JoinBy => JOIN_BY,
        State::Key => KEY,
        State::ResultName => "A name is lacking behind INTO.",
        State::BehindName | State::End => ONE_STATEMENT,
        _ => WINDOW,
    }
}

/// What a statement lacks at a piece where it waits for this.
pub(crate) fn lacking(pieces: &Pieces<'_>, at: usize, state: State) -> &'static str {
    match state {
        State::Term => term(pieces, at),
        State::Number => number(pieces, at),
        State::Groups => behind_key(pieces, at),
        State::Operand | State::TightOperand => operand(pieces, at),
        State::BehindOperand => behind_operand(pieces, at),
        State::BehindSource | State::BehindWindow | State::BehindQuery => behind_query(pieces, at),
        _ => item(state).unwrap_or(source(state)),
    }
}

// Words and signs that end what stands in front of them.
const ENDS: [&[u8]; 12] = [
    b",", b")", b"]", b";", b"from", b"where", b"group", b"into", b"union", b"concat", b"as",
    b"groups",
];

/// Whether a piece ends what stands in front of it, so that something is lacking there.
pub(crate) fn is_lacking(pieces: &Pieces<'_>, at: usize, state: State) -> bool {
    let word = pieces.get(at);
    match state {
        State::BehindSource | State::BehindWindow | State::BehindQuery => is_sign(word, b';'),
        State::BehindOperand => {
            let is_condition = expression_call(pieces, at).is_none()
                && is_spelled(pieces.clause(at), b"where");
            is_sign(word, b';') || !is_condition && is_one_of(word, &ENDS)
        }
        State::Operand | State::TightOperand => is_one_of(word, &ENDS) || is_operator(word),
        State::Variable
        | State::In
        | State::Source
        | State::By
        | State::Arrival
        | State::JoinBy
        | State::Number
        | State::Body
        | State::GroupBody
        | State::CallOpen
        | State::ParameterName
        | State::Weight
        | State::BehindWeight
        | State::WeightsEnd => true,
        _ => is_one_of(word, &ENDS),
    }
}
