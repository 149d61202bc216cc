//! What to write where no statement goes on: which rule of the language stands there.

use crate::calls::calls_cure;
use crate::elsewhere::cure_of;
use crate::expected::expression_call;
use crate::joins::is_behind_join;
use crate::lacking::{
    EACH_WINDOW, ITEM_NAMES, JOIN_BY, KEY, ONE_JOIN, ONE_STATEMENT, SIGN, WINDOW, behind_key,
    is_lacking, lacking,
};
use crate::pieces::{Pieces, is_one_of, is_sign, is_spelled};
use crate::states::{State, state_at};
use crate::words::{is_comparison, is_name, is_number, is_operator, is_taken, name_cure};

const KEYS: &str =
    "A group has one key. Make one of two in a select below: CAST(a AS u64) * 4294967296 + CAST(b AS u64) AS ab, for numbers of 32 bits.";

const WHOLE: &str =
    "No statement goes on like this. It is SELECT items FROM source, perhaps a window, WHERE and GROUP BY, and INTO a name.";

// Texts, and names in quotes.
fn quoted_cure(pieces: &Pieces<'_>, at: usize, state: State) -> Option<&'static str> {
    let word = pieces.get(at);
    let is_named = matches!(
        state,
        State::ItemName | State::ResultName | State::Source | State::Key | State::Variable
    );
    match word {
        [b'\'' | b'"', ..] if is_named => Some("A name has no quotes."),
        [b'\'', ..] if pieces.before(at, 1).starts_with(b"'") => Some(
            "A text has no quote in it, and nothing joins two texts.",
        ),
        [b'\'', .., b'\''] if word.len() > 10 => {
            Some("A text literal has at most 8 bytes: a column of texts has no longer ones.")
        }
        [b'\'', .., b'\''] if word.iter().all(|byte| matches!(*byte, b' '..=b'~')) => None,
        [b'\'', .., b'\''] => Some("A text has bytes that print alone."),
        [b'\'', ..] => Some("The text literal is not closed: write ' at its end."),
        [b'"', ..] => Some(
            "A text stands in single quotes, 'UBSN', at most eight bytes. A name has no quotes.",
        ),
        [b'`', ..] => Some("A name has no quotes."),
        _ => None,
    }
}

// Points: fractions, and names with a source in front.
fn point_cure(pieces: &Pieces<'_>, at: usize) -> Option<&'static str> {
    if !is_sign(pieces.get(at), b'.') {
        return None;
    }
    let two_on = pieces.get(at.saturating_add(2));
    if is_number(pieces.before(at, 1)) && is_sign(two_on, b'.') {
        return Some(
            "An address is a number, 167772161 for 10.0.0.1: the feed and the query have it so.",
        );
    }
    if is_number(pieces.before(at, 1)) || is_number(pieces.get(at.saturating_add(1))) {
        return Some("There are no fractions: count in the smallest unit, 150 cents for 1.5.");
    }
    Some("A select has one source, so a name has no front: price in place of trades.price.")
}

// NOT where none can stand.
fn not_cure(pieces: &Pieces<'_>, at: usize, state: State) -> Option<&'static str> {
    let next = pieces.get(at.saturating_add(1));
    if !is_spelled(pieces.get(at), b"not") {
        return None;
    }
    if state == State::TightOperand {
        return Some(if is_spelled(pieces.before(at, 1), b"not") {
            "NOT stands once in front of a comparison, and two of them are none."
        } else {
            "NOT stands in front of a whole comparison: write brackets around both, (NOT price > 100)."
        });
    }
    if state != State::BehindOperand {
        return None;
    }
    if is_spelled(next, b"in") && is_spelled(pieces.get(at.saturating_add(3)), b"select") {
        return Some(
            "Rows are not compared with rows. A condition over the row's own columns stands in WHERE.",
        );
    }
    if is_spelled(next, b"in") {
        return Some("Write a comparison for each value, joined by AND: x <> 1 AND x <> 2.");
    }
    if is_spelled(next, b"between") {
        return Some("Write two comparisons, joined by OR: x < 1 OR x > 5.");
    }
    Some(cure_of(next).unwrap_or(
        "NOT stands in front of a comparison, NOT price > 100, and behind AND, OR and WHERE.",
    ))
}

// Whether a name stands there behind an item, as its other name without AS.
fn is_other_name(pieces: &Pieces<'_>, at: usize, state: State) -> bool {
    let next = pieces.get(at.saturating_add(1));
    matches!(
        state,
        State::BehindOperand | State::TotalAs | State::TotalEnd | State::BehindItem
    ) && is_name(pieces.get(at))
        && is_spelled(pieces.clause(at), b"select")
        && is_one_of(next, &[b",", b"from"])
}

// Words of other languages, there or in front.
fn foreign_cure(pieces: &Pieces<'_>, at: usize, state: State) -> Option<&'static str> {
    let before = pieces.before(at, 1);
    if is_one_of(
        before,
        &[
            b"distinct",
            b"top",
            b"case",
            b"with",
            b"if",
            b"interval",
            b"limit",
            b"order",
            b"exists",
        ],
    ) {
        return cure_of(before);
    }
    if state == State::JoinBy && is_spelled(before, b"join") {
        return cure_of(before);
    }
    if state == State::SignedNumber && is_sign(pieces.get(at), b':') {
        return Some(SIGN);
    }
    if state == State::Key && is_spelled(pieces.get(at), b"all") {
        return Some(KEY);
    }
    if state == State::Variable || is_other_name(pieces, at, state) {
        return None;
    }
    if is_spelled(pieces.get(at), b"asof")
        && (state == State::JoinBy || is_behind_join(pieces, at))
    {
        return Some(ONE_JOIN);
    }
    cure_of(pieces.get(at))
}

// A second key that is a function or a window's time elsewhere.
fn key_cure(pieces: &Pieces<'_>, at: usize) -> Option<&'static str> {
    let word = pieces.get(at);
    if is_sign(pieces.get(at.saturating_add(1)), b'(')
        || is_one_of(word, &[b"window_start", b"window_end"])
    {
        cure_of(word)
    } else {
        None
    }
}

// Keys without GROUPS, and several keys.
fn group_cure(pieces: &Pieces<'_>, at: usize, state: State) -> Option<&'static str> {
    let word = pieces.get(at);
    if state == State::Key {
        return Some(KEY);
    }
    if state != State::Groups {
        return None;
    }
    if is_sign(word, b',') {
        return Some(key_cure(pieces, at.saturating_add(1)).unwrap_or(KEYS));
    }
    if is_operator(word) {
        return Some(KEY);
    }
    Some(behind_key(pieces, at))
}

// Sources: one, without another name.
fn source_cure(pieces: &Pieces<'_>, at: usize, state: State) -> Option<&'static str> {
    let word = pieces.get(at);
    if !matches!(
        state,
        State::BehindSource | State::BehindWindow | State::BehindEach | State::JoinBy
    ) {
        return None;
    }
    if is_sign(word, b',') {
        return Some(
            "A select has one source: UNION mixes the rows of two, and CONCAT pairs two totals.",
        );
    }
    if is_spelled(word, b"as") || is_name(word) {
        return Some(
            "A source has no other name: leave the alias out, and its front before columns.",
        );
    }
    match state {
        State::BehindEach => Some(EACH_WINDOW),
        State::JoinBy => Some(JOIN_BY),
        _ => None,
    }
}

// Items: AS and a name, a star alone, none lacking.
fn item_cure(pieces: &Pieces<'_>, at: usize, state: State) -> Option<&'static str> {
    let word = pieces.get(at);
    let is_behind = matches!(
        state,
        State::BehindOperand | State::TotalAs | State::TotalEnd | State::BehindItem
    );
    if state == State::From && is_sign(word, b',') || state == State::Item && is_sign(word, b'*') {
        return Some("* stands alone, for all columns: name each column where more is asked for.");
    }
    if !is_behind
        || !is_spelled(pieces.clause(at), b"select")
        || expression_call(pieces, at).is_some()
    {
        return None;
    }
    if is_name(word) {
        return Some(
            "Write AS in front of an item's other name: price AS p. Between two items stands a comma.",
        );
    }
    if matches!(state, State::TotalAs | State::TotalEnd) && !is_sign(word, b')') {
        return Some(ITEM_NAMES);
    }
    None
}

// Windows, and the order of clauses.
fn order_cure(pieces: &Pieces<'_>, at: usize, state: State) -> Option<&'static str> {
    let (word, clause) = (pieces.get(at), pieces.clause(at));
    if state == State::Measure && is_spelled(word, b"time") {
        return Some(
            "Windows of a group's own rows count rows alone: write TUPLES, or take groups in windows of time.",
        );
    }
    if matches!(
        state,
        State::Size | State::Advance | State::Measure | State::WindowEnd
    ) {
        return Some(WINDOW);
    }
    if is_sign(word, b'[')
        && !matches!(state, State::Operand | State::TightOperand | State::JoinBy)
    {
        return Some("A window stands right behind its source, in front of WHERE and GROUP BY.");
    }
    if is_spelled(word, b"where") && is_one_of(clause, &[b"groups", b"by"]) {
        return Some("WHERE stands in front of GROUP BY.");
    }
    if is_spelled(word, b"by") && is_spelled(pieces.before(at, 1), b"concat") {
        return Some("BY ARRIVAL stands behind UNION alone: CONCAT pairs rows by their number.");
    }
    if is_sign(word, b')') && pieces.open_before(at).is_none() {
        return Some("No bracket is open in front.");
    }
    if is_spelled(word, b"into") && matches!(state, State::BehindSource | State::BehindQuery) {
        return Some("INTO stands once, behind the last bracket of a statement.");
    }
    if is_one_of(word, &[b"and", b"or"]) && state == State::BehindSource {
        return Some("A condition stands behind WHERE: WHERE price > 1 AND volume > 5.");
    }
    if state == State::End {
        return Some(ONE_STATEMENT);
    }
    None
}

// Signs in front of what is no number, and comparisons of three sides.
fn sign_cure(pieces: &Pieces<'_>, at: usize, state: State) -> Option<&'static str> {
    let word = pieces.get(at);
    if state == State::SignedNumber {
        return Some(SIGN);
    }
    if is_sign(word, b'+') && state == State::TightOperand {
        return Some("A number above 0 has no sign: leave the + out.");
    }
    if state == State::BehindOperand && is_comparison(word) {
        return Some("A comparison has two sides: join two comparisons by AND.");
    }
    None
}

// The rules that are asked first: what is written otherwise elsewhere.
fn first_cure(pieces: &Pieces<'_>, at: usize, state: State) -> Option<&'static str> {
    if let Some(cure) = quoted_cure(pieces, at, state) {
        return Some(cure);
    }
    if let Some(cure) = point_cure(pieces, at) {
        return Some(cure);
    }
    if let Some(cure) = not_cure(pieces, at, state) {
        return Some(cure);
    }
    if let Some(cure) = calls_cure(pieces, at, state) {
        return Some(cure);
    }
    if let Some(cure) = foreign_cure(pieces, at, state) {
        return Some(cure);
    }
    let word = pieces.get(at);
    if wants_name(state) || matches!(word, [b'0'..=b'9', ..]) {
        name_cure(word)
    } else {
        None
    }
}

// The rules that are asked then: those of each clause.
fn second_cure(pieces: &Pieces<'_>, at: usize, state: State) -> Option<&'static str> {
    if let Some(cure) = sign_cure(pieces, at, state) {
        return Some(cure);
    }
    if let Some(cure) = group_cure(pieces, at, state) {
        return Some(cure);
    }
    if let Some(cure) = order_cure(pieces, at, state) {
        return Some(cure);
    }
    if let Some(cure) = source_cure(pieces, at, state) {
        return Some(cure);
    }
    item_cure(pieces, at, state)
}

// Whether a name may stand there.
fn wants_name(state: State) -> bool {
    matches!(
        state,
        State::Variable
            | State::ItemName
            | State::ResultName
            | State::Key
            | State::Source
            | State::FirstItem
            | State::Item
            | State::Operand
            | State::TightOperand
            | State::ParameterName
    )
}

// Words of the language that are rather misplaced than meant as names.
const STRUCTURE: [&[u8]; 17] = [
    b"select", b"from", b"where", b"group", b"by", b"groups", b"each", b"in", b"union", b"concat",
    b"into", b"as", b"and", b"or", b"not", b"cast", b"having",
];

// Whether what stands behind a piece goes on as behind a name.
fn is_followed(next: &[u8], state: State) -> bool {
    match state {
        State::Variable => is_spelled(next, b"in"),
        State::ItemName => is_one_of(next, &[b",", b"from"]),
        State::ResultName => next.is_empty() || is_sign(next, b';'),
        State::Key => is_spelled(next, b"groups"),
        State::FirstItem | State::Item => {
            is_operator(next) || is_one_of(next, &[b",", b"from", b"as"])
        }
        State::Operand | State::TightOperand | State::ParameterName => {
            is_operator(next) || is_one_of(next, &[b")", b"into", b"group", b"as"])
        }
        _ => false,
    }
}

/// Whether a word of the language stands there where a name is wanted.
pub(crate) fn is_word_for_name(pieces: &Pieces<'_>, at: usize) -> bool {
    let (word, next) = (pieces.get(at), pieces.get(at.saturating_add(1)));
    let state = state_at(pieces, at);
    if !is_taken(word) || !wants_name(state) || is_one_of(word, &[b"and", b"or", b"not"]) {
        return false;
    }
    is_followed(next, state) || !is_one_of(word, &STRUCTURE) && !is_sign(next, b'(')
}

/// What to write where no statement goes on at a piece, or at the end of the text.
pub(crate) fn syntax_cure(pieces: &Pieces<'_>, at: usize) -> &'static str {
    let state = state_at(pieces, at);
    if at >= pieces.len() {
        return lacking(pieces, at, state);
    }
    if is_word_for_name(pieces, at) {
        return "Write another name.";
    }
    if let Some(cure) = first_cure(pieces, at, state) {
        return cure;
    }
    if let Some(cure) = second_cure(pieces, at, state) {
        return cure;
    }
    if is_lacking(pieces, at, state) {
        lacking(pieces, at, state)
    } else {
        WHOLE
    }
}
