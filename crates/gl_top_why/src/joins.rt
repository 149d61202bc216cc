//! What stands behind ASOF: a source, BY and a key, GROUPS and a number. It is a word behind a source alone.

use crate::pieces::{Pieces, is_one_of, is_sign, is_spelled};
use crate::states::{State, closed_before};
use crate::words::is_name;

// Where the source begins that ends in front of a piece: its bracket, or its name.
fn source_before(pieces: &Pieces<'_>, at: usize) -> Option<usize> {
    let before = pieces.before(at, 1);
    if is_sign(before, b')') {
        closed_before(pieces, at)
    } else if is_name(before) {
        at.checked_sub(1)
    } else {
        None
    }
}

// Where the left side begins of the ASOF in front of a piece.
fn left_side(pieces: &Pieces<'_>, at: usize) -> Option<usize> {
    if !is_spelled(pieces.before(at, 1), b"asof") {
        return None;
    }
    let left = source_before(pieces, at.saturating_sub(1))?;
    if is_one_of(pieces.before(left, 1), &[b"from", b"in"]) {
        Some(left)
    } else {
        None
    }
}

// Where the left side begins of the ASOF whose right side ends in front of a piece.
fn joined_side(pieces: &Pieces<'_>, at: usize) -> Option<usize> {
    left_side(pieces, source_before(pieces, at)?)
}

/// Whether ASOF stands in front of a piece.
pub(crate) fn is_behind_asof(pieces: &Pieces<'_>, at: usize) -> bool {
    left_side(pieces, at).is_some()
}

/// Whether a piece is the key of an ASOF.
pub(crate) fn is_join_key(pieces: &Pieces<'_>, at: usize) -> bool {
    is_spelled(pieces.before(at, 1), b"by") && joined_side(pieces, at.saturating_sub(1)).is_some()
}

// Where the source ends that begins at a piece.
fn source_end(pieces: &Pieces<'_>, first: usize) -> usize {
    if !is_sign(pieces.get(first), b'(') {
        return first.saturating_add(1);
    }
    let mut open = 0u64;
    for place in first..pieces.len() {
        match pieces.get(place) {
            b"(" => open = open.saturating_add(1),
            b")" if open == 1 => return place.saturating_add(1),
            b")" => open = open.saturating_sub(1),
            _ => {}
        }
    }
    pieces.len()
}

/// Whether the source that begins at a piece is the left side of an ASOF.
pub(crate) fn is_left_side(pieces: &Pieces<'_>, first: usize) -> bool {
    is_behind_asof(pieces, source_end(pieces, first).saturating_add(1))
}

/// What a statement waits for behind an ASOF, its right side or its number.
pub(crate) fn behind_asof(pieces: &Pieces<'_>, at: usize) -> Option<State> {
    if is_behind_asof(pieces, at) {
        return Some(State::Source);
    }
    if joined_side(pieces, at).is_some() {
        return Some(State::JoinBy);
    }
    if !is_spelled(pieces.before(at, 2), b"groups") || !is_spelled(pieces.before(at, 4), b"by") {
        return None;
    }
    let left = joined_side(pieces, at.saturating_sub(4))?;
    Some(if is_spelled(pieces.before(left, 1), b"from") {
        State::BehindSource
    } else {
        State::BehindEach
    })
}

/// Whether the number of an ASOF stands in front of a piece.
pub(crate) fn is_behind_join(pieces: &Pieces<'_>, at: usize) -> bool {
    matches!(
        behind_asof(pieces, at),
        Some(State::BehindSource | State::BehindEach)
    )
}
