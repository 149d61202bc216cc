//! What stands behind UNION: BY and ARRIVAL, which no other word follows.

use crate::pieces::{Pieces, is_spelled};
use crate::states::State;

/// Whether UNION BY ARRIVAL stands in front of a piece.
pub(crate) fn is_behind_arrival(pieces: &Pieces<'_>, at: usize) -> bool {
    is_spelled(pieces.before(at, 1), b"arrival")
        && is_spelled(pieces.before(at, 2), b"by")
        && is_spelled(pieces.before(at, 3), b"union")
}

/// What a statement waits for behind the BY of a UNION, and behind its ARRIVAL.
pub(crate) fn behind_union(pieces: &Pieces<'_>, at: usize) -> Option<State> {
    if is_behind_arrival(pieces, at) {
        Some(State::Term)
    } else if is_spelled(pieces.before(at, 1), b"by")
        && is_spelled(pieces.before(at, 2), b"union")
    {
        Some(State::Arrival)
    } else {
        None
    }
}
