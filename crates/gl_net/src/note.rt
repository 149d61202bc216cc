//! What the makers of nodes tell about them for readers: whose they are, and what they carry.

use crate::node::{Bit, Bus};

/// What is told of nodes, in words of a plan. No run and no clause depends on it.
#[derive(Clone, Copy, PartialEq, Eq, Debug)]
pub enum Note {
    /// From here on nodes are those of the plan's operator with this number.
    Operator(usize),
    /// From here on nodes are those of this copy of the operator's body.
    Copy(usize),
    /// From here on nodes are those of the output of the query at this place.
    Output(usize),
    /// From here on nodes are for the operator's column at this place.
    Part(usize),
    /// Ends what the last of these four began.
    Leave,
    /// The node tells whether there is a row.
    Valid(Bit),
    /// The node tells that the stream ends.
    Eos(Bit),
    /// The node carries the operator's column at this place.
    Column(usize, Bus),
    /// The node has this word for its task, and is the one at this place of its kind.
    Role(&'static [u8], usize, Bus),
}

/// A note, and how many nodes there were when it was made.
#[derive(Clone, Copy, PartialEq, Eq, Debug)]
pub struct Noted {
    /// How many nodes there were.
    pub at: usize,
    /// What is told.
    pub note: Note,
}
