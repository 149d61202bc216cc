//! Figures: when and how densely a node's tuples come.

/// When and how densely tuples come on a node's wire. A beat is a cycle in which tuples or the end come in; what a beat in cycle
/// t causes on the wire lies in the cycles from `t + a` to `t + lt`, or to `t + le` where the end comes with the beat.
#[derive(Clone, Copy, PartialEq, Eq, Debug)]
pub struct Figures {
    /// The first cycle.
    pub a: u32,
    /// The last cycle, after a beat without the end.
    pub lt: u32,
    /// The last cycle, after a beat with the end.
    pub le: u32,
    /// The most tuples after a beat without the end.
    pub nt: u32,
    /// The most tuples after a beat with the end.
    pub ne: u32,
    /// The cycles from a beat without the end to the next beat, at least.
    pub gt: u32,
    /// The cycles from a beat with the end to the next beat, at least.
    pub ge: u32,
}

/// Spare copies of the body of windows: new tuples come while a window that has ended is still at work.
#[derive(Clone, Copy, PartialEq, Eq, Debug)]
pub struct Spare {
    /// All copies.
    pub copies: u32,
    /// The fewest cycles from one beat to the next.
    pub gap: u32,
    /// The cycles by which the end of the stream comes late.
    pub shift: u32,
}
