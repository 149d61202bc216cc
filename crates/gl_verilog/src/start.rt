//! What registers and memory words hold before the first cycle.

/// What registers and memory words hold before the first cycle.
#[derive(Clone, Copy, PartialEq, Eq, Debug)]
pub enum Start {
    /// All are 0.
    Zero,
    /// They are drawn from a seed, by a linear congruential sequence.
    Drawn(u64),
}
