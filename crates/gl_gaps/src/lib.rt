//! How far apart beats are to be: a gap of all beats, and one of ticks.
#![tactic(auto)]

ghost use Rattle.std.specs.Prelude.{◌≡◌};
ghost use Rattle.gl_gaps.specs.Keeps.{gaps_with};

pub mod laws;

pub use laws::ticks_keep_the_gap;

/// How far apart beats are to be, in cycles.
#[derive(Clone, Copy, PartialEq, Eq, Debug)]
pub struct Gaps {
    /// From each beat to the next, at least.
    pub of_beats: u32,
    /// From a tick to the next beat with a tick or the end, at least.
    pub of_ticks: u32,
}

impl Gaps {
    /// This gap of beats, and that one of ticks where it is another one.
    pub fn new(gap: u32, ticks: Option<u32>) -> Gaps
        ensures { result ≡ gaps_with gap ticks }
    {
        match ticks {
            None => Gaps {
                of_beats: gap,
                of_ticks: gap,
            },
            Some(ticks) => Gaps {
                of_beats: gap,
                of_ticks: ticks,
            },
        }
    }
}
