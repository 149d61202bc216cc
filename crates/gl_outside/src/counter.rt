//! Counters of misses, faults and calls.

ghost use Rattle.std.specs.Prelude.{◌≡◌};
ghost use Rattle.gl_outside.specs.Counts.{Rose};
ghost use Rattle.gl_outside.specs.Held.{next_count};

/// One more. A counter stands still at its last value.
pub fn one_more(count: u64) -> u64
    ensures value { result ≡ next_count count }
    ensures rose { Rose count result }
{
    count.saturating_add(1)
}
