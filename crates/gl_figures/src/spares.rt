//! Spare copies of a body, for windows that nothing stands above.

ghost use Rattle.std.specs.Prelude.{◌≡◌, ◌<◌, ◌≤◌, ◌-◌, ◌+◌, ◌*◌, ◌^◌};
ghost use Rattle.gl_algebra.specs.FigureTable.{stride_of, window_figures, IsSound};
ghost use Rattle.gl_algebra.specs.Fits.{IsWithin};
ghost use Rattle.gl_bits.specs.Limits.{most_rows};
ghost use Rattle.gl_algebra.specs.Spares.{spare_copies, spare_gap, spare_of};

use crate::Spare;
use crate::copied::times;
use gl_algebra::Figures;
use gl_algebra::table::copies_of_window;

// The cycles by which the ends of two copies of a body are apart.
fn stride_of(body: &Figures) -> u64
    ensures value { result ≡ stride_of body.now }
    ensures below { result ≤ 2 ^ 32 }
{
    body.le.saturating_sub(body.a) as u64 + 1
}

// The cycles from a beat to the next.
fn gap_with_spare(source: &Figures, body: &Figures, advance: u32) -> u64
    requires { 1 ≤ advance }
    ensures { result ≡ spare_gap source.now body.now advance }
{
    let fills = stride_of(body).div_ceil(advance as u64);
    (source.gt.max(body.gt) as u64).max(fills)
}

// The same without spare copies.
#[tactic(auto, using(crate::proofs::SpareLemmas::own_gap))]
fn gap_without(turns: u32, source: &Figures, body: &Figures) -> u64
    requires sound { IsSound source.now }
    requires at_once { source.now.a ≡ source.now.le }
    ensures value { result ≡ (window_figures turns source.now body.now).gt }
    ensures below { result < 2 ^ 32 }
{
    let _ = turns;
    source.gt.max(body.gt.max(body.ge)) as u64
}

// The copies.
fn copies_with_spare(gap: u64, body: &Figures, size: u32, advance: u32) -> u128
    requires gap { 1 ≤ gap }
    requires size { 1 ≤ size }
    requires advance { 1 ≤ advance }
    ensures { result ≡ spare_copies gap body.now size advance }
{
    let gaps = (body.ge as u64).div_ceil(gap) as u128;
    let ready = (gaps + size as u128 - 1).div_ceil(advance as u128);
    (copies_of_window(size, advance) as u128).max(ready)
}

// The last cycle after the last beat.
pub(crate) fn last_with_spare(turns: u32, shift: u64, source: &Figures, body: &Figures) -> u128
    ensures { result ≡ source.now.le + body.now.le + shift + (turns - 1) * stride_of body.now + 3 }
{
    let ends = times(stride_of(body) as u128, turns.saturating_sub(1) as u128);
    source.le as u128 + body.le as u128 + shift as u128 + ends + 3
}

/// The spare copies of windows over a source; None where the source does not give each beat's tuples and end in one cycle,
/// where beats come no closer than without spare copies, or where the copies or the latency pass their limits.
pub fn spare(source: &Figures, body: &Figures, size: u32, advance: u32) -> Option<Spare>
    requires source { IsSound source.now }
    requires body { IsSound body.now }
    requires size { IsWithin most_rows size }
    requires advance { IsWithin most_rows advance }
    ensures { result ≡ spare_of size advance source.now body.now }
{
    if source.a != source.le {
        return None;
    }
    let turns = copies_of_window(size, advance);
    let gap = gap_with_spare(source, body, advance);
    if gap_without(turns, source, body) <= gap {
        return None;
    }
    let copies = copies_with_spare(gap, body, size, advance);
    if copies > 64 {
        return None;
    }
    let shift = stride_of(body).saturating_sub(gap);
    if last_with_spare(turns, shift, source, body) > 0xffff_fffe {
        return None;
    }
    Some(Spare {
        copies: copies as u32,
        gap: gap as u32,
        shift: shift as u32,
    })
}
