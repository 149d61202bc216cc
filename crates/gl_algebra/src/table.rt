//! The table of figures, row by row: each answers None exactly where a figure would reach 2^32.

ghost use Rattle.std.specs.Prelude.{◌≡◌, ◌<◌, ◌≤◌, ◌^◌};
ghost use Rattle.gl_bits.specs.Limits.{most_rows};
ghost use Rattle.gl_algebra.specs.FigureTable.{aggregate_figures, beside_figures, delay_of_agg, delay_of_aggs, delayed, group_figures, input_figures, left_wait, partition_figures, right_wait, settled, turn_figures, union_figures, wait_of, waits, window_figures};
ghost use Rattle.gl_algebra.specs.Views.{copies_of_partition, copies_of_time, copies_of_window};
ghost use Rattle.gl_algebra.specs.Small.{small_of};

use crate::columns::kind_of_operand;
use crate::figures::Figures;
use crate::node::PlanAgg;
use crate::wide::{
    aggregated, delayed, groups_over, joined, merged, narrowed, partitions_over, settled, spaced,
    turned, widened, windows_over,
};
use gl_values::Kind;

/// A stream, or the input of a body.
pub fn input_figures() -> Figures
    ensures { result ≡ input_figures }
{
    Figures {
        a: 0,
        lt: 0,
        le: 0,
        nt: 1,
        ne: 1,
        gt: 1,
        ge: 1,
    }
}

/// Operations on each row, or a choice of rows: one cycle later.
pub fn row_figures(source: &Figures) -> Option<Figures>
    ensures { result ≡ small_of (settled (delayed 1 source.now)) }
{
    narrowed(settled(delayed(1, widened(source))))
}

/// Values that are picked of each row: in the same cycle.
pub fn picked_figures(source: &Figures) -> Option<Figures>
    ensures { result ≡ small_of (settled source.now) }
{
    narrowed(settled(widened(source)))
}

/// Frames, the slowest of which has this delay.
pub fn frame_figures(delay: u64, source: &Figures) -> Option<Figures>
    requires { delay < 2 ^ 33 }
    ensures { result ≡ small_of (settled (delayed delay source.now)) }
{
    narrowed(settled(delayed(delay as u128, widened(source))))
}

/// The cycles from an aggregate's operand to its value.
pub fn delay_of_agg(kinds: &[Kind], agg: &PlanAgg) -> u32
    ensures { result ≡ delay_of_agg kinds.now agg.now }
{
    match agg {
        PlanAgg::Avg(operand) => u32::from(kind_of_operand(kinds, operand).bits()) + 34,
        PlanAgg::Count => 1,
        PlanAgg::Sum(_) => 1,
        PlanAgg::Min(_) => 1,
        PlanAgg::Max(_) => 1,
        PlanAgg::Wsum(_, _) => 1,
    }
}

/// That of the slowest.
pub fn delay_of_aggs(kinds: &[Kind], aggs: &[PlanAgg]) -> u32
    ensures { result ≡ delay_of_aggs kinds.now aggs.now }
{
    match aggs.split_first() {
        None => 1,
        Some((agg, others)) => delay_of_agg(kinds, agg).max(delay_of_aggs(kinds, others)),
    }
}

/// Aggregates with this delay.
pub fn aggregate_figures(delay: u32, source: &Figures) -> Option<Figures>
    ensures { result ≡ small_of (aggregate_figures delay source.now) }
{
    narrowed(aggregated(delay as u128, widened(source)))
}

/// The cycles by which a side waits for the other.
pub fn wait_of(side: &Figures, other: &Figures) -> u32
    ensures { result ≡ wait_of side.now other.now }
{
    other.a.saturating_sub(side.a)
}

/// Two sides merged.
pub fn union_figures(left: &Figures, right: &Figures) -> Option<Figures>
    ensures { result ≡ small_of (union_figures left.now right.now) }
{
    let first = delayed(wait_of(left, right) as u128, widened(left));
    let second = delayed(wait_of(right, left) as u128, widened(right));
    narrowed(merged(first, second))
}

// The cycles by which the left side of two that take turns waits.
fn left_wait(left: &Figures, right: &Figures) -> u128
    ensures value { result ≡ left_wait left.now right.now }
    ensures below { result < 2 ^ 33 }
{
    (right.a as u128).saturating_sub(left.le as u128 + 1)
}

// The cycles by which the right one waits.
fn right_wait(left: &Figures, right: &Figures) -> u128
    ensures value { result ≡ right_wait left.now right.now }
    ensures below { result < 2 ^ 33 }
{
    (left.le as u128 + 1).saturating_sub(right.a as u128)
}

/// The cycles that either of them waits.
pub fn waits(left: &Figures, right: &Figures) -> u128
    ensures value { result ≡ waits left.now right.now }
    ensures below { result < 2 ^ 34 }
{
    left_wait(left, right) + right_wait(left, right)
}

/// Two sides that take turns.
pub fn turn_figures(left: &Figures, right: &Figures) -> Option<Figures>
    ensures { result ≡ small_of (turn_figures left.now right.now) }
{
    let first = delayed(left_wait(left, right), widened(left));
    let second = delayed(right_wait(left, right), widened(right));
    narrowed(turned(first, second))
}

/// Two sides side by side.
pub fn beside_figures(left: &Figures, right: &Figures) -> Option<Figures>
    ensures { result ≡ small_of (beside_figures left.now right.now) }
{
    let first = delayed(wait_of(left, right) as u128, widened(left));
    let second = delayed(wait_of(right, left) as u128, widened(right));
    narrowed(joined(first, second))
}

/// The windows that can be open at once.
pub fn copies_of_window(size: u32, advance: u32) -> u32
    requires { 1 ≤ advance }
    ensures { result ≡ copies_of_window size advance }
{
    size.div_ceil(advance)
}

/// The windows of time that can be open at once.
pub fn copies_of_time(size: u32, advance: u32) -> u32
    requires size { size ≤ most_rows }
    requires advance { 1 ≤ advance }
    ensures { result ≡ copies_of_time size advance }
{
    size / advance + 1
}

/// The windows that can be open at once where each of `groups` groups has its own.
pub fn copies_of_partition(groups: u16, size: u32, advance: u32) -> u32
    requires room { copies_of_partition groups size advance < 2 ^ 32 }
    requires advance { 1 ≤ advance }
    ensures { result ≡ copies_of_partition groups size advance }
{
    groups as u32 * copies_of_window(size, advance)
}

/// Windows of `copies` copies.
pub fn window_figures(copies: u32, source: &Figures, body: &Figures) -> Option<Figures>
    ensures { result ≡ small_of (window_figures copies source.now body.now) }
{
    let gap = body.gt.max(body.ge);
    let source = spaced(gap as u128, widened(source));
    narrowed(windows_over(copies as u128, source, widened(body)))
}

/// So many groups.
pub fn group_figures(groups: u32, source: &Figures, body: &Figures) -> Option<Figures>
    ensures { result ≡ small_of (group_figures groups source.now body.now) }
{
    let source = spaced(body.gt as u128, widened(source));
    narrowed(groups_over(groups as u128, source, widened(body)))
}

/// Windows of each key, of `copies` copies for all keys.
pub fn partition_figures(copies: u32, source: &Figures, body: &Figures) -> Option<Figures>
    ensures { result ≡ small_of (partition_figures copies source.now body.now) }
{
    let gap = body.gt.max(body.ge);
    let source = spaced(gap as u128, widened(source));
    narrowed(partitions_over(copies as u128, source, widened(body)))
}
