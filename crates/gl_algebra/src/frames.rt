//! What the items of a node of frames take: cycles, rings in memories, and the digits of a divider.

ghost use Rattle.std.specs.Prelude.{◌≡◌, ◌+◌, ◌*◌, ◌<◌, ◌≤◌, ◌^◌};
ghost use Rattle.gl_algebra.specs.Frames.{delay_of_count, delay_of_extreme, delay_of_frame, delay_of_frames, delay_of_sum, delay_over, digits_of_frame, digits_of_rows, digits_over, frames_in, rings_of_count, rings_of_extreme, rings_of_frame, rings_of_sum, rings_over, words_of_count, words_of_doublings, words_of_extreme, words_of_frame, words_of_sum, words_over};
ghost use Rattle.gl_algebra.specs.Rings.{digits, least_exponent, ring};

use crate::columns::kind_of_operand;
use crate::node::{PlanFrame, PlanFrameAgg};
use gl_values::Kind;

/// The least exponent, of `more` from `exponent` on, whose power of two is at least `depth`.
pub fn least_exponent(more: u64, exponent: u8, depth: u64) -> u8
    requires exponent { exponent ≤ 40 }
    requires depth { depth ≤ 2 ^ 40 }
    ensures value { result ≡ least_exponent more exponent depth }
    ensures most { result ≤ 40 }
{
    if more == 0 || depth <= 1u64 << exponent {
        exponent
    } else {
        least_exponent(more - 1, exponent + 1, depth)
    }
}

/// The words of a ring that holds so many entries.
#[tactic(auto, unfolding(crate::specs::Rings::ring))]
pub fn ring(depth: u64) -> u64
    requires { depth ≤ 2 ^ 40 }
    ensures value { result ≡ ring depth }
    ensures most { result ≤ 2 ^ 40 }
{
    1u64 << least_exponent(depth, 1, depth)
}

/// The bits of a number.
pub fn digits(number: u64) -> u8
    requires { number < 2 ^ 40 }
    ensures value { result ≡ digits number }
    ensures most { result ≤ 40 }
{
    least_exponent(number + 1, 0, number + 1)
}

/// 1 for a frame, 0 for an operand of the row itself.
pub fn frames_in(item: &PlanFrame) -> u64
    ensures value { result ≡ frames_in item.now }
    ensures most { result ≤ 1 }
{
    match item {
        PlanFrame::Own(_) => 0,
        PlanFrame::Lag(_, _) => 1,
        PlanFrame::Over { .. } => 1,
    }
}

// The bits of the number of rows in a frame.
fn digits_of_rows(back: Option<u32>) -> u32
    ensures value { result ≡ digits_of_rows back }
    ensures most { result ≤ 40 }
{
    match back {
        None => 32,
        Some(back) => u32::from(digits(u64::from(back) + 1)),
    }
}

// The digits of the divider of a function.
fn digits_over(kinds: &[Kind], agg: &PlanFrameAgg, back: Option<u32>) -> u32
    ensures value { result ≡ digits_over kinds.now agg.now back }
    ensures most { result < 2 ^ 13 }
{
    match agg {
        PlanFrameAgg::Count => 0,
        PlanFrameAgg::Sum(_) => 0,
        PlanFrameAgg::Min(_) => 0,
        PlanFrameAgg::Max(_) => 0,
        PlanFrameAgg::Avg(operand) => {
            u32::from(kind_of_operand(kinds, operand).bits()) + digits_of_rows(back)
        }
        PlanFrameAgg::LastValue(_) => 0,
    }
}

/// The digits of the divider of an item, 0 where it has none.
pub fn digits_of_frame(kinds: &[Kind], item: &PlanFrame) -> u32
    ensures value { result ≡ digits_of_frame kinds.now item.now }
    ensures most { result < 2 ^ 13 }
{
    match item {
        PlanFrame::Own(_) => 0,
        PlanFrame::Lag(_, _) => 0,
        PlanFrame::Over { agg, back, .. } => digits_over(kinds, agg, *back),
    }
}

// The cycles of a sum.
fn delay_of_sum(back: Option<u32>) -> u32
    ensures value { result ≡ delay_of_sum back }
    ensures most { result ≤ 3 }
{
    match back {
        None => 1,
        Some(_) => 3,
    }
}

// The cycles of a count.
fn delay_of_count(filter: Option<u16>, back: Option<u32>) -> u32
    ensures { result ≡ delay_of_count filter back }
{
    match filter {
        None => 1,
        Some(_) => delay_of_sum(back),
    }
}

// The cycles of an extreme.
fn delay_of_extreme(back: Option<u32>) -> u32
    ensures { result ≡ delay_of_extreme back }
{
    match back {
        None => 1,
        Some(back) => 2 * u32::from(digits(u64::from(back))) + 1,
    }
}

// The cycles from a row to the value of a function.
fn delay_over(kinds: &[Kind], agg: &PlanFrameAgg, filter: Option<u16>, back: Option<u32>) -> u32
    ensures { result ≡ delay_over kinds.now agg.now filter back }
{
    match agg {
        PlanFrameAgg::Count => delay_of_count(filter, back),
        PlanFrameAgg::Sum(_) => delay_of_sum(back),
        PlanFrameAgg::Min(_) => delay_of_extreme(back),
        PlanFrameAgg::Max(_) => delay_of_extreme(back),
        PlanFrameAgg::Avg(_) => delay_of_sum(back) + digits_over(kinds, agg, back) + 1,
        PlanFrameAgg::LastValue(_) => 1,
    }
}

/// The cycles from a row to the value of an item, where it waits for no other item.
pub fn delay_of_frame(kinds: &[Kind], item: &PlanFrame) -> u32
    ensures { result ≡ delay_of_frame kinds.now item.now }
{
    match item {
        PlanFrame::Own(_) => 1,
        PlanFrame::Lag(_, _) => 1,
        PlanFrame::Over { agg, filter, back } => delay_over(kinds, agg, *filter, *back),
    }
}

/// That of the slowest, at least 1.
pub fn delay_of_frames(kinds: &[Kind], items: &[PlanFrame]) -> u32
    ensures { result ≡ delay_of_frames kinds.now items.now }
{
    match items.split_first() {
        None => 1,
        Some((item, others)) => delay_of_frame(kinds, item).max(delay_of_frames(kinds, others)),
    }
}

// The rings of a sum.
fn rings_of_sum(back: Option<u32>) -> u32
    ensures value { result ≡ rings_of_sum back }
    ensures most { result ≤ 40 }
{
    match back {
        None => 0,
        Some(_) => 1,
    }
}

// The rings of a count.
fn rings_of_count(filter: Option<u16>, back: Option<u32>) -> u32
    ensures value { result ≡ rings_of_count filter back }
    ensures most { result ≤ 40 }
{
    match filter {
        None => 0,
        Some(_) => rings_of_sum(back),
    }
}

// The rings of an extreme.
fn rings_of_extreme(back: Option<u32>) -> u32
    ensures value { result ≡ rings_of_extreme back }
    ensures most { result ≤ 40 }
{
    match back {
        None => 0,
        Some(back) => u32::from(digits(u64::from(back))),
    }
}

// The rings of a function.
fn rings_over(agg: &PlanFrameAgg, filter: Option<u16>, back: Option<u32>) -> u32
    ensures value { result ≡ rings_over agg.now filter back }
    ensures most { result ≤ 40 }
{
    match agg {
        PlanFrameAgg::Count => rings_of_count(filter, back),
        PlanFrameAgg::Sum(_) => rings_of_sum(back),
        PlanFrameAgg::Min(_) => rings_of_extreme(back),
        PlanFrameAgg::Max(_) => rings_of_extreme(back),
        PlanFrameAgg::Avg(_) => rings_of_sum(back),
        PlanFrameAgg::LastValue(_) => 0,
    }
}

/// The rings of an item.
pub fn rings_of_frame(item: &PlanFrame) -> u32
    ensures value { result ≡ rings_of_frame item.now }
    ensures most { result ≤ 40 }
{
    match item {
        PlanFrame::Own(_) => 0,
        PlanFrame::Lag(_, _) => 1,
        PlanFrame::Over { agg, filter, back } => rings_over(agg, *filter, *back),
    }
}

// The words of the ring of a sum.
fn words_of_sum(back: Option<u32>) -> u64
    ensures value { result ≡ words_of_sum back }
    ensures most { result ≤ 2 ^ 46 }
{
    match back {
        None => 0,
        Some(back) => ring(u64::from(back) + 2),
    }
}

// The words of the ring of a count.
fn words_of_count(filter: Option<u16>, back: Option<u32>) -> u64
    ensures value { result ≡ words_of_count filter back }
    ensures most { result ≤ 2 ^ 46 }
{
    match filter {
        None => 0,
        Some(_) => words_of_sum(back),
    }
}

// The words of so many rings of an extreme.
fn words_of_doublings(more: u8, exponent: u8, back: u32) -> u64
    requires { more + exponent ≤ 40 }
    ensures value { result ≡ words_of_doublings more exponent back }
    ensures most { result ≤ more * 2 ^ 40 }
{
    if more == 0 {
        return 0;
    }
    let covered = 1u64 << exponent;
    let rest = (u64::from(back) + 1).saturating_sub(covered);
    ring(covered.min(rest) + 1) + words_of_doublings(more - 1, exponent + 1, back)
}

// The words of the rings of an extreme.
fn words_of_extreme(back: Option<u32>) -> u64
    ensures value { result ≡ words_of_extreme back }
    ensures most { result ≤ 2 ^ 46 }
{
    match back {
        None => 0,
        Some(back) => words_of_doublings(digits(u64::from(back)), 0, back),
    }
}

// The words of the rings of a function.
fn words_over(agg: &PlanFrameAgg, filter: Option<u16>, back: Option<u32>) -> u64
    ensures value { result ≡ words_over agg.now filter back }
    ensures most { result ≤ 2 ^ 46 }
{
    match agg {
        PlanFrameAgg::Count => words_of_count(filter, back),
        PlanFrameAgg::Sum(_) => words_of_sum(back),
        PlanFrameAgg::Min(_) => words_of_extreme(back),
        PlanFrameAgg::Max(_) => words_of_extreme(back),
        PlanFrameAgg::Avg(_) => words_of_sum(back),
        PlanFrameAgg::LastValue(_) => 0,
    }
}

/// The words of the rings of an item.
pub fn words_of_frame(item: &PlanFrame) -> u64
    ensures value { result ≡ words_of_frame item.now }
    ensures most { result ≤ 2 ^ 46 }
{
    match item {
        PlanFrame::Own(_) => 0,
        PlanFrame::Lag(_, back) => ring(u64::from(*back) + 1),
        PlanFrame::Over { agg, filter, back } => words_over(agg, *filter, *back),
    }
}
