//! Items over the rows of each slot: the row's own value, lags, sums, counts, averages, extremes
//! and last values.

ghost use Rattle.std.specs.Prelude.{◌+◌, ◌-◌, ◌≤◌, ◌^◌, All, IfOk, Some, length, take};
ghost use Rattle.gl_algebra.specs.Columns.{BackFits, ConditionFits, FrameAggFits, FrameFits, OperandFits, kind_of_frame, kind_of_frame_agg, kind_of_operand};
ghost use Rattle.gl_algebra.specs.Known.{FrameAggKnown, FrameKnown, OperandKnown};
ghost use Rattle.gl_algebra.specs.Frames.{delay_of_frame, delay_of_frames, delay_over};
ghost use Rattle.gl_algebra.specs.Results.{value_of_frame, value_over};
ghost use Rattle.gl_algebra.specs.declared.node.PlanFrameAgg.TheVariants.{Count, Sum};
ghost use Rattle.gl_algebra.specs.declared.node.PlanFrame.TheVariants.{Own};
ghost use Rattle.gl_values.specs.Kinds.{IsKind, width_of};
ghost use Rattle.gl_net.specs.Net.{IsBus};
ghost use Rattle.gl_frames.specs.Frames.{lag_of};
ghost use Rattle.gl_frames_stages.specs.Framing.{value_in};
ghost use Rattle.gl_frames_wire.specs.Reaches.{place_bits};
ghost use Rattle.gl_frames_slots.specs.ItemCosts.{cost_of_slot_item, cost_of_slot_item_late, cost_of_slot_lag, cost_of_slot_over};
ghost use Rattle.gl_frames_slots.specs.Items.{AreSlotItemsIn, HasSlotInput, IsSlotItem, IsSlotItemIn, IsSlotOver};
ghost use Rattle.gl_wire.specs.Wire.{widths};

use crate::average::put_slot_average_of;
use crate::counts::put_slot_count_last;
use crate::extreme::{put_slot_greatest, put_slot_least};
use crate::lag::put_slot_lagged;
use crate::last::put_slot_last_of;
use crate::rows::SlotRows;
use crate::sums::{put_slot_count_all, put_slot_sum_all, put_slot_sum_item};
use gl_algebra::frames::delay_of_frame;
use gl_algebra::{Operand, PlanFrame, PlanFrameAgg};
use gl_bits::Memory;
use gl_frames_stages::delay::put_late;
use gl_frames_stages::frames::first_place;
use gl_frames_stages::slide::put_or_none;
use gl_frames_wire::Reach;
use gl_net::{Bus, Buses, NetBuilder, Note};
use gl_rows::Source;
use gl_rows::operand::put_operand;
use gl_wire::later;
use std::alloc::Global;

/// The rows of slots, and their columns with their kinds.
#[derive(Clone, Copy)]
pub struct SlotInput<'a> {
    /// The rows.
    pub rows: SlotRows,
    /// The columns.
    pub source: Source<'a>,
}

// The value of the row so many rows of the slot before, and 0 where there is none.
fn put_slot_lag(
    net: &mut NetBuilder,
    input: SlotInput,
    count: Bus,
    operand: Operand,
    back: u32,
) -> Result<Bus, Memory>
    requires input { HasSlotInput net.old input }
    requires count { IsBus net.old count }
    requires fits { OperandFits input.source.kinds.now operand }
    requires known { OperandKnown (widths input.source.words.now) operand }
    requires some { 1 ≤ back }
    requires most { back ≤ 2 ^ 16 }
    requires bits { place_bits back + 1 ≤ count.width }
    requires address { input.rows.slot.width + place_bits back ≤ 32 }
    ensures { IfOk result (
        let width = width_of (kind_of_operand input.entry.source.kinds.now operand) in
        IsSlotItemIn net.old net.new (cost_of_slot_lag input.entry.rows.slot.width width back) 1 width
        (λ sets. lag_of (value_in sets operand) back) input.entry count) }
{
    let value = put_operand(net, input.source, operand)?;
    let found = put_slot_lagged(net, input.rows, count, Reach::new(back), value)?;
    // Named, since a goal speaks of the value.
    let out = put_or_none(net, found)?;
    Ok(out)
}

// An operand of the row itself, in a register.
fn put_slot_own(
    net: &mut NetBuilder,
    input: SlotInput,
    count: Bus,
    operand: Operand,
) -> Result<Bus, Memory>
    requires input { HasSlotInput net.old input }
    requires fits { OperandFits input.source.kinds.now operand }
    requires known { OperandKnown (widths input.source.words.now) operand }
    ensures { IfOk result (
        let kinds = input.entry.source.kinds.now in
        IsSlotItemIn net.old net.new (cost_of_slot_item input.entry.rows.slot.width kinds (Own operand)) 1
        (width_of (kind_of_operand kinds operand))
        (λ sets rows. value_of_frame sets kinds rows (Own operand)) input.entry count) }
{
    // No count is read.
    let _ = count;
    let value = put_operand(net, input.source, operand)?;
    // Named, since a goal speaks of the value.
    let out = later(net, value)?;
    Ok(out)
}

// A sum over some rows, or over all.
fn put_slot_sum_of(
    net: &mut NetBuilder,
    input: SlotInput,
    count: Bus,
    filter: Option<u16>,
    operand: Operand,
    back: Option<u32>,
) -> Result<Bus, Memory>
    requires input { HasSlotInput net.old input }
    requires count { IsBus net.old count }
    requires filter { ConditionFits input.source.kinds.now filter }
    requires fits { OperandFits input.source.kinds.now operand }
    requires known { OperandKnown (widths input.source.words.now) operand }
    requires back { BackFits back }
    requires slot_item { IsSlotOver (count.width - 1) (Sum operand) filter back }
    requires some { 1 ≤ count.width }
    requires address { input.rows.slot.width + count.width ≤ 33 }
    ensures { IfOk result (
        let kinds = input.entry.source.kinds.now in
        IsSlotItemIn net.old net.new (cost_of_slot_over input.entry.rows.slot.width kinds (Sum operand) filter back)
        (delay_over kinds (Sum operand) filter back) (width_of (kind_of_frame_agg kinds (Sum operand)))
        (λ sets rows. value_over sets kinds filter back rows (Sum operand)) input.entry count) }
{
    match back {
        Some(back) => put_slot_sum_item(net, input, count, filter, operand, back),
        None => put_slot_sum_all(net, input, count, filter, operand),
    }
}

// A number of rows, of some or of all.
fn put_slot_count_of(
    net: &mut NetBuilder,
    input: SlotInput,
    count: Bus,
    filter: Option<u16>,
    back: Option<u32>,
) -> Result<Bus, Memory>
    requires input { HasSlotInput net.old input }
    requires count { IsBus net.old count }
    requires filter { ConditionFits input.source.kinds.now filter }
    requires back { BackFits back }
    requires slot_item { IsSlotOver (count.width - 1) Count filter back }
    requires some { 1 ≤ count.width }
    requires few { count.width ≤ 18 }
    requires address { input.rows.slot.width + count.width ≤ 33 }
    ensures { IfOk result (
        let kinds = input.entry.source.kinds.now in
        IsSlotItemIn net.old net.new (cost_of_slot_over input.entry.rows.slot.width kinds Count filter back)
        (delay_over kinds Count filter back) (width_of (kind_of_frame_agg kinds Count))
        (λ sets rows. value_over sets kinds filter back rows Count) input.entry count) }
{
    match back {
        Some(back) => put_slot_count_last(net, input, count, filter, back),
        None => put_slot_count_all(net, input, count, filter),
    }
}

// A function over a frame.
fn put_slot_over(
    net: &mut NetBuilder,
    input: SlotInput,
    count: Bus,
    agg: PlanFrameAgg,
    filter: Option<u16>,
    back: Option<u32>,
) -> Result<Bus, Memory>
    requires input { HasSlotInput net.old input }
    requires count { IsBus net.old count }
    requires filter { ConditionFits input.source.kinds.now filter }
    requires agg { FrameAggFits input.source.kinds.now agg }
    requires known { FrameAggKnown (widths input.source.words.now) agg }
    requires back { BackFits back }
    requires slot_item { IsSlotOver (count.width - 1) agg filter back }
    requires kinds { All IsKind input.source.kinds.now }
    requires few { count.width ≤ 18 }
    requires some { 1 ≤ count.width }
    requires address { input.rows.slot.width + count.width ≤ 33 }
    ensures { IfOk result (
        let kinds = input.entry.source.kinds.now in
        IsSlotItemIn net.old net.new (cost_of_slot_over input.entry.rows.slot.width kinds agg filter back)
        (delay_over kinds agg filter back) (width_of (kind_of_frame_agg kinds agg))
        (λ sets rows. value_over sets kinds filter back rows agg) input.entry count) }
{
    match agg {
        PlanFrameAgg::Count => put_slot_count_of(net, input, count, filter, back),
        PlanFrameAgg::Sum(operand) => put_slot_sum_of(net, input, count, filter, operand, back),
        PlanFrameAgg::Min(operand) => put_slot_least(net, input, count, filter, operand, back),
        PlanFrameAgg::Max(operand) => put_slot_greatest(net, input, count, filter, operand, back),
        PlanFrameAgg::Avg(operand) => put_slot_average_of(net, input, count, filter, operand, back),
        PlanFrameAgg::LastValue(operand) => put_slot_last_of(
            net, input, count, filter, operand, back,
        ),
    }
}

/// An item that is made by slots, as many cycles behind each row as it takes.
pub fn put_slot_item(
    net: &mut NetBuilder,
    input: SlotInput,
    count: Bus,
    item: PlanFrame,
) -> Result<Bus, Memory>
    requires input { HasSlotInput net.old input }
    requires count { IsBus net.old count }
    requires item { FrameFits input.source.kinds.now item }
    requires known { FrameKnown (widths input.source.words.now) item }
    requires slot_item { IsSlotItem (count.width - 1) item }
    requires kinds { All IsKind input.source.kinds.now }
    requires few { count.width ≤ 18 }
    requires some { 1 ≤ count.width }
    requires address { input.rows.slot.width + count.width ≤ 33 }
    ensures { IfOk result (
        let kinds = input.entry.source.kinds.now in
        IsSlotItemIn net.old net.new (cost_of_slot_item input.entry.rows.slot.width kinds item)
        (delay_of_frame kinds item) (width_of (kind_of_frame kinds item))
        (λ sets rows. value_of_frame sets kinds rows item) input.entry count) }
{
    match item {
        PlanFrame::Own(operand) => put_slot_own(net, input, count, operand),
        PlanFrame::Lag(operand, back) => put_slot_lag(net, input, count, operand, back),
        PlanFrame::Over { agg, filter, back } => {
            put_slot_over(net, input, count, agg, filter, back)
        }
    }
}

// The same `cycles` cycles behind each row.
fn put_slot_item_late(
    net: &mut NetBuilder,
    input: SlotInput,
    count: Bus,
    item: PlanFrame,
    cycles: u32,
) -> Result<Bus, Memory>
    requires input { HasSlotInput net.old input }
    requires count { IsBus net.old count }
    requires item { FrameFits input.source.kinds.now item }
    requires known { FrameKnown (widths input.source.words.now) item }
    requires slot_item { IsSlotItem (count.width - 1) item }
    requires few { count.width ≤ 18 }
    requires some { 1 ≤ count.width }
    requires address { input.rows.slot.width + count.width ≤ 33 }
    requires kinds { All IsKind input.source.kinds.now }
    requires late { delay_of_frame input.source.kinds.now item ≤ cycles }
    requires most { cycles ≤ 2 ^ 16 }
    ensures { IfOk result (
        let kinds = input.entry.source.kinds.now in
        IsSlotItemIn net.old net.new (cost_of_slot_item_late input.entry.rows.slot.width kinds cycles item)
        cycles (width_of (kind_of_frame kinds item)) (λ sets rows. value_of_frame sets kinds rows item) input.entry count) }
{
    let gone = delay_of_frame(input.source.kinds, &item);
    let early = put_slot_item(net, input, count, item)?;
    // Named, since a goal speaks of the value.
    let out = put_late(net, early, cycles - gone)?;
    Ok(out)
}

// The same, told as the column at this place.
fn put_slot_part(
    net: &mut NetBuilder,
    input: SlotInput,
    count: Bus,
    item: PlanFrame,
    cycles: u32,
    place: usize,
) -> Result<Bus, Memory>
    requires input { HasSlotInput net.old input }
    requires count { IsBus net.old count }
    requires item { FrameFits input.source.kinds.now item }
    requires known { FrameKnown (widths input.source.words.now) item }
    requires slot_item { IsSlotItem (count.width - 1) item }
    requires few { count.width ≤ 18 }
    requires some { 1 ≤ count.width }
    requires address { input.rows.slot.width + count.width ≤ 33 }
    requires kinds { All IsKind input.source.kinds.now }
    requires late { delay_of_frame input.source.kinds.now item ≤ cycles }
    requires most { cycles ≤ 2 ^ 16 }
    ensures { IfOk result (
        let kinds = input.entry.source.kinds.now in
        IsSlotItemIn net.old net.new (cost_of_slot_item_late input.entry.rows.slot.width kinds cycles item)
        cycles (width_of (kind_of_frame kinds item)) (λ sets rows. value_of_frame sets kinds rows item) input.entry count) }
{
    net.note(Note::Part(place))?;
    let bus = put_slot_item_late(net, input, count, item, cycles)?;
    net.note(Note::Leave)?;
    Ok(bus)
}

// Items, of which the first have a column each.
#[derive(Clone, Copy)]
struct Made<'a> {
    items: &'a [PlanFrame],
    buses: &'a [Bus],
}

// An item behind others that are made: the column of an equal one, or its own.
fn put_slot_once(
    net: &mut NetBuilder,
    input: SlotInput,
    count: Bus,
    item: PlanFrame,
    cycles: u32,
    made: Made<'_>,
) -> Result<Bus, Memory>
    requires input { HasSlotInput net.old input }
    requires count { IsBus net.old count }
    requires item { FrameFits input.source.kinds.now item }
    requires known { FrameKnown (widths input.source.words.now) item }
    requires slot_item { IsSlotItem (count.width - 1) item }
    requires few { count.width ≤ 18 }
    requires some { 1 ≤ count.width }
    requires address { input.rows.slot.width + count.width ≤ 33 }
    requires kinds { All IsKind input.source.kinds.now }
    requires late { delay_of_frame input.source.kinds.now item ≤ cycles }
    requires most { cycles ≤ 2 ^ 16 }
    requires within { length made.buses.now ≤ length made.items.now }
    requires made { AreSlotItemsIn net.old net.old input count cycles
        (take (length made.buses.now) made.items.now) made.buses.now }
    ensures { IfOk result (
        let kinds = input.entry.source.kinds.now in
        IsSlotItemIn net.old net.new (cost_of_slot_item_late input.entry.rows.slot.width kinds cycles item)
        cycles (width_of (kind_of_frame kinds item)) (λ sets rows. value_of_frame sets kinds rows item) input.entry count) }
{
    let place = first_place(made.items, &item);
    if place < made.buses.len() {
        return Ok(made.buses[place]);
    }
    put_slot_part(net, input, count, item, cycles, made.buses.len())
}

/// Some items over the rows of each slot, by one count of its rows, `cycles` cycles behind each row. Equal items have one
/// column.
pub fn put_slot_items(
    alloc: Global,
    net: &mut NetBuilder,
    input: SlotInput,
    count: Bus,
    items: &[PlanFrame],
    cycles: u32,
) -> Result<Buses, Memory>
    requires input { HasSlotInput net.old input }
    requires count { IsBus net.old count }
    requires kinds { All IsKind input.source.kinds.now }
    requires fit { All (FrameFits input.source.kinds.now) items.now }
    requires known { All (FrameKnown (widths input.source.words.now)) items.now }
    requires slot_items { All (IsSlotItem (count.width - 1)) items.now }
    requires few { count.width ≤ 18 }
    requires some { 1 ≤ count.width }
    requires address { input.rows.slot.width + count.width ≤ 33 }
    requires late { delay_of_frames input.source.kinds.now items.now ≤ cycles }
    requires most { cycles ≤ 2 ^ 16 }
    ensures { IfOk result
        (AreSlotItemsIn net.old net.new input.entry count cycles items.now) }
{
    let mut all = Buses::new(alloc);
    for item in items {
        let made = Made {
            items,
            buses: all.as_slice(),
        };
        let bus = put_slot_once(net, input, count, *item, cycles, made)?;
        all.push(bus)?;
    }
    Ok(all)
}
