//! The least and the greatest value of the rows of each slot that pass, as items.

ghost use Rattle.std.specs.Prelude.{◌≡◌, ◌+◌, ◌-◌, ◌<◌, ◌≤◌, ◌^◌, true, All, IfOk, None, Some};
ghost use Rattle.gl_algebra.specs.Columns.{BackFits, ConditionFits, OperandFits, kind_of_frame_agg, kind_of_operand};
ghost use Rattle.gl_algebra.specs.Known.{OperandKnown};
ghost use Rattle.gl_algebra.specs.Frames.{delay_of_extreme, delay_over};
ghost use Rattle.gl_algebra.specs.Results.{counts_in, value_over};
ghost use Rattle.gl_algebra.specs.declared.node.PlanFrameAgg.TheVariants.{Max, Min};
ghost use Rattle.gl_values.specs.Kinds.{IsKind, width_of};
ghost use Rattle.gl_net.specs.Net.{IsBus};
ghost use Rattle.gl_frames.specs.Frames.{total_over};
ghost use Rattle.gl_frames_stages.specs.Framing.{every, value_in};
ghost use Rattle.gl_frames_stages.specs.LevelNets.{word_width};
ghost use Rattle.gl_frames_wire.specs.Reaches.{place_bits};
ghost use Rattle.gl_totals.specs.Totals.{extreme_of};
ghost use Rattle.gl_frames_slots.specs.Extremes.{IsSlotBestSoFarIn, IsSlotPackedIn};
ghost use Rattle.gl_frames_slots.specs.ItemCosts.{cost_of_slot_best, cost_of_slot_extreme, cost_of_slot_extreme_by, cost_of_slot_extreme_over, cost_of_slot_filtered, cost_of_slot_over};
ghost use Rattle.gl_frames_slots.specs.Items.{HasSlotInput, IsSlotItemIn, ReachFits};
ghost use Rattle.gl_frames_slots.specs.Rows.{HasSlotRows};
ghost use Rattle.gl_wire.specs.Wire.{widths};

use crate::count::put_passing;
use crate::doubling::put_slot_best;
use crate::items::SlotInput;
use crate::rows::SlotRows;
use crate::stages::CountedRows;
use gl_algebra::Operand;
use gl_algebra::columns::kind_of_operand;
use gl_bits::Memory;
use gl_frames_stages::filtered::put_packed;
use gl_frames_stages::lagged::Maybe;
use gl_frames_stages::level::{Order, put_stays};
use gl_frames_stages::{Input, Lines};
use gl_net::{Bus, NetBuilder};
use gl_rows::cast::low_bits;
use gl_rows::operand::put_operand;
use gl_totals::fold::{Extreme, small_word};
use gl_wire::{but_not, later, note_bus};

/// Which end of the order of an operand's values.
#[derive(Clone, Copy)]
pub struct Ranking {
    /// The end.
    pub extreme: Extreme,
    /// The operand.
    pub operand: Operand,
}

// That of this row and so many of its slot before it.
fn put_slot_extreme_item(
    net: &mut NetBuilder,
    input: SlotInput,
    count: Bus,
    ranking: Ranking,
    back: u32,
) -> Result<Bus, Memory>
    requires input { HasSlotInput net.old input }
    requires count { IsBus net.old count }
    requires kinds { All IsKind input.source.kinds.now }
    requires fits { OperandFits input.source.kinds.now ranking.operand }
    requires known { OperandKnown (widths input.source.words.now) ranking.operand }
    requires back { back < 2 ^ 16 }
    requires bits { place_bits (back + 1) + 1 ≤ count.width }
    requires address { input.rows.slot.width + place_bits (back + 1) ≤ 32 }
    requires few { count.width ≤ 18 }
    ensures { IfOk result (
        let kind = kind_of_operand input.entry.source.kinds.now ranking.operand in
        IsSlotItemIn net.old net.new (cost_of_slot_extreme input.entry.rows.slot.width (width_of kind) back)
        (delay_of_extreme (Some back)) (width_of kind)
        (λ sets. total_over (extreme_of ranking.extreme kind) (value_in sets ranking.operand) (Some back) every) input.entry count) }
{
    let kind = kind_of_operand(input.source.kinds, &ranking.operand);
    let value = put_operand(net, input.source, ranking.operand)?;
    let order = Order {
        extreme: ranking.extreme,
        kind,
        packed: false,
    };
    let rows = input.rows;
    // Named, since a goal speaks of the value.
    let best = put_slot_best(net, CountedRows { rows, count }, back, order, value)?;
    Ok(best)
}

// The same of those that pass, by words with a bit above the value.
fn put_slot_filtered_item(
    net: &mut NetBuilder,
    input: SlotInput,
    count: Bus,
    column: u16,
    ranking: Ranking,
    back: u32,
) -> Result<Bus, Memory>
    requires input { HasSlotInput net.old input }
    requires count { IsBus net.old count }
    requires kinds { All IsKind input.source.kinds.now }
    requires filter { ConditionFits input.source.kinds.now (Some column) }
    requires fits { OperandFits input.source.kinds.now ranking.operand }
    requires known { OperandKnown (widths input.source.words.now) ranking.operand }
    requires back { back < 2 ^ 16 }
    requires bits { place_bits (back + 1) + 1 ≤ count.width }
    requires address { input.rows.slot.width + place_bits (back + 1) ≤ 32 }
    requires few { count.width ≤ 18 }
    ensures { IfOk result (
        let kind = kind_of_operand input.entry.source.kinds.now ranking.operand in
        IsSlotItemIn net.old net.new (cost_of_slot_filtered input.entry.rows.slot.width (width_of kind) back)
        (delay_of_extreme (Some back)) (width_of kind)
        (λ sets. total_over (extreme_of ranking.extreme kind) (value_in sets ranking.operand) (Some back) (counts_in (Some column)))
        input.entry count) }
{
    let kind = kind_of_operand(input.source.kinds, &ranking.operand);
    let packed = put_slot_packed_by(net, input, column, ranking.operand)?;
    let order = Order {
        extreme: ranking.extreme,
        kind,
        packed: true,
    };
    let rows = input.rows;
    let best = put_slot_best(net, CountedRows { rows, count }, back, order, packed)?;
    // Named, since a goal speaks of the value.
    let out = low_bits(net, best, packed.width - 1)?;
    Ok(out)
}

// A value below a bit that is 1.
fn put_slot_marked(net: &mut NetBuilder, input: SlotInput, operand: Operand) -> Result<Bus, Memory>
    requires input { HasSlotInput net.old input }
    requires kinds { All IsKind input.source.kinds.now }
    requires fits { OperandFits input.source.kinds.now operand }
    requires known { OperandKnown (widths input.source.words.now) operand }
    ensures { IfOk result (IsSlotPackedIn net.old net.new input.entry None operand) }
{
    let value = put_operand(net, input.source, operand)?;
    let one = net.constant(small_word(true, 1))?;
    let packed = net.join(one, value)?;
    Ok(packed)
}

// A value below a bit that is 1 where the column of the row is 1, and 0 in all bits where it is not.
fn put_slot_packed_by(
    net: &mut NetBuilder,
    input: SlotInput,
    column: u16,
    operand: Operand,
) -> Result<Bus, Memory>
    requires input { HasSlotInput net.old input }
    requires kinds { All IsKind input.source.kinds.now }
    requires filter { ConditionFits input.source.kinds.now (Some column) }
    requires fits { OperandFits input.source.kinds.now operand }
    requires known { OperandKnown (widths input.source.words.now) operand }
    ensures { IfOk result
        (IsSlotPackedIn net.old net.new input.entry (Some column) operand) }
{
    // A word does not ask of ends.
    let lines = Lines {
        valid: input.rows.valid,
        eos: input.rows.first,
    };
    let source = input.source;
    // Named, since a goal speaks of the value.
    let packed = put_packed(net, Input { lines, source }, column, operand)?;
    Ok(packed)
}

// A value below a bit that is 1 where the row passes, and 0 in all bits where it does not.
fn put_slot_packed(
    net: &mut NetBuilder,
    input: SlotInput,
    filter: Option<u16>,
    operand: Operand,
) -> Result<Bus, Memory>
    requires input { HasSlotInput net.old input }
    requires kinds { All IsKind input.source.kinds.now }
    requires filter { ConditionFits input.source.kinds.now filter }
    requires fits { OperandFits input.source.kinds.now operand }
    requires known { OperandKnown (widths input.source.words.now) operand }
    ensures { IfOk result (IsSlotPackedIn net.old net.new input.entry filter operand) }
{
    match filter {
        Some(column) => put_slot_packed_by(net, input, column, operand),
        None => put_slot_marked(net, input, operand),
    }
}

// The best word so far of each slot: a word for each slot, 0 before its first row.
fn put_slot_best_so_far(
    net: &mut NetBuilder,
    rows: SlotRows,
    order: Order,
    value: Bus,
) -> Result<Bus, Memory>
    requires rows { HasSlotRows net.old rows }
    requires value { IsBus net.old value }
    requires packed { order.packed ≡ true }
    requires width { value.width ≡ word_width order }
    requires some { 1 ≤ width_of order.kind }
    ensures { IfOk result (IsSlotBestSoFarIn net.old net.new rows order value) }
{
    let zero = small_word(false, value.width);
    let before = net.register(zero.width(), None)?;
    let found = Maybe {
        some: rows.valid,
        word: before,
    };
    let stays = put_stays(net, found, value, order)?;
    let takes = but_not(net, rows.valid, stays)?;
    let now = net.choose(takes, value, before)?;
    let ahead = put_passing(net, rows, now)?;
    let again = net.constant(zero)?;
    let next = net.choose(rows.begins, again, ahead)?;
    net.drive(before, next)?;
    note_bus(net, b"state", before)?;
    Ok(now)
}

// The least or the greatest value of all rows of each slot so far that pass, one cycle behind each.
fn put_slot_extreme_all(
    net: &mut NetBuilder,
    input: SlotInput,
    count: Bus,
    filter: Option<u16>,
    ranking: Ranking,
) -> Result<Bus, Memory>
    requires input { HasSlotInput net.old input }
    requires kinds { All IsKind input.source.kinds.now }
    requires filter { ConditionFits input.source.kinds.now filter }
    requires fits { OperandFits input.source.kinds.now ranking.operand }
    requires known { OperandKnown (widths input.source.words.now) ranking.operand }
    ensures { IfOk result (
        let kind = kind_of_operand input.entry.source.kinds.now ranking.operand in
        IsSlotItemIn net.old net.new (cost_of_slot_best input.entry.rows.slot.width (width_of kind)) 1 (width_of kind)
        (λ sets. total_over (extreme_of ranking.extreme kind) (value_in sets ranking.operand) None (counts_in filter))
        input.entry count) }
{
    // No count is read.
    let _ = count;
    let kind = kind_of_operand(input.source.kinds, &ranking.operand);
    let packed = put_slot_packed(net, input, filter, ranking.operand)?;
    let order = Order {
        extreme: ranking.extreme,
        kind,
        packed: true,
    };
    let best = put_slot_best_so_far(net, input.rows, order, packed)?;
    let low = low_bits(net, best, packed.width - 1)?;
    // Named, since a goal speaks of the value.
    let out = later(net, low)?;
    Ok(out)
}

// That of the last rows of each slot that pass.
fn put_slot_extreme_last(
    net: &mut NetBuilder,
    input: SlotInput,
    count: Bus,
    filter: Option<u16>,
    ranking: Ranking,
    back: u32,
) -> Result<Bus, Memory>
    requires input { HasSlotInput net.old input }
    requires count { IsBus net.old count }
    requires kinds { All IsKind input.source.kinds.now }
    requires filter { ConditionFits input.source.kinds.now filter }
    requires fits { OperandFits input.source.kinds.now ranking.operand }
    requires known { OperandKnown (widths input.source.words.now) ranking.operand }
    requires back { back < 2 ^ 16 }
    requires bits { place_bits (back + 1) + 1 ≤ count.width }
    requires address { input.rows.slot.width + place_bits (back + 1) ≤ 32 }
    requires few { count.width ≤ 18 }
    ensures { IfOk result (
        let kind = kind_of_operand input.entry.source.kinds.now ranking.operand in
        IsSlotItemIn net.old net.new
        (cost_of_slot_extreme_by input.entry.rows.slot.width filter (width_of kind) back)
        (delay_of_extreme (Some back)) (width_of kind)
        (λ sets. total_over (extreme_of ranking.extreme kind) (value_in sets ranking.operand) (Some back) (counts_in filter))
        input.entry count) }
{
    match filter {
        Some(column) => put_slot_filtered_item(net, input, count, column, ranking, back),
        None => put_slot_extreme_item(net, input, count, ranking, back),
    }
}

// The least or the greatest value of the rows of a frame that pass.
fn put_slot_extreme(
    net: &mut NetBuilder,
    input: SlotInput,
    count: Bus,
    filter: Option<u16>,
    ranking: Ranking,
    back: Option<u32>,
) -> Result<Bus, Memory>
    requires input { HasSlotInput net.old input }
    requires count { IsBus net.old count }
    requires kinds { All IsKind input.source.kinds.now }
    requires filter { ConditionFits input.source.kinds.now filter }
    requires fits { OperandFits input.source.kinds.now ranking.operand }
    requires known { OperandKnown (widths input.source.words.now) ranking.operand }
    requires back { BackFits back }
    requires reach { ReachFits (count.width - 1) back }
    requires few { count.width ≤ 18 }
    requires some { 1 ≤ count.width }
    requires address { input.rows.slot.width + count.width ≤ 33 }
    ensures { IfOk result (
        let kind = kind_of_operand input.entry.source.kinds.now ranking.operand in
        IsSlotItemIn net.old net.new
        (cost_of_slot_extreme_over input.entry.rows.slot.width filter (width_of kind) back)
        (delay_of_extreme back) (width_of kind)
        (λ sets. total_over (extreme_of ranking.extreme kind) (value_in sets ranking.operand) back (counts_in filter))
        input.entry count) }
{
    match back {
        Some(back) => put_slot_extreme_last(net, input, count, filter, ranking, back),
        None => put_slot_extreme_all(net, input, count, filter, ranking),
    }
}

/// The least value of the rows of a frame that pass.
pub fn put_slot_least(
    net: &mut NetBuilder,
    input: SlotInput,
    count: Bus,
    filter: Option<u16>,
    operand: Operand,
    back: Option<u32>,
) -> Result<Bus, Memory>
    requires input { HasSlotInput net.old input }
    requires count { IsBus net.old count }
    requires kinds { All IsKind input.source.kinds.now }
    requires filter { ConditionFits input.source.kinds.now filter }
    requires fits { OperandFits input.source.kinds.now operand }
    requires known { OperandKnown (widths input.source.words.now) operand }
    requires back { BackFits back }
    requires reach { ReachFits (count.width - 1) back }
    requires few { count.width ≤ 18 }
    requires some { 1 ≤ count.width }
    requires address { input.rows.slot.width + count.width ≤ 33 }
    ensures { IfOk result (
        let kinds = input.entry.source.kinds.now in
        IsSlotItemIn net.old net.new (cost_of_slot_over input.entry.rows.slot.width kinds (Min operand) filter back)
        (delay_over kinds (Min operand) filter back) (width_of (kind_of_frame_agg kinds (Min operand)))
        (λ sets rows. value_over sets kinds filter back rows (Min operand)) input.entry count) }
{
    let extreme = Extreme::Least;
    put_slot_extreme(
        net,
        input,
        count,
        filter,
        Ranking { extreme, operand },
        back,
    )
}

/// The greatest value of the rows of a frame that pass.
pub fn put_slot_greatest(
    net: &mut NetBuilder,
    input: SlotInput,
    count: Bus,
    filter: Option<u16>,
    operand: Operand,
    back: Option<u32>,
) -> Result<Bus, Memory>
    requires input { HasSlotInput net.old input }
    requires count { IsBus net.old count }
    requires kinds { All IsKind input.source.kinds.now }
    requires filter { ConditionFits input.source.kinds.now filter }
    requires fits { OperandFits input.source.kinds.now operand }
    requires known { OperandKnown (widths input.source.words.now) operand }
    requires back { BackFits back }
    requires reach { ReachFits (count.width - 1) back }
    requires few { count.width ≤ 18 }
    requires some { 1 ≤ count.width }
    requires address { input.rows.slot.width + count.width ≤ 33 }
    ensures { IfOk result (
        let kinds = input.entry.source.kinds.now in
        IsSlotItemIn net.old net.new (cost_of_slot_over input.entry.rows.slot.width kinds (Max operand) filter back)
        (delay_over kinds (Max operand) filter back) (width_of (kind_of_frame_agg kinds (Max operand)))
        (λ sets rows. value_over sets kinds filter back rows (Max operand)) input.entry count) }
{
    let extreme = Extreme::Greatest;
    put_slot_extreme(
        net,
        input,
        count,
        filter,
        Ranking { extreme, operand },
        back,
    )
}
