//! The sum of the last values of each slot, three cycles behind each row.

ghost use Rattle.std.specs.Prelude.{◌≡◌, ◌+◌, ◌≤◌, IfOk};
ghost use Rattle.gl_bits.specs.Words.{IsWidth};
ghost use Rattle.gl_net.specs.Net.{IsBus};
ghost use Rattle.gl_values.specs.Kinds.{width_of};
ghost use Rattle.gl_frames_wire.specs.Reaches.{IsReach};
ghost use Rattle.gl_frames_slots.specs.Rows.{HasSlotRows};
ghost use Rattle.gl_frames_slots.specs.SumNets.{IsSlotSlideIn, IsSlotSumIn, IsSlotSummedIn, IsSlotWideSumIn};

use crate::lag::put_slot_lagged;
use crate::rows::SlotRows;
use crate::stages::put_rows_later;
use gl_bits::Memory;
use gl_frames_stages::slide::{Slide, put_change, put_or_none, put_wide_change};
use gl_frames_wire::Reach;
use gl_net::{Bus, NetBuilder};
use gl_totals::fold::{Step, put_state, small_word};
use gl_totals::rows::{Keep, Rows};
use gl_values::Kind;
use gl_wire::later;

// One cycle behind each row, the sum of the values of its slot's stream up to it, which wraps in
// their width.
pub(crate) fn put_slot_summed(
    net: &mut NetBuilder,
    rows: SlotRows,
    value: Bus,
) -> Result<Bus, Memory>
    requires rows { HasSlotRows net.old rows }
    requires value { IsBus net.old value }
    ensures { IfOk result (IsSlotSummedIn net.old net.new rows value) }
{
    // A memory asks where a stream begins, and not where one ends.
    let kept = Rows {
        valid: rows.valid,
        eos: rows.first,
        keep: Keep::Slots {
            first: rows.first,
            begins: rows.begins,
            slot: rows.slot,
            next: rows.next,
        },
    };
    let zero = small_word(false, value.width);
    let fold = put_state(net, kept, zero, Step::Add(value), b"state")?;
    // Named, since a goal speaks of the value.
    let out = later(net, fold.now)?;
    Ok(out)
}

// One cycle behind each row, its own value and the one so many rows of its slot before.
fn put_slot_slide(
    net: &mut NetBuilder,
    rows: SlotRows,
    count: Bus,
    reach: Reach,
    value: Bus,
) -> Result<Slide, Memory>
    requires rows { HasSlotRows net.old rows }
    requires count { IsBus net.old count }
    requires reach { IsReach reach }
    requires bits { reach.bits + 1 ≤ count.width }
    requires address { rows.slot.width + reach.bits ≤ 32 }
    requires value { IsBus net.old value }
    ensures { IfOk result (IsSlotSlideIn net.old net.new rows count reach value) }
{
    let lagged = put_slot_lagged(net, rows, count, reach, value)?;
    let gone = put_or_none(net, lagged)?;
    let own = later(net, value)?;
    Ok(Slide { own, gone })
}

/// Three cycles behind each row, the sum of its value and of those of its slot before it, so many
/// in all, which wraps in their width.
pub fn put_slot_sum(
    net: &mut NetBuilder,
    rows: SlotRows,
    count: Bus,
    reach: Reach,
    value: Bus,
) -> Result<Bus, Memory>
    requires rows { HasSlotRows net.old rows }
    requires count { IsBus net.old count }
    requires reach { IsReach reach }
    requires bits { reach.bits + 1 ≤ count.width }
    requires address { rows.slot.width + reach.bits ≤ 32 }
    requires value { IsBus net.old value }
    ensures { IfOk result (IsSlotSumIn net.old net.new rows count reach value) }
{
    let slide = put_slot_slide(net, rows, count, reach, value)?;
    let change = put_change(net, slide)?;
    let late = put_rows_later(net, rows)?;
    // Named, since a goal speaks of the value.
    let sum = put_slot_summed(net, late, change)?;
    Ok(sum)
}

/// The numbers that words of a kind stand for, in a width of their own.
#[derive(Clone, Copy)]
pub struct Wide {
    /// The kind.
    pub kind: Kind,
    /// The width.
    pub width: u8,
}

/// The same of the numbers that words of a kind stand for, which wraps in a width of its own.
pub fn put_slot_wide_sum(
    net: &mut NetBuilder,
    rows: SlotRows,
    count: Bus,
    reach: Reach,
    value: Bus,
    wide: Wide,
) -> Result<Bus, Memory>
    requires rows { HasSlotRows net.old rows }
    requires count { IsBus net.old count }
    requires reach { IsReach reach }
    requires bits { reach.bits + 1 ≤ count.width }
    requires address { rows.slot.width + reach.bits ≤ 32 }
    requires value { IsBus net.old value }
    requires value_width { value.width ≡ width_of wide.kind }
    requires width { IsWidth wide.width }
    ensures { IfOk result
        (IsSlotWideSumIn net.old net.new rows count reach value wide) }
{
    let slide = put_slot_slide(net, rows, count, reach, value)?;
    let change = put_wide_change(net, slide, wide.kind, wide.width)?;
    let late = put_rows_later(net, rows)?;
    // Named, since a goal speaks of the value.
    let sum = put_slot_summed(net, late, change)?;
    Ok(sum)
}
