//! Rows of slots two cycles later, so that a fold may stand behind two stages.

ghost use Rattle.std.specs.Prelude.{IfOk};
ghost use Rattle.gl_net.specs.Net.{IsBus};
ghost use Rattle.gl_frames_slots.specs.Rows.{HasSlotRows};
ghost use Rattle.gl_frames_slots.specs.Stages.{AreCountedTwoLateIn, AreRowsTwoLateIn};

use crate::rows::SlotRows;
use gl_bits::Memory;
use gl_net::{Bus, NetBuilder};
use gl_totals::delay::{delay_bit, delay_bus};
use gl_wire::{later, later_bit};

/// Rows of slots, and how many of its slot came before each.
#[derive(Clone, Copy)]
pub struct CountedRows {
    /// The rows.
    pub rows: SlotRows,
    /// The count of a ring of more words than any that is read.
    pub count: Bus,
}

/// The same rows two cycles later. What is told of the next cycle is what stood one cycle later.
pub fn put_rows_later(net: &mut NetBuilder, rows: SlotRows) -> Result<SlotRows, Memory>
    requires rows { HasSlotRows net.old rows }
    ensures { IfOk result (AreRowsTwoLateIn net.old net.new rows) }
{
    let valid = delay_bit(net, rows.valid, 2)?;
    let begins = later_bit(net, rows.first)?;
    let first = later_bit(net, begins)?;
    let next = later(net, rows.slot)?;
    let slot = later(net, next)?;
    Ok(SlotRows {
        valid,
        first,
        slot,
        begins,
        next,
    })
}

/// The same rows and their count two cycles later.
pub fn put_counted_later(net: &mut NetBuilder, counted: CountedRows) -> Result<CountedRows, Memory>
    requires rows { HasSlotRows net.old counted.rows }
    requires count { IsBus net.old counted.count }
    ensures { IfOk result (AreCountedTwoLateIn net.old net.new counted) }
{
    let rows = put_rows_later(net, counted.rows)?;
    let count = delay_bus(net, counted.count, 2)?;
    Ok(CountedRows { rows, count })
}
