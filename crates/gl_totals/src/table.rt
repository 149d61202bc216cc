//! All aggregates of a node, for the streams of all slots of a lane: the states stand in memories, the operands of a row in registers.

ghost use Rattle.std.specs.Prelude.{◌≡◌, ◌≤◌, All, IfOk, length, map};
ghost use Rattle.gl_algebra.specs.Columns.{AggFits};
ghost use Rattle.gl_algebra.specs.Known.{AggKnown};
ghost use Rattle.gl_values.specs.Kinds.{IsKind, width_of};
ghost use Rattle.gl_net.specs.Net.{IsBit, IsBus};
ghost use Rattle.gl_rows.specs.Made.{AreHeldBuses};
ghost use Rattle.gl_totals.specs.Open.{in_memory};
ghost use Rattle.gl_totals.specs.Tables.{AreLinesBehind, IsTable};
ghost use Rattle.gl_wire.specs.Wire.{IsWire, widths};

use crate::delay::{delay_bit, delay_bus};
use crate::rows::{Keep, Rows};
use crate::total::{Stream, put_aggs};
use gl_algebra::PlanAgg;
use gl_algebra::table::delay_of_aggs;
use gl_bits::Memory;
use gl_net::{Bit, Bus, NetBuilder};
use gl_rows::Source;
use gl_values::Kind;
use gl_wire::{Wire, later, later_bit, note_bit, note_bus};
use gl_wire_lanes::TableOut;
use std::alloc::Global;

/// One row with the end of each stream of each slot: these aggregates side by side, over columns of these kinds.
#[derive(Clone, Copy)]
pub struct Table<'a> {
    /// The kinds of the columns that come.
    pub kinds: &'a [Kind],
    /// The buses of the parameters, in the order of their numbers.
    pub words: &'a [Bus],
    /// The aggregates, of which there is at least one.
    pub aggs: &'a [PlanAgg],
}

/// The lines of a lane.
#[derive(Clone, Copy)]
pub struct Lines {
    /// 1 in a cycle with a row.
    pub valid: Bit,
    /// 1 in a cycle with an end.
    pub eos: Bit,
    /// 1 in a cycle in which the stream of its slot begins.
    pub first: Bit,
    /// The slot of the cycle.
    pub slot: Bus,
}

impl Lines {
    // The rows behind these lines, with a state for each slot in a memory, where the slot of the next cycle is told, and whether its stream
    // begins.
    fn rows(self, begins: Bit, next: Bus) -> Rows
        ensures { result ≡ in_memory self.valid self.eos self.first begins self.slot next }
    {
        Rows {
            valid: self.valid,
            eos: self.eos,
            keep: Keep::Slots {
                first: self.first,
                begins,
                slot: self.slot,
                next,
            },
        }
    }
}

// Tells the lines of a lane.
fn note_lane(net: &mut NetBuilder, lines: Lines) -> Result<(), Memory>
    ensures { net.new ≡ net.old }
{
    note_bit(net, b"row", lines.valid)?;
    note_bit(net, b"end", lines.eos)?;
    note_bit(net, b"first", lines.first)?;
    note_bus(net, b"slot", lines.slot)
}

// The lines of a lane, one cycle later.
fn put_lines(net: &mut NetBuilder, rows: &Wire, slot: Bus, first: Bit) -> Result<Lines, Memory>
    requires valid { IsBit net.old rows.now.valid }
    requires eos { IsBit net.old rows.now.eos }
    requires slot { IsBus net.old slot }
    requires first { IsBit net.old first }
    ensures { IfOk result (AreLinesBehind net.old net.new rows.now slot first) }
{
    let valid = later_bit(net, rows.valid)?;
    let eos = later_bit(net, rows.eos)?;
    let first = later_bit(net, first)?;
    let slot = later(net, slot)?;
    let made = Lines {
        valid,
        eos,
        first,
        slot,
    };
    note_lane(net, made)?;
    Ok(made)
}

impl Table<'_> {
    /// As many cycles after the end of each stream as the slowest aggregate takes, one row of all aggregates over the rows of its slot since it
    /// began, the end, and the slot.
    pub fn emit(
        &self,
        alloc: Global,
        net: &mut NetBuilder,
        rows: &Wire,
        slot: Bus,
        first: Bit,
    ) -> Result<TableOut, Memory>
        requires wire { IsWire net.old rows.now }
        requires kinds { widths rows.now.columns ≡ map width_of self.now.kinds.now }
        requires are_kinds { All IsKind self.now.kinds.now }
        requires aggs { All (AggFits self.now.kinds.now) self.now.aggs.now }
        requires words { AreHeldBuses net.old self.now.words.now }
        requires known { All (AggKnown (widths self.now.words.now)) self.now.aggs.now }
        requires some { 1 ≤ length self.now.aggs.now }
        requires slot { IsBus net.old slot }
        requires bits { 1 ≤ slot.width }
        requires few { slot.width ≤ 8 }
        requires first { IsBit net.old first }
        ensures { IfOk result (IsTable net.old net.new self.now rows.now slot first) }
    {
        let lines = put_lines(net, rows, slot, first)?;
        let stream = Stream {
            rows: lines.rows(first, slot),
            source: Source {
                columns: rows.columns.as_slice(),
                kinds: self.kinds,
                words: self.words,
            },
        };
        let more = delay_of_aggs(self.kinds, self.aggs) - 1;
        let columns = put_aggs(alloc, net, stream, self.aggs, more)?;
        let end = delay_bit(net, lines.eos, more)?;
        let out = delay_bus(net, lines.slot, more)?;
        Ok(TableOut {
            wire: Wire {
                valid: end,
                eos: end,
                columns,
            },
            slot: out,
        })
    }
}
