//! A select of frames: all items of each row, so many cycles behind it.

ghost use Rattle.std.specs.Prelude.{◌≡◌, ◌≢◌, ◌≤◌, ◌^◌, ◌⊎◌, All, IfOk, Some, length, map, slice_get, take};
ghost use Rattle.gl_algebra.specs.Columns.{FrameFits, kind_of_frame};
ghost use Rattle.gl_algebra.specs.Known.{FrameKnown};
ghost use Rattle.gl_algebra.specs.FigureTable.{delayed, settled};
ghost use Rattle.gl_algebra.specs.Frames.{delay_of_frame, delay_of_frames};
ghost use Rattle.gl_algebra.specs.Results.{row_of_frames, value_of_frame};
ghost use Rattle.gl_values.specs.Kinds.{IsKind, width_of};
ghost use Rattle.gl_frames_wire.specs.Running.{Each, Runs};
ghost use Rattle.gl_wire.specs.Blocks.{IsBehind};
ghost use Rattle.gl_wire.specs.Wire.{IsWire, widths};
ghost use Rattle.gl_rows.specs.Made.{AreHeldBuses};
ghost use Rattle.gl_frames_stages.specs.FramesNets.{AreItemsIn, frames_widths};
ghost use Rattle.gl_frames_stages.specs.Inputs.{HasInput, IsItemIn};
ghost use Rattle.gl_frames_stages.specs.ItemCosts.{cost_of_frames, cost_of_item_late};

use crate::delay::{put_late, put_late_lines};
use crate::input::Input;
use crate::lines::Lines;
use crate::over::put_item;
use gl_algebra::frames::{delay_of_frame, delay_of_frames};
use gl_algebra::{Figures, PlanFrame};
use gl_bits::Memory;
use gl_frames_wire::laws::running_serves;
use gl_net::{Bus, Buses, NetBuilder, Note};
use gl_rows::Source;
use gl_values::Kind;
use gl_wire::{Emitted, Operator, Wire, delayed_figures, settled_figures};
use std::alloc::Global;

/// Of each row what these items make of the rows of its stream up to it, over columns of these kinds.
#[derive(Clone, Copy)]
pub struct FrameRows<'a> {
    /// The kinds of the columns that come in.
    pub kinds: &'a [Kind],
    /// The buses of the parameters, in the order of their numbers.
    pub words: &'a [Bus],
    /// The items, one for each column of the row.
    pub items: &'a [PlanFrame],
    /// The cycles that the slowest item takes: `delay_of_frames` of both.
    pub cycles: u32,
}

// An item `cycles` cycles behind each row.
fn put_item_late(
    net: &mut NetBuilder,
    input: Input,
    item: PlanFrame,
    cycles: u32,
) -> Result<Bus, Memory>
    requires input { HasInput net.old input }
    requires kinds { All IsKind input.source.kinds.now }
    requires item { FrameFits input.source.kinds.now item }
    requires known { FrameKnown (widths input.source.words.now) item }
    requires late { delay_of_frame input.source.kinds.now item ≤ cycles }
    requires most { cycles ≤ 2 ^ 16 }
    ensures { IfOk result (
        let kinds = input.entry.source.kinds.now in
        IsItemIn net.old net.new (cost_of_item_late kinds cycles item) cycles
        (width_of (kind_of_frame kinds item)) (λ sets rows. value_of_frame sets kinds rows item) input.entry) }
{
    let gone = delay_of_frame(input.source.kinds, &item);
    let early = put_item(net, input, item)?;
    // Named, since a goal speaks of the value.
    let out = put_late(net, early, cycles - gone)?;
    Ok(out)
}

// The same, told as the column at this place.
fn put_part(
    net: &mut NetBuilder,
    input: Input,
    item: PlanFrame,
    cycles: u32,
    place: usize,
) -> Result<Bus, Memory>
    requires input { HasInput net.old input }
    requires kinds { All IsKind input.source.kinds.now }
    requires item { FrameFits input.source.kinds.now item }
    requires known { FrameKnown (widths input.source.words.now) item }
    requires late { delay_of_frame input.source.kinds.now item ≤ cycles }
    requires most { cycles ≤ 2 ^ 16 }
    ensures { IfOk result (
        let kinds = input.entry.source.kinds.now in
        IsItemIn net.old net.new (cost_of_item_late kinds cycles item) cycles
        (width_of (kind_of_frame kinds item)) (λ sets rows. value_of_frame sets kinds rows item) input.entry) }
{
    net.note(Note::Part(place))?;
    let bus = put_item_late(net, input, item, cycles)?;
    net.note(Note::Leave)?;
    Ok(bus)
}

/// The first place of an item among others, or how many they are.
pub fn first_place(items: &[PlanFrame], item: &PlanFrame) -> usize
    ensures equal { (slice_get items.now result ≡ Some item.now) ⊎ (result ≡ length items.now) }
    ensures first { All (λ before. before ≢ item.now) (take result items.now) }
{
    for at in 0..items.len() {
        if items[at] == *item {
            return at;
        }
    }
    items.len()
}

// An item behind others that are made: the column of an equal one, or its own.
fn put_once(
    net: &mut NetBuilder,
    input: Input,
    items: &[PlanFrame],
    item: PlanFrame,
    cycles: u32,
    made: &[Bus],
) -> Result<Bus, Memory>
    requires input { HasInput net.old input }
    requires kinds { All IsKind input.source.kinds.now }
    requires item { FrameFits input.source.kinds.now item }
    requires known { FrameKnown (widths input.source.words.now) item }
    requires late { delay_of_frame input.source.kinds.now item ≤ cycles }
    requires most { cycles ≤ 2 ^ 16 }
    requires within { length made.now ≤ length items.now }
    requires made { AreItemsIn net.old net.old cycles input
        (take (length made.now) items.now) made.now }
    ensures { IfOk result (
        let kinds = input.entry.source.kinds.now in
        IsItemIn net.old net.new (cost_of_item_late kinds cycles item) cycles
        (width_of (kind_of_frame kinds item)) (λ sets rows. value_of_frame sets kinds rows item) input.entry) }
{
    let place = first_place(items, &item);
    if place < made.len() {
        return Ok(made[place]);
    }
    put_part(net, input, item, cycles, made.len())
}

/// Some items `cycles` cycles behind each row, which are no fewer than the slowest takes. Equal items have one column.
pub fn put_items(
    alloc: Global,
    net: &mut NetBuilder,
    input: Input,
    items: &[PlanFrame],
    cycles: u32,
) -> Result<Buses, Memory>
    requires input { HasInput net.old input }
    requires kinds { All IsKind input.source.kinds.now }
    requires fit { All (FrameFits input.source.kinds.now) items.now }
    requires known { All (FrameKnown (widths input.source.words.now)) items.now }
    requires late { delay_of_frames input.source.kinds.now items.now ≤ cycles }
    requires most { cycles ≤ 2 ^ 16 }
    ensures { IfOk result (AreItemsIn net.old net.new cycles input.entry items.now) }
{
    let mut all = Buses::new(alloc);
    for item in items {
        let bus = put_once(net, input, items, *item, cycles, all.as_slice())?;
        all.push(bus)?;
    }
    Ok(all)
}

/// As many cycles behind each row as the slowest item takes, the row of all items, and each end.
pub fn put_frames(
    alloc: Global,
    net: &mut NetBuilder,
    below: Emitted,
    kinds: &[Kind],
    words: &[Bus],
    items: &[PlanFrame],
) -> Result<Emitted, Memory>
    requires wire { IsWire net.old below.wire }
    requires kinds { widths below.wire.columns ≡ map width_of kinds.now }
    requires are_kinds { All IsKind kinds.now }
    requires items { All (FrameFits kinds.now) items.now }
    requires words { AreHeldBuses net.old words.now }
    requires known { All (FrameKnown (widths words.now)) items.now }
    ensures { IfOk result (IsBehind net.old net.new
        (λ sets. Runs (delay_of_frames kinds.now items.now)
        (λ rows. Some (row_of_frames sets kinds.now items.now rows)))
        (frames_widths kinds.now items.now)
        (cost_of_frames kinds.now (delay_of_frames kinds.now items.now) items.now) below) }
{
    running_serves();
    let cycles = delay_of_frames(kinds, items);
    let lines = Lines {
        valid: below.wire.valid,
        eos: below.wire.eos,
    };
    let input = Input {
        lines,
        source: Source {
            columns: below.wire.columns.as_slice(),
            kinds,
            words,
        },
    };
    let columns = put_items(alloc, net, input, items, cycles)?;
    let late = put_late_lines(net, lines, cycles)?;
    Ok(Emitted {
        wire: Wire {
            valid: late.valid,
            eos: late.eos,
            columns,
        },
        faults: below.faults,
    })
}

impl Operator for FrameRows<'_> {
    ghost takes = { λ s net columns. (columns ≡ map width_of s.kinds.now) × All IsKind s.kinds.now
        × All (FrameFits s.kinds.now) s.items.now × (s.cycles ≡ delay_of_frames s.kinds.now s.items.now)
        × AreHeldBuses net s.words.now × All (FrameKnown (widths s.words.now)) s.items.now };

    ghost gives = { λ s _. frames_widths s.kinds.now s.items.now };

    ghost most = { λ s _. cost_of_frames s.kinds.now (delay_of_frames s.kinds.now s.items.now) s.items.now };

    ghost shape = { λ s sets. Runs (delay_of_frames s.kinds.now s.items.now) (λ rows. Some (row_of_frames sets s.kinds.now s.items.now rows)) };

    ghost means = { λ s sets. Each (λ rows. Some (row_of_frames sets s.kinds.now s.items.now rows)) };

    ghost figures_of = { λ s f. settled (delayed s.cycles f) };

    fn figures(&self, source: Figures) -> Figures {
        settled_figures(delayed_figures(source, self.cycles))
    }

    fn emit(&self, alloc: Global, net: &mut NetBuilder, below: Emitted) -> Result<Emitted, Memory> {
        running_serves();
        // Named, since a goal speaks of the value.
        let put = put_frames(alloc, net, below, self.kinds, self.words, self.items)?;
        Ok(put)
    }
}
