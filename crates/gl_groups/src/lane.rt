//! One wire for all slots, in place of a wire for each. The slots find a row's key one cycle after it came, so the machine of the slots runs
//! one cycle behind the source, and what it tells needs no register behind it.

ghost use Rattle.std.specs.Prelude.{◌≡◌, ◌+◌, ◌<◌, ◌≤◌, ◌^◌, IfOk, length};
ghost use Rattle.gl_bits.specs.Words.{IsWidth};
ghost use Rattle.gl_net.specs.Net.{IsBit, IsBus};
ghost use Rattle.gl_wire.specs.Wire.{IsWire};
ghost use Rattle.gl_wire_registers.specs.Lines.{AddsLine};
ghost use Rattle.gl_groups.specs.Finding.{HasSought};
ghost use Rattle.gl_groups.specs.Lanes.{AddsHeldEnd, AddsLane, AddsLaneLines, AddsLate, AddsNew, AddsOver, AddsSlot, AddsTold, AreTurns, end_line, less_at, row_line};

use crate::finding::{Asking, Sought, find_slots};
use crate::notes::{note_end, note_over, note_told};
use gl_bits::Memory;
use gl_net::{BinaryOp, Bit, Bus, Buses, NetBuilder};
use gl_slots::choices::choose_bit;
use gl_slots::front::Numbers;
use gl_slots::parts::count_flush;
use gl_slots::pick::number;
use gl_wire::{Wire, both, but_not, either, later_bit, note_stage, same};
use gl_wire_registers::{Bits, Counter, count_down, hold_all, latch, number_or, when_equal};
use std::alloc::Global;

/// What came with the last end.
#[derive(Clone, Copy, PartialEq, Eq, Debug)]
pub struct HeldEnd {
    /// 1 where a tuple comes with an end.
    pub with_end: Bit,
    /// 1 where a tuple came with the last one.
    pub held: Bit,
}

/// The turns of a flush.
#[derive(Clone, Copy, PartialEq, Eq, Debug)]
pub struct Over {
    /// The slots that have not had their turn.
    pub rest: Bus,
    /// Those that have: the number of the one whose turn is next.
    pub over: Bus,
}

/// Which slot has its turn.
#[derive(Clone, Copy, PartialEq, Eq, Debug)]
pub struct Turns {
    /// 1 where one has its turn of a flush.
    pub due: Bit,
    /// 1 where a tuple comes with an end.
    pub with_end: Bit,
    /// 1 where a tuple came with the last one.
    pub held: Bit,
    /// The number of the slot whose turn is next.
    pub over: Bus,
}

/// Whether the key of the row that came last was none of the slots'.
#[derive(Clone, Copy, PartialEq, Eq, Debug)]
pub struct NewKey {
    /// With the row that comes.
    pub new: Bit,
    /// Before it.
    pub was: Bit,
}

/// What one wire tells of the slots in a cycle.
#[derive(Clone, Copy, PartialEq, Eq, Debug)]
pub struct Told {
    /// 1 where a slot takes the row.
    pub row: Bit,
    /// 1 where one ends.
    pub end: Bit,
    /// The number of that slot.
    pub slot: Bus,
    /// Whether its stream had not begun: the row's key is new.
    pub key: NewKey,
    /// 1 with a row of a new key.
    pub first: Bit,
}

/// One wire for the slots.
#[derive(Drop)]
pub struct LaneLines {
    /// What the one slot with an event would get.
    pub wire: Wire,
    /// The slot whose cycle it is.
    pub slot: Bus,
    /// 1 with the first event of a slot's stream.
    pub first: Bit,
    /// For each slot its key.
    pub keys: Buses,
    /// The slot that may take the key that came.
    pub nexts: Bits,
    /// That key.
    pub here: Bus,
    /// 1 one cycle after a row of a further key.
    pub further: Bit,
}

/// A wire one cycle later, with the columns of the row that came last.
pub fn hold_wire(alloc: Global, net: &mut NetBuilder, wire: &Wire) -> Result<Wire, Memory>
    requires wire { IsWire net.old wire.now }
    ensures { IfOk result (AddsLate net.old net.new wire.now) }
{
    let valid = later_bit(net, wire.valid)?;
    let eos = later_bit(net, wire.eos)?;
    let columns = hold_all(alloc, net, wire.valid, &wire.columns)?;
    let late = Wire {
        valid,
        eos,
        columns,
    };
    note_stage(net, &late)?;
    Ok(late)
}

/// Keeps whether a tuple came with the end.
pub fn hold_end(net: &mut NetBuilder, valid: Bit, eos: Bit) -> Result<HeldEnd, Memory>
    requires valid { IsBit net.old valid }
    requires eos { IsBit net.old eos }
    ensures { IfOk result (AddsHeldEnd net.old net.new valid eos) }
{
    let with_end = both(net, eos, valid)?;
    let held = latch(net, with_end, eos)?;
    let made = HeldEnd { with_end, held };
    note_end(net, made)?;
    Ok(made)
}

/// Counts the turns of a flush, in `width` bits.
pub fn count_over(
    net: &mut NetBuilder,
    eos: Bit,
    due: Bit,
    count: u32,
    width: u8,
) -> Result<Over, Memory>
    requires eos { IsBit net.old eos }
    requires due { IsBit net.old due }
    requires count { 1 ≤ count }
    requires width { IsWidth width }
    requires fits { count < 2 ^ width }
    ensures { IfOk result (AddsOver net.old net.new eos due count width) }
{
    let all = u128::from(count);
    let others = u128::from(count - 1);
    let counter = Counter {
        width,
        start: all,
        cleared: others,
        again: 0,
    };
    let rest = count_down(net, eos, due, counter)?;
    let slots = number(net, count, width)?;
    let over = net.binary(BinaryOp::Sub, slots, rest)?;
    let made = Over { rest, over };
    note_over(net, made)?;
    Ok(made)
}

/// 1 where a number is less than another.
pub fn less(net: &mut NetBuilder, left: Bus, right: Bus) -> Result<Bit, Memory>
    requires left { IsBus net.old left }
    requires right { IsBus net.old right }
    requires widths { left.width ≡ right.width }
    ensures { IfOk result (λ b. AddsLine net.old net.new 1 b (less_at left right)) }
{
    let bus = net.binary(BinaryOp::Lt, left, right)?;
    Ok(bus.bit())
}

/// 1 where a slot takes a row: one that comes alone and is not left over, one that comes with the end and is of the first slot, or in a flush
/// the one that came with the end, in the turn of its slot.
pub fn tell_row(
    net: &mut NetBuilder,
    late: &Wire,
    sought: &Sought,
    turns: &Turns,
) -> Result<Bit, Memory>
    requires late { IsWire net.old late.now }
    requires sought { HasSought net.old turns.now.over.width sought.now }
    requires some { 1 ≤ length sought.now.kept }
    requires turns { AreTurns net.old turns.now }
    ensures { IfOk result (λ b.
        AddsLine net.old net.new 14 b (row_line late.now sought.now turns.now)) }
{
    let place = sought.place;
    let alone = but_not(net, late.valid, late.eos)?;
    let plain = but_not(net, alone, sought.passes)?;
    let before = when_equal(net, sought.one.had, place.home, 0)?;
    let head = choose_bit(net, sought.moved, sought.hits.as_slice()[0], before)?;
    let missed = but_not(net, sought.kept.as_slice()[0], head)?;
    let first = but_not(net, turns.with_end, missed)?;
    let turn = same(net, place.home, turns.over)?;
    let there = both(net, sought.one.had, turn)?;
    let rests = both(net, turns.due, turns.held)?;
    let tail = both(net, rests, there)?;
    let came = either(net, plain, first)?;
    let row = either(net, came, tail)?;
    Ok(row)
}

/// 1 where a slot ends: one that is used, in its turn of a flush; with the end the first one.
pub fn tell_end(
    net: &mut NetBuilder,
    late: &Wire,
    sought: &Sought,
    turns: &Turns,
) -> Result<Bit, Memory>
    requires late { IsWire net.old late.now }
    requires sought { HasSought net.old turns.now.over.width sought.now }
    requires some { 1 ≤ length sought.now.kept }
    requires turns { AreTurns net.old turns.now }
    ensures { IfOk result (λ b.
        AddsLine net.old net.new 5 b (end_line late.now sought.now turns.now)) }
{
    let used = less(net, turns.over, sought.many.many)?;
    let turn = both(net, turns.due, used)?;
    let some = either(net, late.valid, sought.kept.as_slice()[0])?;
    let end = both(net, late.eos, some)?;
    let either = either(net, turn, end)?;
    Ok(either)
}

/// The number of the slot that has its turn, and else of the one that has the row's key, in `width` bits.
pub fn tell_slot(
    net: &mut NetBuilder,
    eos: Bit,
    turns: &Turns,
    number: Bus,
    width: u8,
) -> Result<Bus, Memory>
    requires eos { IsBit net.old eos }
    requires turns { AreTurns net.old turns.now }
    requires number { IsBus net.old number }
    requires same_width { number.width ≡ turns.now.over.width }
    requires width { IsWidth width }
    requires wide { number.width ≡ width + 1 }
    ensures { IfOk result (AddsSlot net.old net.new eos turns.now number width) }
{
    let at = number_or(net, eos, 0, turns.over)?;
    let turned = either(net, eos, turns.due)?;
    let told = net.choose(turned, at, number)?;
    let slot = net.cut(told, width - 1, 0)?;
    Ok(slot)
}

/// Keeps whether the key of the row that came last was none of the slots'.
pub fn tell_new(net: &mut NetBuilder, valid: Bit, one: Bit) -> Result<NewKey, Memory>
    requires valid { IsBit net.old valid }
    requires one { IsBit net.old one }
    ensures { IfOk result (AddsNew net.old net.new valid one) }
{
    let comes = but_not(net, valid, one)?;
    let was = latch(net, comes, valid)?;
    let stays = but_not(net, was, valid)?;
    let new = either(net, comes, stays)?;
    Ok(NewKey { new, was })
}

/// What the slots do in a cycle, told of one of them.
pub fn tell(
    net: &mut NetBuilder,
    late: &Wire,
    sought: &Sought,
    turns: &Turns,
    width: u8,
) -> Result<Told, Memory>
    requires late { IsWire net.old late.now }
    requires sought { HasSought net.old turns.now.over.width sought.now }
    requires some { 1 ≤ length sought.now.kept }
    requires turns { AreTurns net.old turns.now }
    requires width { IsWidth width }
    requires wide { turns.now.over.width ≡ width + 1 }
    ensures { IfOk result (AddsTold net.old net.new late.now sought.now turns.now width) }
{
    let row = tell_row(net, late, sought, turns)?;
    let end = tell_end(net, late, sought, turns)?;
    let slot = tell_slot(net, late.eos, turns, sought.place.number, width)?;
    let key = tell_new(net, late.valid, sought.one.one)?;
    let first = both(net, row, key.new)?;
    let told = Told {
        row,
        end,
        slot,
        key,
        first,
    };
    note_told(net, told)?;
    Ok(told)
}

// The wire that tells so of the slots, behind a key that was looked for.
fn tell_lane(
    net: &mut NetBuilder,
    late: Wire,
    sought: Sought,
    turns: &Turns,
    here: Bus,
    width: u8,
) -> Result<LaneLines, Memory>
    requires late { IsWire net.old late }
    requires sought { HasSought net.old turns.now.over.width sought }
    requires some { 1 ≤ length sought.kept }
    requires turns { AreTurns net.old turns.now }
    requires width { IsWidth width }
    requires wide { turns.now.over.width ≡ width + 1 }
    ensures { IfOk result (AddsLaneLines net.old net.new late sought turns.now here width) }
{
    let told = tell(net, &late, &sought, turns, width)?;
    let asked = sought.asked;
    Ok(LaneLines {
        wire: Wire {
            valid: told.row,
            eos: told.end,
            columns: late.columns,
        },
        slot: told.slot,
        first: told.first,
        keys: sought.keys,
        nexts: asked.nexts,
        here,
        further: sought.passes,
    })
}

/// One wire for all slots, by the key in a column; a slot's number has `width` bits.
pub fn put_lane(
    alloc: Global,
    net: &mut NetBuilder,
    wire: &Wire,
    numbers: Numbers,
) -> Result<LaneLines, Memory>
    requires wire { IsWire net.old wire.now }
    requires key { numbers.key < length wire.now.columns }
    requires count { 1 ≤ numbers.slots }
    requires stride { 1 ≤ numbers.stride }
    requires width { IsWidth numbers.width }
    requires few { numbers.width ≤ 32 }
    requires fits { numbers.slots ≤ 2 ^ numbers.width }
    ensures { IfOk result (AddsLane net.old net.new
        numbers.key numbers.slots numbers.stride numbers.width wire.now) }
{
    let late = hold_wire(alloc, net, wire)?;
    let flush = count_flush(net, late.valid, late.eos, numbers.stride)?;
    let end = hold_end(net, late.valid, late.eos)?;
    let bits = numbers.width + 1;
    let over = count_over(net, late.eos, flush.due, numbers.slots, bits)?;
    let asking = Asking {
        free: flush.free,
        ask: late.valid,
        last: late.columns.as_slice()[numbers.key],
        come: wire.valid,
        here: wire.columns.as_slice()[numbers.key],
    };
    let found = find_slots(alloc, net, &asking, numbers.slots, bits)?;
    let turns = Turns {
        due: flush.due,
        with_end: end.with_end,
        held: end.held,
        over: over.over,
    };
    let lines = tell_lane(net, late, found.sought, &turns, asking.last, numbers.width)?;
    Ok(lines)
}
