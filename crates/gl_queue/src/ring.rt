//! The parts of a ring: a queue in memories, one for each column, with two places that go round and a flag.

ghost use Rattle.std.specs.Prelude.{◌≡◌, ◌<◌, ◌^◌, ◌%◌, IfOk};
ghost use Rattle.gl_net.specs.Net.{IsBit, IsBus, IsAddressWidth};
ghost use Rattle.gl_wire.specs.Wire.{AreBuses};
ghost use Rattle.gl_queue.specs.Parts.{ArePlacesOf, AreStored, IsFlagOf, IsMeeting, IsPassedOf, IsPlace};

use gl_bits::{Memory, Word};
use gl_net::{BinaryOp, Bit, Bus, Buses, NetBuilder};
use gl_wire::{both, but_not, either, note_bit, note_bus, same};
use gl_wire_lanes::put_memory;
use std::alloc::Global;

/// A word of `width` bits.
pub fn word(number: u64, width: u8) -> Word
    requires width { IsAddressWidth width }
    requires number { number < 2 ^ width }
    ensures bits { result.bits ≡ number }
    ensures width { result.width ≡ width }
{
    Word::new(number as u128, width).unwrap()
}

/// A place that is 0 after reset and goes on by one, round the ring, in each cycle in which the line is 1.
pub fn put_place(net: &mut NetBuilder, bits: u8, step: Bit) -> Result<Bus, Memory>
    requires bits { IsAddressWidth bits }
    requires step { IsBit net.old step }
    ensures { IfOk result (IsPlace net.old net.new bits step) }
{
    let one = net.constant(word(1, bits))?;
    let place = net.register(bits, Some(word(0, bits)))?;
    let more = net.binary(BinaryOp::Add, place, one)?;
    let next = net.choose(step, more, place)?;
    net.drive(place, next)?;
    Ok(place)
}

/// The flag and the places of a ring, and the line of what leaves.
#[derive(Clone, Copy)]
pub struct Places {
    /// 1 where an entry is there.
    pub some: Bit,
    /// 1 where the oldest leaves.
    pub pop: Bit,
    /// Where the oldest is.
    pub head: Bus,
    /// Where the next will be.
    pub tail: Bus,
}

/// A memory for each of some columns.
pub fn put_columns(
    alloc: Global,
    net: &mut NetBuilder,
    bits: u8,
    push: Bit,
    at: Places,
    columns: &[Bus],
) -> Result<Buses, Memory>
    requires bits { IsAddressWidth bits }
    requires push { IsBit net.old push }
    requires tail { IsBus net.old at.tail }
    requires tail_width { at.tail.width ≡ bits }
    requires head { IsBus net.old at.head }
    requires head_width { at.head.width ≡ bits }
    requires columns { AreBuses net.old columns.now }
    ensures { IfOk result (AreStored net.old net.new bits push at.tail at.head columns.now) }
{
    let mut all = Buses::new(alloc);
    for bus in columns {
        let out = put_memory(net, bits, push, at.tail, at.head, *bus)?;
        all.push(out)?;
    }
    Ok(all)
}

/// A line that is 1 where the place `head` is `number` before the place `tail`, round the ring.
pub fn put_meeting(
    net: &mut NetBuilder,
    bits: u8,
    number: u64,
    head: Bus,
    tail: Bus,
) -> Result<Bit, Memory>
    requires bits { IsAddressWidth bits }
    requires number { number < 2 ^ bits }
    requires head { IsBus net.old head }
    requires head_width { head.width ≡ bits }
    requires tail { IsBus net.old tail }
    requires tail_width { tail.width ≡ bits }
    ensures { IfOk result (IsMeeting net.old net.new bits number head tail) }
{
    let many = net.constant(word(number, bits))?;
    let end = net.binary(BinaryOp::Add, head, many)?;
    let line = same(net, end, tail)?;
    Ok(line)
}

/// A line that is 1 where a push comes, or an entry is there and the last one does not leave.
pub fn put_flag(
    net: &mut NetBuilder,
    push: Bit,
    some: Bit,
    pop: Bit,
    last: Bit,
) -> Result<Bit, Memory>
    requires push { IsBit net.old push }
    requires some { IsBit net.old some }
    requires pop { IsBit net.old pop }
    requires last { IsBit net.old last }
    ensures { IfOk result (IsFlagOf net.old net.new push some pop last) }
{
    let empties = both(net, pop, last)?;
    let stays = but_not(net, some, empties)?;
    let next = either(net, push, stays)?;
    Ok(next)
}

// Tells the lines and the places of a ring.
fn note_places(net: &mut NetBuilder, at: Places) -> Result<(), Memory>
    ensures { net.new ≡ net.old }
{
    note_bit(net, b"some", at.some)?;
    note_bit(net, b"take", at.pop)?;
    note_bus(net, b"head", at.head)?;
    note_bus(net, b"tail", at.tail)
}

/// The flag that an entry is there, and where the oldest is and the next will be.
pub fn put_places(net: &mut NetBuilder, bits: u8, push: Bit, hold: Bit) -> Result<Places, Memory>
    requires bits { IsAddressWidth bits }
    requires push { IsBit net.old push }
    requires hold { IsBit net.old hold }
    ensures { IfOk result (ArePlacesOf net.old net.new bits push hold) }
{
    let flag = net.register(1, Some(word(0, 1)))?;
    let some = flag.bit();
    let pop = but_not(net, some, hold)?;
    let head = put_place(net, bits, pop)?;
    let tail = put_place(net, bits, push)?;
    let last = put_meeting(net, bits, 1, head, tail)?;
    let next = put_flag(net, push, some, pop, last)?;
    net.drive(flag, next.bus())?;
    let made = Places {
        some,
        pop,
        head,
        tail,
    };
    note_places(net, made)?;
    Ok(made)
}

// The number modulo a power of two.
fn modulo(number: u64, bits: u8) -> u64
    requires { IsAddressWidth bits }
    ensures { result ≡ number % 2 ^ bits }
{
    number % (1u64 << bits)
}

/// The line that is 1 where a push comes to a full ring from which nothing leaves.
pub fn put_passed(
    net: &mut NetBuilder,
    bits: u8,
    depth: u64,
    push: Bit,
    at: Places,
) -> Result<Bit, Memory>
    requires bits { IsAddressWidth bits }
    requires push { IsBit net.old push }
    requires some { IsBit net.old at.some }
    requires pop { IsBit net.old at.pop }
    requires head { IsBus net.old at.head }
    requires head_width { at.head.width ≡ bits }
    requires tail { IsBus net.old at.tail }
    requires tail_width { at.tail.width ≡ bits }
    ensures { IfOk result (IsPassedOf net.old net.new bits depth push at) }
{
    let meets = put_meeting(net, bits, modulo(depth, bits), at.head, at.tail)?;
    let full = both(net, at.some, meets)?;
    let comes = both(net, push, full)?;
    let line = but_not(net, comes, at.pop)?;
    note_bit(net, b"full", full)?;
    Ok(line)
}
