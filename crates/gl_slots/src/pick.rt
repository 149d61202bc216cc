//! Of buses the one whose line is 1: each bus where its line is 1 and else 0, and the bits of all of them together, in a tree.

ghost use Rattle.std.specs.Prelude.{◌≡◌, ◌<◌, ◌≤◌, ◌*◌, ◌-◌, ◌^◌, IfOk, length};
ghost use Rattle.gl_bits.specs.Words.{IsWidth};
ghost use Rattle.gl_net.specs.Net.{IsBit, IsBus};
ghost use Rattle.gl_wire_registers.specs.Lines.{AreBits};
ghost use Rattle.gl_slots.specs.Picks.{AddsNumbers, AreAlike, CarriesZero, IsNumber, Masks, Merges, PicksOne, bits_of_slots};

use gl_bits::Memory;
use gl_net::{BinaryOp, Bit, Bus, Buses, NetBuilder};
use gl_wire_registers::{bits_below, word};
use std::alloc::Global;

// A bus where its line is 1, and else 0.
fn mask(net: &mut NetBuilder, line: Bit, bus: Bus, zero: Bus) -> Result<Bus, Memory>
    requires line { IsBit net.old line }
    requires bus { IsBus net.old bus }
    requires zero { IsBus net.old zero }
    requires widths { bus.width ≡ zero.width }
    requires carries { CarriesZero net.old zero }
    ensures { IfOk result (Masks net.old net.new line bus) }
{
    // Named, since a goal speaks of the value.
    let masked = net.choose(line, bus, zero)?;
    Ok(masked)
}

// The bits of two buses together.
fn merge(net: &mut NetBuilder, left: Bus, right: Bus) -> Result<Bus, Memory>
    requires left { IsBus net.old left }
    requires right { IsBus net.old right }
    requires widths { left.width ≡ right.width }
    ensures { IfOk result (Merges net.old net.new left right) }
{
    // Named, since a goal speaks of the value.
    let bus = net.binary(BinaryOp::Or, left, right)?;
    Ok(bus)
}

// Of these buses the one whose line is 1, beside a bus that carries 0.
fn pick_of(net: &mut NetBuilder, lines: &[Bit], buses: &[Bus], zero: Bus) -> Result<Bus, Memory>
    requires lines { AreBits net.old lines.now }
    requires buses { AreAlike net.old zero.width buses.now }
    requires zero { IsBus net.old zero }
    requires carries { CarriesZero net.old zero }
    requires count { length buses.now ≡ length lines.now }
    requires some { 1 ≤ length lines.now }
    ensures { IfOk result
        (PicksOne net.old net.new lines.now buses.now zero.width (length lines.now * 2 - 1)) }
{
    let many = lines.len();
    if many < 2 {
        let only = mask(net, lines[0], buses[0], zero)?;
        return Ok(only);
    }
    let (first, second) = lines.split_at(many / 2);
    let (left, right) = buses.split_at(many / 2);
    let one = pick_of(net, first, left, zero)?;
    let other = pick_of(net, second, right, zero)?;
    let picked = merge(net, one, other)?;
    Ok(picked)
}

/// Of these buses the one whose line is 1.
pub fn pick(net: &mut NetBuilder, lines: &[Bit], buses: &[Bus], width: u8) -> Result<Bus, Memory>
    requires lines { AreBits net.old lines.now }
    requires buses { AreAlike net.old width buses.now }
    requires count { length buses.now ≡ length lines.now }
    requires some { 1 ≤ length lines.now }
    ensures { IfOk result
        (PicksOne net.old net.new lines.now buses.now width (length lines.now * 2)) }
{
    let zero = number(net, 0, width)?;
    let picked = pick_of(net, lines, buses, zero)?;
    Ok(picked)
}

/// A bus that carries a number.
pub fn number(net: &mut NetBuilder, number: u32, width: u8) -> Result<Bus, Memory>
    requires width { IsWidth width }
    requires fits { number < 2 ^ width }
    ensures { IfOk result (IsNumber net.old net.new number width) }
{
    // Named, since a goal speaks of the value.
    let bus = net.constant(word(u128::from(number), width))?;
    Ok(bus)
}

/// For each place a bus that carries its number.
pub fn numbers(alloc: Global, net: &mut NetBuilder, count: u32, width: u8) -> Result<Buses, Memory>
    requires width { IsWidth width }
    requires fits { count ≤ 2 ^ width }
    ensures { IfOk result (AddsNumbers net.old net.new (λ k. k) count width) }
{
    let mut all = Buses::new(alloc);
    for place in 0..count {
        let bus = number(net, place, width)?;
        all.push(bus)?;
    }
    Ok(all)
}

/// The bits of a slot's number.
pub fn slot_bits(slots: u32) -> u8
    ensures value { result ≡ bits_of_slots slots }
    ensures width { IsWidth result }
    ensures few { result ≤ 32 }
    ensures enough { slots ≤ 2 ^ result }
{
    bits_below(u64::from(slots))
}
