//! Lines of many copies, one for each.

ghost use Rattle.std.specs.Prelude.{◌≡◌, ◌<◌, ◌≤◌, ◌^◌, ◌∷◌, ◌++◌, [], IfOk, length, map};
ghost use Rattle.gl_net.specs.Net.{IsBit, IsBus};
ghost use Rattle.gl_wire_registers.specs.Lines.{AddsLine, AddsLines, AreBits, any_line, gated, gates_of, pairs, pointed, pointed_at, to_bit, to_bus, with_line};

use crate::numbers::{never, when_equal};
use gl_bits::{Listed, Memory};
use gl_net::{Bit, Bus, Buses, NetBuilder};
use gl_wire::{both, but_not, either};
use std::alloc::Global;

/// A line for each copy.
pub type Bits = Listed<Bit>;

/// A gate of two lines.
#[derive(Clone, Copy, PartialEq, Eq, Debug)]
pub enum LineOp {
    /// Both.
    Both,
    /// One of them.
    Either,
    /// The first alone.
    ButNot,
}

/// The gate of two lines.
#[tactic(auto, unfolding(crate::specs::Lines::gated))]
pub fn gate(net: &mut NetBuilder, op: LineOp, left: Bit, right: Bit) -> Result<Bit, Memory>
    requires left { IsBit net.old left }
    requires right { IsBit net.old right }
    ensures { IfOk result (λ b. AddsLine net.old net.new 1 b (gated op left right)) }
{
    let bit = match op {
        LineOp::Both => both(net, left, right)?,
        LineOp::Either => either(net, left, right)?,
        LineOp::ButNot => but_not(net, left, right)?,
    };
    Ok(bit)
}

// For each copy the gate of its two lines.
fn pairwise_of(
    alloc: Global,
    net: &mut NetBuilder,
    op: LineOp,
    lefts: &[Bit],
    rights: &[Bit],
) -> Result<Bits, Memory>
    requires lefts { AreBits net.old lefts.now }
    requires rights { AreBits net.old rights.now }
    requires count { length rights.now ≡ length lefts.now }
    ensures { IfOk result (λ bs.
        AddsLines net.old net.new (length lefts.now) 1 bs (pairs op lefts.now rights.now)) }
{
    let mut all = Bits::new(alloc);
    for (i, left) in lefts.iter().enumerate() {
        let bit = gate(net, op, *left, rights[i])?;
        all.push(bit)?;
    }
    Ok(all)
}

// For each copy the gate of its line and one for all.
fn with_all_of(
    alloc: Global,
    net: &mut NetBuilder,
    op: LineOp,
    lefts: &[Bit],
    right: Bit,
) -> Result<Bits, Memory>
    requires lefts { AreBits net.old lefts.now }
    requires right { IsBit net.old right }
    ensures { IfOk result (λ bs.
        AddsLines net.old net.new (length lefts.now) 1 bs (with_line op lefts.now right)) }
{
    let mut all = Bits::new(alloc);
    for left in lefts {
        let bit = gate(net, op, *left, right)?;
        all.push(bit)?;
    }
    Ok(all)
}

// The line of one copy where the pointer is at it.
#[tactic(auto, unfolding(crate::specs::Lines::pointed_at))]
fn at_copy(net: &mut NetBuilder, line: Bit, pointer: Bus, copy: u32) -> Result<Bit, Memory>
    requires line { IsBit net.old line }
    requires pointer { IsBus net.old pointer }
    requires fits { copy < 2 ^ pointer.width }
    ensures { IfOk result (λ b. AddsLine net.old net.new 3 b (pointed_at line pointer copy)) }
{
    // Named, since a goal speaks of the value.
    let bit = when_equal(net, line, pointer, u128::from(copy))?;
    Ok(bit)
}

/// For each copy whether the line is 1 and the pointer is at it.
pub fn decode(
    alloc: Global,
    net: &mut NetBuilder,
    line: Bit,
    pointer: Bus,
    count: u32,
) -> Result<Bits, Memory>
    requires line { IsBit net.old line }
    requires pointer { IsBus net.old pointer }
    requires fits { count ≤ 2 ^ pointer.width }
    ensures { IfOk result (λ bs. AddsLines net.old net.new count 3 bs (pointed line pointer)) }
{
    let mut all = Bits::new(alloc);
    for copy in 0..count {
        let bit = at_copy(net, line, pointer, copy)?;
        all.push(bit)?;
    }
    Ok(all)
}

// The line of the only copy; where there is none, one that is 1 in no cycle.
fn any_of_few(net: &mut NetBuilder, lines: &[Bit]) -> Result<Bit, Memory>
    requires lines { AreBits net.old lines.now }
    requires few { length lines.now < 2 }
    ensures { IfOk result (λ b.
        AddsLine net.old net.new (gates_of (length lines.now)) b (any_line (length lines.now) lines.now)) }
{
    let Some((line, _)) = lines.split_first() else {
        let none = never(net)?;
        return Ok(none);
    };
    Ok(*line)
}

// 1 where the line of one of the copies is: that of one of the first half, or of the second.
fn any_of(net: &mut NetBuilder, lines: &[Bit]) -> Result<Bit, Memory>
    requires { AreBits net.old lines.now }
    ensures { IfOk result (λ b.
        AddsLine net.old net.new (gates_of (length lines.now)) b (any_line (length lines.now) lines.now)) }
{
    if lines.len() < 2 {
        let one = any_of_few(net, lines)?;
        return Ok(one);
    }
    let (first, second) = lines.split_at(lines.len() / 2);
    let left = any_of(net, first)?;
    let right = any_of(net, second)?;
    let one = either(net, left, right)?;
    Ok(one)
}

/// Registers of one bit each as lines.
pub fn lines_of(alloc: Global, registers: &[Bus]) -> Result<Vec<Bit>, Memory>
    ensures { IfOk result (λ bs. bs.items ≡ map to_bit registers.now) }
{
    match registers
        .iter()
        .map(|b| Bit { node: b.node })
        .collect(alloc)
    {
        Ok(bits) => Ok(bits),
        Err(_) => Err(Memory),
    }
}

/// The lines as buses.
pub fn buses_of(alloc: Global, lines: &[Bit]) -> Result<Vec<Bus>, Memory>
    ensures { IfOk result (λ bs. bs.items ≡ map to_bus lines.now) }
{
    match lines
        .iter()
        .map(|b| Bus {
            node: b.node,
            width: 1,
        })
        .collect(alloc)
    {
        Ok(buses) => Ok(buses),
        Err(_) => Err(Memory),
    }
}

/// The lines as buses, and one bus more.
pub fn buses_with(alloc: Global, lines: &[Bit], last: Bus) -> Result<Buses, Memory>
    ensures { IfOk result (λ bs. bs ≡ map to_bus lines.now ++ last ∷ []) }
{
    let mut all = Buses::from_vec(buses_of(alloc, lines)?);
    all.push(last)?;
    Ok(all)
}

/// For each copy the gate of its two lines.
pub fn pairwise(
    alloc: Global,
    net: &mut NetBuilder,
    op: LineOp,
    lefts: &Bits,
    rights: &Bits,
) -> Result<Bits, Memory>
    requires lefts { AreBits net.old lefts.now }
    requires rights { AreBits net.old rights.now }
    requires count { length rights.now ≡ length lefts.now }
    ensures { IfOk result (λ bs.
        AddsLines net.old net.new (length lefts.now) 1 bs (pairs op lefts.now rights.now)) }
{
    let all = pairwise_of(alloc, net, op, lefts.as_slice(), rights.as_slice())?;
    Ok(all)
}

/// For each copy the gate of its line and one for all.
pub fn with_all(
    alloc: Global,
    net: &mut NetBuilder,
    op: LineOp,
    lefts: &Bits,
    right: Bit,
) -> Result<Bits, Memory>
    requires lefts { AreBits net.old lefts.now }
    requires right { IsBit net.old right }
    ensures { IfOk result (λ bs.
        AddsLines net.old net.new (length lefts.now) 1 bs (with_line op lefts.now right)) }
{
    let all = with_all_of(alloc, net, op, lefts.as_slice(), right)?;
    Ok(all)
}

/// A line that is 1 where that of one of the copies is, by gates in a tree.
pub fn any(net: &mut NetBuilder, lines: &Bits) -> Result<Bit, Memory>
    requires { AreBits net.old lines.now }
    ensures { IfOk result (λ b.
        AddsLine net.old net.new (gates_of (length lines.now)) b (any_line (length lines.now) lines.now)) }
{
    let one = any_of(net, lines.as_slice())?;
    Ok(one)
}
