//! Circuits made of many calls, and netlists that are finished.

ghost use Rattle.std.specs.Prelude.{◌≡◌, ℕ, suc, ◌+◌, IfOk, OnOk};
ghost use Rattle.gl_bits.specs.Words.{sum_of, choose_of};
ghost use Rattle.gl_net.specs.Net.{Run, IsRun, IsBus, IsBit, Keeps, size_of};

use gl_bits::{Memory, Word};
use gl_net::{BinaryOp, Bit, Bus, Direction, NetBuilder, Netlist, Port};
use std::alloc::{AllocError, Global};

// A count of the cycles in which `enable` is 1, since the last one in which `clear` was 1.
fn count_cycles(
    net: &mut NetBuilder,
    enable: Bit,
    clear: Bit,
    zero: Word,
    one: Word,
) -> Result<Bus, Memory>
    requires enable { IsBit net.old enable }
    requires clear { IsBit net.old clear }
    requires zero { zero.bits ≡ 0 }
    requires zero_width { zero.width ≡ 8 }
    requires one { one.bits ≡ 1 }
    requires one_width { one.width ≡ 8 }
    ensures keeps { OnOk result (Keeps net.old net.new) }
    ensures bus { IfOk result (λ b. IsBus net.new b) }
    ensures width { IfOk result (λ b. b.width ≡ 8) }
    ensures size { OnOk result (size_of net.new ≡ size_of net.old + 6) }
    ensures start { IfOk result (λ b. (run : Run) → IsRun net.new run → run.at 1 b.node ≡ 0) }
    ensures next { IfOk result (λ b. (run : Run) → IsRun net.new run → (t : ℕ) →
        run.at (suc (suc t)) b.node
        ≡ choose_of (run.at (suc t) clear.node) 0 (choose_of (run.at (suc t) enable.node) (sum_of 8 (run.at (suc t) b.node) 1) (run.at (suc t) b.node))) }
{
    let count = net.register(8, Some(zero))?;
    let step = net.constant(one)?;
    let more = net.binary(BinaryOp::Add, count, step)?;
    let kept = net.choose(enable, more, count)?;
    let none = net.constant(zero)?;
    let next = net.choose(clear, none, kept)?;
    net.drive(count, next)?;
    Ok(count)
}

// The word of a memory at the address, which takes the value there in each cycle in which `write`
// is 1.
fn hold_word(net: &mut NetBuilder, write: Bit, address: Bus, value: Bus) -> Result<Bus, Memory>
    requires write { IsBit net.old write }
    requires address { IsBus net.old address }
    requires bits { address.width ≡ 4 }
    requires value { IsBus net.old value }
    ensures keeps { OnOk result (Keeps net.old net.new) }
    ensures bus { IfOk result (λ b. IsBus net.new b) }
    ensures width { IfOk result (λ b. b.width ≡ value.width) }
    ensures size { OnOk result (size_of net.new ≡ size_of net.old + 2) }
    ensures law { IfOk result (λ b. (run : Run) → IsRun net.new run → (t : ℕ) → run.at t write.node
        ≡ 1 → run.at t address.node ≡ run.at (suc t) address.node
        → run.at (suc t) b.node ≡ run.at t value.node) }
{
    let store = net.memory(4, value.width)?;
    let word = net.read(store, address)?;
    net.drive_memory(store, write, address, value)?;
    Ok(word)
}

// The larger of the bus and its lower half.
fn pick_larger(net: &mut NetBuilder, bus: Bus, zero: Word) -> Result<Bus, Memory>
    requires bus { IsBus net.old bus }
    requires width { bus.width ≡ 8 }
    requires zero { zero.width ≡ 4 }
    ensures keeps { OnOk result (Keeps net.old net.new) }
    ensures bus { IfOk result (λ b. IsBus net.new b) }
    ensures width { IfOk result (λ b. b.width ≡ 8) }
{
    let high = net.constant(zero)?;
    let cut = net.cut(bus, 3, 0)?;
    let low = net.join(high, cut)?;
    let below = net.binary(BinaryOp::Lt, low, bus)?;
    let not_below = net.not(below)?;
    // Named, since a goal speaks of the value.
    let larger = net.choose(not_below.bit(), low, bus)?;
    Ok(larger)
}

// One input, one register without a reset value, and one output.
fn delay_netlist(alloc: Global) -> Result<Netlist, Memory> {
    let mut net = NetBuilder::new(alloc);
    let data = net.input(b"data", 8)?;
    let later = net.register(8, None)?;
    net.drive(later, data)?;
    net.output(b"later", later)?;
    net.module(b"delay")?;
    if net.needs_reset() {
        return Err(Memory);
    }
    Ok(net.finish())
}

// A node of every kind: a choice, a count that is reset, and a memory.
fn mixed_netlist(alloc: Global) -> Result<Netlist, Memory> {
    let (Some(none), Some(zero), Some(one)) = (Word::new(0, 4), Word::new(0, 8), Word::new(1, 8))
    else {
        return Err(Memory);
    };
    let mut net = NetBuilder::new(alloc);
    let reset = net.input(b"rst", 1)?;
    let data = net.input(b"data", 8)?;
    let larger = pick_larger(&mut net, data, none)?;
    let start = reset.bit();
    let count = count_cycles(&mut net, start, start, zero, one)?;
    let address = net.cut(count, 3, 0)?;
    let word = hold_word(&mut net, start, address, larger)?;
    net.output(b"count", count)?;
    net.output(b"word", word)?;
    net.module(b"mixed")?;
    Ok(net.finish())
}

// Adds a port behind a mark: its direction, its name and its node.
fn push_port(out: &mut String, port: &Port) -> Result<(), AllocError> {
    let direction = match port.direction {
        Direction::In => "in",
        Direction::Out => "out",
    };
    let name = str::from_utf8(port.name.as_slice()).unwrap_or("?");
    write!(out, ", {direction} {name} at {}", port.node)
}

// The name of a netlist, how many nodes it has, and its ports.
fn told(alloc: Global, netlist: &Netlist) -> Result<String, AllocError> {
    let name = str::from_utf8(netlist.name()).unwrap_or("?");
    let mut out = format!(in alloc; "{name}: {} nodes", netlist.nodes().len())?;
    for port in netlist.ports() {
        push_port(&mut out, port)?;
    }
    Ok(out)
}

/// The delay, and its nodes.
pub(crate) fn delayed(alloc: Global) -> Result<String, Memory> {
    let netlist = delay_netlist(alloc)?;
    let told = told(alloc, &netlist)?;
    Ok(format!(in alloc; "{told}: {:?}", netlist.nodes())?)
}

/// The netlist with a node of every kind.
pub(crate) fn mixed(alloc: Global) -> Result<String, Memory> {
    let netlist = mixed_netlist(alloc)?;
    Ok(told(alloc, &netlist)?)
}
