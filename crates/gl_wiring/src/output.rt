//! The output of a plan's circuit: a stage, two lines that never fall, and the ports that show them.

ghost use Rattle.std.specs.Prelude.{◌≡◌, IfOk, OnOk, false, length};
ghost use Rattle.gl_net.specs.Net.{IsBit};
ghost use Rattle.gl_wire.specs.Costs.{CostsAtMost};
ghost use Rattle.gl_wire.specs.Faults.{AreLines, IsLine, line_of};
ghost use Rattle.gl_wire.specs.Wire.{AreBuses, IsWire, line_at, widths};
ghost use Rattle.gl_wiring.specs.Emitted.{CostsNothing, Extends, Puts};
ghost use Rattle.gl_wiring.specs.Naming.{naming_of};
ghost use Rattle.gl_wiring.specs.Output.{AreShown, IsFault, IsOutput, Shows, column_outputs, group_cost, output_cost, queue_cost, result_outputs};
ghost use Rattle.gl_wiring.specs.Root.{later_line};

use crate::names::{Face, fault_name, out_name};
use crate::notes::note_output;
use crate::parts::put_output;
use gl_bits::{Memory, Word};
use gl_net::{Bit, Bus, NetBuilder, Note};
use gl_schema::NameText;
use gl_wire::gates::either;
use gl_wire::stages::{later_bit, later_wire};
use gl_wire::{Emitted, Wire};
use std::alloc::Global;

// The word 0 of one bit.
fn low() -> Word
    ensures bits { result.bits ≡ 0 }
    ensures width { result.width ≡ 1 }
{
    Word::new(0, 1).unwrap()
}

// A line that is 1 from the cycle after the first one in which another is 1; reset clears it.
fn put_sticky(net: &mut NetBuilder, line: Bit) -> Result<Bit, Memory>
    requires { IsBit net.old line }
    ensures { IfOk result (IsFault net.old net.new group_cost (λ run. line_at run line)) }
{
    let register = net.register(1, Some(low()))?;
    let kept = register.bit();
    let next = either(net, kept, line)?;
    net.drive(register, next.bus())?;
    Ok(kept)
}

// The same behind a line one cycle later.
fn put_late(net: &mut NetBuilder, line: Bit) -> Result<Bit, Memory>
    requires { IsBit net.old line }
    ensures { IfOk result (IsFault net.old net.new queue_cost
        (λ run. later_line (line_at run line))) }
{
    let later = later_bit(net, line)?;
    let fault = put_sticky(net, later)?;
    Ok(fault)
}

// A line that is 0.
fn put_low(net: &mut NetBuilder) -> Result<Bit, Memory>
    ensures group { IfOk result (IsFault net.old net.new group_cost (λ run t. false)) }
    ensures queue { IfOk result (IsFault net.old net.new queue_cost
        (λ run. later_line (λ t. false))) }
{
    let bus = net.constant(low())?;
    Ok(bus.bit())
}

// The line of further groups, one cycle behind that of a circuit.
fn put_group(net: &mut NetBuilder, line: Option<Bit>) -> Result<Bit, Memory>
    requires { IsLine net.old line }
    ensures { IfOk result (IsFault net.old net.new group_cost (λ run. line_of run line)) }
{
    match line {
        Some(line) => {
            let fault = put_sticky(net, line)?;
            Ok(fault)
        }
        None => {
            let fault = put_low(net)?;
            Ok(fault)
        }
    }
}

// The line of queues, two cycles behind that of a circuit.
fn put_queue(net: &mut NetBuilder, line: Option<Bit>) -> Result<Bit, Memory>
    requires { IsLine net.old line }
    ensures { IfOk result (IsFault net.old net.new queue_cost
        (λ run. later_line (line_of run line))) }
{
    match line {
        Some(line) => {
            let fault = put_late(net, line)?;
            Ok(fault)
        }
        None => {
            let fault = put_low(net)?;
            Ok(fault)
        }
    }
}

// The output ports of columns under their names.
fn put_columns(
    alloc: Global,
    net: &mut NetBuilder,
    columns: &[Bus],
    face: &Face,
    names: &[NameText],
) -> Result<(), Memory>
    requires lengths { length names.now ≡ length columns.now }
    requires columns { AreBuses net.old columns.now }
    ensures extends { OnOk result (Extends net.old net.new) }
    ensures ports { OnOk result (Puts net.old net.new
        (column_outputs (naming_of face.now) (widths columns.now) names.now)) }
    ensures cost { OnOk result (CostsNothing net.old net.new) }
    ensures shown { OnOk result (AreShown (naming_of face.now) net.new names.now columns.now) }
{
    for (at, name) in names.iter().enumerate() {
        let name = out_name(alloc, face, name.as_slice())?;
        put_output(net, &name, columns[at])?;
    }
    Ok(())
}

// The two lines that stand beside a result.
#[derive(Clone, Copy)]
struct ResultLines {
    // 1 from the cycle on in which a further group is told of.
    group: Bit,
    // 1 from the cycle on in which a passed queue is told of.
    queue: Bit,
}

// The output ports of a wire and of two lines.
fn put_ports(
    alloc: Global,
    net: &mut NetBuilder,
    wire: &Wire,
    lines: ResultLines,
    face: &Face,
    names: &[NameText],
) -> Result<(), Memory>
    requires lengths { length names.now ≡ length (widths wire.now.columns) }
    requires wire { IsWire net.old wire.now }
    requires group { IsBit net.old lines.group }
    requires queue { IsBit net.old lines.queue }
    ensures extends { OnOk result (Extends net.old net.new) }
    ensures ports { OnOk result (Puts net.old net.new
        (result_outputs (naming_of face.now) (widths wire.now.columns) names.now)) }
    ensures cost { OnOk result (CostsNothing net.old net.new) }
    ensures shows { OnOk result (Shows (naming_of face.now) net.new names.now wire.now
        lines.group lines.queue) }
{
    let valid_name = out_name(alloc, face, b"valid")?;
    let end_name = out_name(alloc, face, b"eos")?;
    let group_name = fault_name(alloc, face, b"group")?;
    let queue_name = fault_name(alloc, face, b"queue")?;
    put_output(net, &valid_name, wire.valid.bus())?;
    let columns = wire.columns.as_slice();
    put_columns(alloc, net, columns, face, names)?;
    put_output(net, &end_name, wire.eos.bus())?;
    put_output(net, &group_name, lines.group.bus())?;
    put_output(net, &queue_name, lines.queue.bus())?;
    Ok(())
}

// The output of a circuit, whose nodes are not told yet as those of an output.
fn put_shown(
    alloc: Global,
    net: &mut NetBuilder,
    below: &Emitted,
    face: &Face,
    names: &[NameText],
) -> Result<(), Memory>
    requires lengths { length names.now ≡ length (widths below.now.wire.columns) }
    requires wire { IsWire net.old below.now.wire }
    requires lines { AreLines net.old below.now.faults }
    ensures extends { OnOk result (Extends net.old net.new) }
    ensures ports { OnOk result (Puts net.old net.new
        (result_outputs (naming_of face.now) (widths below.now.wire.columns) names.now)) }
    ensures cost { OnOk result (CostsAtMost net.old net.new
        (output_cost (widths below.now.wire.columns))) }
    ensures output { OnOk result (IsOutput (naming_of face.now) net.new names.now below.now) }
{
    let wire = later_wire(alloc, net, &below.wire)?;
    let group = put_group(net, below.faults.further)?;
    let queue = put_queue(net, below.faults.passed)?;
    let lines = ResultLines { group, queue };
    put_ports(alloc, net, &wire, lines, face, names)?;
    note_output(net, &wire, group, queue)?;
    Ok(())
}

/// The output of a circuit: its wire one cycle later on `out__valid`, the columns and `out__eos`, and its lines, which then never
/// fall, on `fault__group` and `fault__queue`, as the face calls these ports. Its query has this
/// place among those of the module.
pub(crate) fn put_result(
    alloc: Global,
    net: &mut NetBuilder,
    place: usize,
    below: &Emitted,
    face: &Face,
    names: &[NameText],
) -> Result<(), Memory>
    requires lengths { length names.now ≡ length (widths below.now.wire.columns) }
    requires wire { IsWire net.old below.now.wire }
    requires lines { AreLines net.old below.now.faults }
    ensures extends { OnOk result (Extends net.old net.new) }
    ensures ports { OnOk result (Puts net.old net.new
        (result_outputs (naming_of face.now) (widths below.now.wire.columns) names.now)) }
    ensures cost { OnOk result (CostsAtMost net.old net.new
        (output_cost (widths below.now.wire.columns))) }
    ensures output { OnOk result (IsOutput (naming_of face.now) net.new names.now below.now) }
{
    net.note(Note::Output(place))?;
    put_shown(alloc, net, below, face, names)?;
    net.note(Note::Leave)?;
    Ok(())
}
