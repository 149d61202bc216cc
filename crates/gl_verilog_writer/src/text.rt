//! The text of a whole netlist.

ghost use Rattle.std.specs.Prelude.{◌≡◌, ◌++◌, ◌<◌, ◌≤◌, ◌^◌, OnOk, OnErr, length};
ghost use Rattle.gl_net.specs.Finished.{IsNetlist};
ghost use Rattle.gl_net.specs.Net.{shape_in};
ghost use Rattle.gl_net.specs.PortValues.{bits_of};
ghost use Rattle.gl_verilog_writer.specs.Meaning.{IsTextOf};
ghost use Rattle.gl_verilog_writer.specs.Printed.{direction_text, port_text};
ghost use Rattle.gl_verilog_writer.specs.Texts.{next_port_text, next_ports_text, PutsHead, declarations_text, nodes_text, shown_text, shows_text, body_text, scheme_in};
ghost use Rattle.gl_verilog_writer.specs.Meaning.{HasHeader};
ghost use Rattle.gl_verilog_writer.specs.Size.{most_bytes, HasRoom};
ghost use Rattle.gl_verilog_writer.specs.Design.{leads, clock_port, text_by, module_text};

use crate::comments::{put_header, put_title};
use crate::label::Labels;
use crate::lines::{put_declaration, put_driver};
use crate::names::{Names, names_of, put_net};
use crate::nodes::width_of;
use crate::pieces::{put, put_range};
use gl_bits::Memory;
use gl_net::{Direction, Netlist, Node, Port};

// The bits of what a port leads to.
#[tactic(auto, unfolding(gl_net::specs::Net::shape_in))]
fn port_width(nodes: &[Node], port: &Port) -> u16
    ensures { result ≡ bits_of (shape_in nodes.now port.now.node) }
{
    match nodes.get(port.node) {
        Some(node) => width_of(node),
        None => 0,
    }
}

// The words in front of a port.
#[tactic(auto, unfolding(crate::specs::Printed::direction_text))]
fn put_direction(out: &mut Vec<u8>, direction: Direction) -> Result<(), Memory>
    ensures { OnOk result (out.new.items ≡ out.old.items ++ direction_text (leads direction)) }
{
    match direction {
        Direction::In => put(out, b"\n    input wire "),
        Direction::Out => put(out, b"\n    output wire "),
    }
}

// One port behind the clock.
fn put_port(out: &mut Vec<u8>, nodes: &[Node], port: &Port) -> Result<(), Memory>
    ensures { OnOk result (out.new.items ≡ out.old.items ++ next_port_text nodes.now port.now) }
{
    put(out, b",")?;
    put_direction(out, port.direction)?;
    put_range(out, port_width(nodes, port))?;
    put(out, port.name.as_slice())
}

#[tactic(auto, using(crate::proofs::Loops::loop_steps))]
fn put_ports(out: &mut Vec<u8>, nodes: &[Node], ports: &[Port]) -> Result<(), Memory>
    ensures { OnOk result (out.new.items ≡ out.old.items ++ next_ports_text nodes.now ports.now) }
{
    for port in ports {
        put_port(out, nodes, port)?;
    }
    Ok(())
}

// The clock's port.
#[tactic(auto, unfolding(crate::specs::Printed::direction_text))]
fn put_clock(out: &mut Vec<u8>) -> Result<(), Memory>
    ensures { OnOk result (out.new.items ≡ out.old.items ++ port_text clock_port) }
{
    put(out, b"\n    input wire ")?;
    put(out, b"clk")
}

// The head of a module whose ports are the clock and these.
#[tactic(auto, unfolding(crate::specs::Printed::head_text))]
fn put_head(out: &mut Vec<u8>, name: &[u8], nodes: &[Node], ports: &[Port]) -> Result<(), Memory>
    ensures { OnOk result (PutsHead out.old.items out.new.items name.now nodes.now ports.now) }
{
    put(out, b"module ")?;
    put(out, name)?;
    put(out, b"(")?;
    put_clock(out)?;
    put_ports(out, nodes, ports)?;
    put(out, b"\n);\n")
}

#[tactic(auto, using(crate::proofs::Loops::loop_steps))]
fn put_declarations(out: &mut Vec<u8>, by: &Names<'_>, nodes: &[Node]) -> Result<(), Memory>
    ensures { OnOk result (out.new.items ≡ out.old.items ++ declarations_text by.now nodes.now) }
{
    for (number, node) in nodes.iter().enumerate() {
        put_declaration(out, by, number, node)?;
    }
    Ok(())
}

#[tactic(auto, using(crate::proofs::Loops::loop_steps))]
fn put_drivers(
    out: &mut Vec<u8>,
    by: &Names<'_>,
    nodes: &[Node],
    ports: &[Port],
) -> Result<(), Memory>
    ensures { OnOk result (out.new.items ≡ out.old.items ++ nodes_text by.now nodes.now ports.now) }
{
    for (number, node) in nodes.iter().enumerate() {
        put_driver(out, by, ports, number, node)?;
    }
    Ok(())
}

// An output port shows its node.
#[tactic(auto, unfolding(crate::specs::Comments::heading_text))]
fn put_output(out: &mut Vec<u8>, by: &Names<'_>, port: &Port) -> Result<(), Memory>
    ensures { OnOk result (out.new.items ≡ out.old.items ++ shown_text by.now port.now) }
{
    match port.direction {
        Direction::In => Ok(()),
        Direction::Out => {
            put(out, b"    assign ")?;
            put(out, port.name.as_slice())?;
            put(out, b" = ")?;
            put_net(out, by, port.node)?;
            put(out, b";\n")
        }
    }
}

#[tactic(auto, using(crate::proofs::Loops::loop_steps))]
fn put_outputs(out: &mut Vec<u8>, by: &Names<'_>, ports: &[Port]) -> Result<(), Memory>
    ensures { OnOk result (out.new.items ≡ out.old.items ++ shows_text by.now ports.now) }
{
    for port in ports {
        put_output(out, by, port)?;
    }
    Ok(())
}

// The items: declarations, what drives nodes, and what the outputs show.
fn put_items(
    out: &mut Vec<u8>,
    by: &Names<'_>,
    nodes: &[Node],
    ports: &[Port],
) -> Result<(), Memory>
    ensures { OnOk result (out.new.items ≡ out.old.items ++ body_text by.now nodes.now ports.now) }
{
    put_title(out, b"declarations")?;
    put_declarations(out, by, nodes)?;
    put_title(out, b"what drives them")?;
    put_drivers(out, by, nodes, ports)?;
    put_title(out, b"outputs")?;
    put_outputs(out, by, ports)
}

// The module, its nets called so.
fn put_text(out: &mut Vec<u8>, by: &Names<'_>, net: &Netlist) -> Result<(), Memory>
    ensures { OnOk result (out.new.items ≡ out.old.items ++ text_by (scheme_in by.now) net.now) }
{
    let nodes = net.nodes();
    let ports = net.ports();
    put_head(out, net.name(), nodes, ports)?;
    put_items(out, by, nodes, ports)?;
    put(out, b"\nendmodule\n")
}

// So many nodes or ports are refused as want of memory: their numbers have at most ten digits.
const TOO_MANY: usize = 1 << 32;

// The text of a netlist.
#[tactic(auto, unfolding(crate::specs::Design::module_text))]
fn put_module(out: &mut Vec<u8>, labels: &Labels, net: &Netlist) -> Result<(), Memory>
    ensures text { OnOk result (out.new.items ≡ out.old.items ++ module_text labels.now net.now) }
    ensures few_nodes { length net.now.nodes < 2 ^ 64 }
    ensures few_ports { length net.now.ports < 2 ^ 64 }
    ensures low_nodes { OnOk result (length net.now.nodes < 2 ^ 32) }
    ensures low_ports { OnOk result (length net.now.ports < 2 ^ 32) }
    ensures netlist { IsNetlist net.now }
{
    let nodes = net.nodes();
    let ports = net.ports();
    if nodes.len() >= TOO_MANY || ports.len() >= TOO_MANY {
        return Err(Memory);
    }
    let mut scratch = Vec::new(*out.allocator());
    let names = names_of(&mut scratch, labels, net)?;
    put_header(out, labels)?;
    put_text(out, &names, net)
}

/// Appends the text of a netlist's module: the lines in front of it, the clock and the ports, one
/// declaration for each node, all before the first use, and what drives each: its assignment, or
/// the clocked block of a register or a memory.
///
/// Labels may be of any bytes, and any of them may be missing. What they call a node is shown where
/// no port's name begins with `p` and there are at most 65,536 nodes; headings are too. Lines in
/// front are cut at 65,536 bytes.
///
/// On want of memory nothing was appended. A netlist of 2^32 nodes or ports, or more, is refused
/// so.
#[tactic(auto, using(crate::proofs::Starts::starts_with_header))]
pub fn write_module(net: &Netlist, labels: &Labels, into: &mut Vec<u8>) -> Result<(), Memory>
    ensures text { OnOk result (into.new.items ≡ into.old.items ++ module_text labels.now net.now) }
    ensures meaning { IsTextOf net.now (module_text labels.now net.now) }
    ensures starts { HasHeader labels.now (module_text labels.now net.now) }
    ensures few { OnOk result ((length net.now.nodes < 2 ^ 32) × (length net.now.ports < 2 ^ 32)) }
    ensures length { OnOk result (length (module_text labels.now net.now) ≤ most_bytes net.now) }
    ensures room { HasRoom net.now }
    ensures nothing { OnErr result (into.new.items ≡ into.old.items) }
{
    let mut text = Vec::new(*into.allocator());
    put_module(&mut text, labels, net)?;
    match into.extend_from_slice(&text) {
        Ok(()) => Ok(()),
        Err(_) => Err(Memory),
    }
}
