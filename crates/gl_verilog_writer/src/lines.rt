//! What is written of a node, under the heading of its section.

ghost use Rattle.std.specs.Prelude.{◌≡◌, ◌++◌, OnOk};
ghost use Rattle.gl_verilog_writer.specs.Texts.{declared_text, does_text, node_text};

use crate::names::{Names, put_above};
use crate::nodes::{put_assignment, put_block, put_item};
use gl_bits::Memory;
use gl_net::{Node, Port};

/// The declaration of a node, under its heading.
pub(crate) fn put_declaration(
    out: &mut Vec<u8>,
    by: &Names<'_>,
    n: usize,
    node: &Node,
) -> Result<(), Memory>
    ensures { OnOk result (out.new.items ≡ out.old.items ++ declared_text by.now n node.now) }
{
    put_above(out, by, n)?;
    put_item(out, by, n, node)
}

// The assignment or the clocked block of a node.
fn put_drive(
    out: &mut Vec<u8>,
    by: &Names<'_>,
    ports: &[Port],
    n: usize,
    node: &Node,
) -> Result<(), Memory>
    ensures { OnOk result (out.new.items ≡ out.old.items ++ does_text by.now ports.now n node.now) }
{
    match *node {
        Node::Register(_, _, _) | Node::Memory(_, _, _) => put_block(out, by, n, node),
        Node::Input(_, _)
        | Node::Constant(_)
        | Node::Not(_)
        | Node::Binary(_, _, _)
        | Node::Choose(_, _, _)
        | Node::Join(_, _)
        | Node::Cut(_, _, _)
        | Node::MemoryRead(_, _) => put_assignment(out, by, ports, n, node),
    }
}

/// What drives a node, under its heading; nothing where nothing drives it.
pub(crate) fn put_driver(
    out: &mut Vec<u8>,
    by: &Names<'_>,
    ports: &[Port],
    n: usize,
    node: &Node,
) -> Result<(), Memory>
    ensures { OnOk result (out.new.items ≡ out.old.items ++ node_text by.now ports.now n node.now) }
{
    match *node {
        Node::Register(_, _, None) | Node::Memory(_, _, None) => Ok(()),
        Node::Register(_, None, Some(_))
        | Node::Register(_, Some(_), Some(_))
        | Node::Memory(_, _, Some(_))
        | Node::Input(_, _)
        | Node::Constant(_)
        | Node::Not(_)
        | Node::Binary(_, _, _)
        | Node::Choose(_, _, _)
        | Node::Join(_, _)
        | Node::Cut(_, _, _)
        | Node::MemoryRead(_, _) => {
            put_above(out, by, n)?;
            put_drive(out, by, ports, n, node)
        }
    }
}
