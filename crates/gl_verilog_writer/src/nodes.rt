//! The text of one node: its declaration, its assignment, its clocked block.

ghost use Rattle.std.specs.Prelude.{◌≡◌, ◌++◌, ◌+◌, ◌-◌, OnOk, codes};
ghost use Rattle.gl_verilog_writer.specs.Printed.{infix_text, always_text};
ghost use Rattle.gl_verilog_writer.specs.Design.{node_width, port_name, infix_of, last_word};
ghost use Rattle.gl_verilog_writer.specs.Texts.{name_text, net_text, pair_text, binary_text, cut_text, declares_text, value_text, set_text, update_text, reset_text, write_text, block_text};

use crate::names::{Names, put_net};
use crate::pieces::{put, put_literal, put_number, put_range};
use gl_bits::Memory;
use gl_net::{BinaryOp, Bus, MemoryDrive, Node, Port};

// The width of two words side by side.
fn width_of_both(high: u8, low: u8) -> u16
    ensures { result ≡ high + low }
{
    u16::from(high) + u16::from(low)
}

// The width of the bits from `low` to `high`.
fn width_between(high: u8, low: u8) -> u16
    ensures { result ≡ high + 1 - low }
{
    (u16::from(high) + 1).saturating_sub(u16::from(low))
}

/// The bits that a node carries, or those of a memory's words.
pub(crate) fn width_of(node: &Node) -> u16
    ensures { result ≡ node_width node.now }
{
    match *node {
        Node::Input(_, width) => u16::from(width),
        Node::Constant(word) => u16::from(word.width()),
        Node::Not(arg) => u16::from(arg.width),
        Node::Binary(op, left, _) => u16::from(op.width(left.width)),
        Node::Choose(_, yes, _) => u16::from(yes.width),
        Node::Join(high, low) => width_of_both(high.width, low.width),
        Node::Cut(_, high, low) => width_between(high, low),
        Node::Register(width, _, _) => u16::from(width),
        Node::Memory(_, width, _) => u16::from(width),
        Node::MemoryRead(store, _) => u16::from(store.width),
    }
}

// A word, a range and the name of a node's net.
fn put_vector(
    out: &mut Vec<u8>,
    word: &[u8],
    by: &Names<'_>,
    at: usize,
    width: u16,
) -> Result<(), Memory>
    ensures { OnOk result (out.new.items ≡ out.old.items ++ net_text word.now by.now at width) }
{
    put(out, word)?;
    put_range(out, width)?;
    put_net(out, by, at)
}

// The at of a memory's last word.
#[tactic(auto, unfolding(crate::specs::Design::last_word))]
fn last_word(address_bits: u8) -> u128
    ensures { result ≡ last_word address_bits }
{
    if address_bits <= 32 {
        (1u128 << address_bits) - 1
    } else {
        0
    }
}

/// The declaration of a node's net, register or memory.
pub(crate) fn put_item(
    out: &mut Vec<u8>,
    by: &Names<'_>,
    at: usize,
    node: &Node,
) -> Result<(), Memory>
    ensures { OnOk result (out.new.items ≡ out.old.items ++ declares_text by.now at node.now) }
{
    let width = width_of(node);
    match *node {
        Node::Register(_, _, _) => {
            put_vector(out, b"    reg ", by, at, width)?;
            put(out, b";\n")
        }
        Node::Memory(address_bits, _, _) => {
            put_vector(out, b"    reg ", by, at, width)?;
            put(out, b" [0:")?;
            put_number(out, last_word(address_bits))?;
            put(out, b"];\n")
        }
        Node::Input(_, _)
        | Node::Constant(_)
        | Node::Not(_)
        | Node::Binary(_, _, _)
        | Node::Choose(_, _, _)
        | Node::Join(_, _)
        | Node::Cut(_, _, _)
        | Node::MemoryRead(_, _) => {
            put_vector(out, b"    wire ", by, at, width)?;
            put(out, b";\n")
        }
    }
}

fn sign_of(op: BinaryOp) -> &'static [u8]
    ensures { result.now ≡ infix_text (infix_of op) }
{
    match op {
        BinaryOp::Add => b" + ",
        BinaryOp::Sub => b" - ",
        BinaryOp::Mul => b" * ",
        BinaryOp::And => b" & ",
        BinaryOp::Xor => b" ^ ",
        BinaryOp::Or => b" | ",
        BinaryOp::Eq => b" == ",
        BinaryOp::Ne => b" != ",
        BinaryOp::Lt => b" < ",
        BinaryOp::Le => b" <= ",
    }
}

// Two nets with a sign between them.
fn put_pair(
    out: &mut Vec<u8>,
    by: &Names<'_>,
    left: usize,
    sign: &[u8],
    right: usize,
) -> Result<(), Memory>
    ensures { OnOk result (out.new.items ≡ out.old.items ++ pair_text by.now left sign.now right) }
{
    put_net(out, by, left)?;
    put(out, sign)?;
    put_net(out, by, right)
}

// The bits from `low` to `high` of a net; of one bit it is all.
fn put_cut(out: &mut Vec<u8>, by: &Names<'_>, arg: Bus, high: u8, low: u8) -> Result<(), Memory>
    ensures { OnOk result (out.new.items ≡ out.old.items ++ cut_text by.now arg high low) }
{
    put_net(out, by, arg.node)?;
    if arg.width == 1 {
        return Ok(());
    }
    put(out, b"[")?;
    put_number(out, u128::from(high))?;
    put(out, b":")?;
    put_number(out, u128::from(low))?;
    put(out, b"]")
}

// The name of the port at a place.
fn put_port_name(out: &mut Vec<u8>, ports: &[Port], place: usize) -> Result<(), Memory>
    ensures { OnOk result (out.new.items ≡ out.old.items ++ port_name ports.now place) }
{
    match ports.get(place) {
        Some(port) => put(out, port.name.as_slice()),
        None => Ok(()),
    }
}

// Two values under an operation.
fn put_binary(
    out: &mut Vec<u8>,
    by: &Names<'_>,
    op: BinaryOp,
    left: Bus,
    right: Bus,
) -> Result<(), Memory>
    ensures { OnOk result (out.new.items ≡ out.old.items ++ binary_text by.now op left right) }
{
    match op {
        BinaryOp::Lt if left.width == 1 => {
            put(out, b"~")?;
            put_pair(out, by, left.node, b" & ", right.node)
        }
        BinaryOp::Le if left.width == 1 => {
            put(out, b"~")?;
            put_pair(out, by, left.node, b" | ", right.node)
        }
        _ => put_pair(out, by, left.node, sign_of(op), right.node),
    }
}

// The right side of a node's assignment.
fn put_value(out: &mut Vec<u8>, by: &Names<'_>, ports: &[Port], node: &Node) -> Result<(), Memory>
    ensures { OnOk result (out.new.items ≡ out.old.items ++ value_text by.now ports.now node.now) }
{
    match *node {
        Node::Input(place, _) => put_port_name(out, ports, place),
        Node::Constant(word) => put_literal(out, word.bits(), word.width()),
        Node::Not(arg) => {
            put(out, b"~")?;
            put_net(out, by, arg.node)
        }
        Node::Binary(op, left, right) => put_binary(out, by, op, left, right),
        Node::Choose(test, yes, no) => {
            put_net(out, by, test.node)?;
            put(out, b" ? ")?;
            put_pair(out, by, yes.node, b" : ", no.node)
        }
        Node::Join(high, low) => {
            put(out, b"{")?;
            put_pair(out, by, high.node, b", ", low.node)?;
            put(out, b"}")
        }
        Node::Cut(arg, high, low) => put_cut(out, by, arg, high, low),
        Node::MemoryRead(store, address) => {
            put_pair(out, by, store.node, b"[", address.node)?;
            put(out, b"]")
        }
        Node::Register(_, _, _) | Node::Memory(_, _, _) => Ok(()),
    }
}

/// The assignment of a node's net, where it is one.
pub(crate) fn put_assignment(
    out: &mut Vec<u8>,
    by: &Names<'_>,
    ports: &[Port],
    at: usize,
    node: &Node,
) -> Result<(), Memory>
    ensures { OnOk result (out.new.items ≡ out.old.items ++ set_text by.now ports.now at node.now) }
{
    match *node {
        Node::Register(_, _, _) | Node::Memory(_, _, _) => Ok(()),
        Node::Input(_, _)
        | Node::Constant(_)
        | Node::Not(_)
        | Node::Binary(_, _, _)
        | Node::Choose(_, _, _)
        | Node::Join(_, _)
        | Node::Cut(_, _, _)
        | Node::MemoryRead(_, _) => {
            put(out, b"    assign ")?;
            put_net(out, by, at)?;
            put(out, b" = ")?;
            put_value(out, by, ports, node)?;
            put(out, b";\n")
        }
    }
}

// `N <= M;`
fn put_update(out: &mut Vec<u8>, by: &Names<'_>, at: usize, next: usize) -> Result<(), Memory>
    ensures { OnOk result (out.new.items ≡ out.old.items ++ update_text by.now at next) }
{
    put_pair(out, by, at, b" <= ", next)?;
    put(out, b";\n")
}

// `N <= VALUE;`
fn put_reset(
    out: &mut Vec<u8>,
    by: &Names<'_>,
    at: usize,
    value: u128,
    width: u8,
) -> Result<(), Memory>
    ensures { OnOk result (out.new.items ≡ out.old.items ++ reset_text by.now at value width) }
{
    put_net(out, by, at)?;
    put(out, b" <= ")?;
    put_literal(out, value, width)?;
    put(out, b";\n")
}

// `if (W) M[A] <= V;`
fn put_write(out: &mut Vec<u8>, by: &Names<'_>, at: usize, drive: MemoryDrive) -> Result<(), Memory>
    ensures { OnOk result (out.new.items ≡ out.old.items ++ write_text by.now at drive) }
{
    put(out, b"if (")?;
    put_net(out, by, drive.write.node)?;
    put(out, b") ")?;
    put_pair(out, by, at, b"[", drive.address.node)?;
    put(out, b"] <= ")?;
    put_last(out, by, drive.value.node)
}

// A net and the end of its statement.
fn put_last(out: &mut Vec<u8>, by: &Names<'_>, node: usize) -> Result<(), Memory>
    ensures { OnOk result (out.new.items ≡ out.old.items ++ name_text by.now node ++ codes ";\n") }
{
    put_net(out, by, node)?;
    put(out, b";\n")
}

#[tactic(auto, unfolding(crate::specs::Printed::always_text))]
fn put_always(out: &mut Vec<u8>) -> Result<(), Memory>
    ensures { OnOk result (out.new.items ≡ out.old.items ++ always_text ++ codes "clk)\n        ") }
{
    put(out, b"    always @(posedge ")?;
    put(out, b"clk)\n        ")
}

/// The clocked block of a register or of a memory.
pub(crate) fn put_block(
    out: &mut Vec<u8>,
    by: &Names<'_>,
    at: usize,
    node: &Node,
) -> Result<(), Memory>
    ensures { OnOk result (out.new.items ≡ out.old.items ++ block_text by.now at node.now) }
{
    match *node {
        Node::Register(_, None, Some(next)) => {
            put_always(out)?;
            put_update(out, by, at, next.node)
        }
        Node::Register(width, Some(value), Some(next)) => {
            put_always(out)?;
            put(out, b"if (rst) ")?;
            put_reset(out, by, at, value, width)?;
            put(out, b"        else ")?;
            put_update(out, by, at, next.node)
        }
        Node::Memory(_, _, Some(drive)) => {
            put_always(out)?;
            put_write(out, by, at, drive)
        }
        Node::Register(_, _, None)
        | Node::Memory(_, _, None)
        | Node::Input(_, _)
        | Node::Constant(_)
        | Node::Not(_)
        | Node::Binary(_, _, _)
        | Node::Choose(_, _, _)
        | Node::Join(_, _)
        | Node::Cut(_, _, _)
        | Node::MemoryRead(_, _) => Ok(()),
    }
}
