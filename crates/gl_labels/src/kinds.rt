//! What a net is called that nobody named.

use crate::owners::{Owners, is_named};
use crate::scopes::Scopes;
use crate::telling::set_name;
use gl_bits::{Memory, Word};
use gl_explain::lines::{put, put_number};
use gl_net::{BinaryOp, Netlist, Node, Port};
use gl_verilog_writer::Label;
use std::alloc::Global;

// A constant from here on is not written out: it has more than ten digits.
const LONG: u128 = 10_000_000_000;

// The word of an operation.
fn operation_word(op: BinaryOp) -> &'static [u8] {
    match op {
        BinaryOp::Add => b"add",
        BinaryOp::Sub => b"sub",
        BinaryOp::Mul => b"mul",
        BinaryOp::And => b"and",
        BinaryOp::Xor => b"xor",
        BinaryOp::Or => b"or",
        BinaryOp::Eq => b"eq",
        BinaryOp::Ne => b"ne",
        BinaryOp::Lt => b"lt",
        BinaryOp::Le => b"le",
    }
}

// The word of a node that is no constant.
fn kind_word(node: &Node) -> &'static [u8] {
    match node {
        Node::Input(_, _) => b"in",
        Node::Constant(_) => b"k",
        Node::Not(_) => b"not",
        Node::Binary(op, _, _) => operation_word(*op),
        Node::Choose(_, _, _) => b"mux",
        Node::Join(_, _) => b"join",
        Node::Cut(_, _, _) => b"cut",
        Node::Register(_, _, _) => b"reg",
        Node::Memory(_, _, _) => b"mem",
        Node::MemoryRead(_, _) => b"read",
    }
}

// Appends `k` and the number of a constant, where it is not long.
fn put_constant(text: &mut Vec<u8>, word: Word) -> Result<(), Memory> {
    if word.bits() >= LONG {
        return put(text, b"k");
    }
    put_number(text, b"k", word.bits())
}

// Appends the name of the port at a place. The writer puts a `p` in front.
fn put_port(text: &mut Vec<u8>, ports: &[Port], place: usize) -> Result<(), Memory> {
    put(text, b"ort_")?;
    match ports.get(place) {
        Some(port) => put(text, port.name.as_slice()),
        None => Ok(()),
    }
}

// Appends what a node is, behind a name or a path.
fn put_kind(text: &mut Vec<u8>, node: &Node) -> Result<(), Memory> {
    put(text, b"_")?;
    match node {
        Node::Constant(word) => put_constant(text, *word),
        _ => put(text, kind_word(node)),
    }
}

// What the name of a node begins with that nobody named: the name of its owner, or the path of its scope.
fn front_of<'a>(
    scopes: &'a Scopes,
    labels: &'a [Label],
    node: usize,
    owner: Option<usize>,
) -> &'a [u8] {
    let Some(owner) = owner else {
        return scopes.path(scopes.of_node(node));
    };
    match labels.get(owner) {
        Some(label) => label.name.as_slice(),
        None => b"",
    }
}

// The name of a node that nobody named: its kind behind what it is made for; an input of no scope has its port's.
fn plain_name(alloc: Global, front: &[u8], ports: &[Port], node: &Node) -> Result<Vec<u8>, Memory> {
    let mut name = Vec::from_slice(alloc, front)?;
    match node {
        Node::Input(place, _) if front.is_empty() => put_port(&mut name, ports, *place)?,
        _ => put_kind(&mut name, node)?,
    }
    Ok(name)
}

/// Names each node that has no name by its kind, behind the name of what it is made for where that is known.
pub(crate) fn name_rest(
    alloc: Global,
    net: &Netlist,
    scopes: &Scopes,
    labels: &mut [Label],
) -> Result<(), Memory> {
    let owners = Owners::new(alloc, net.nodes(), scopes, labels)?;
    for (number, node) in net.nodes().iter().enumerate() {
        if !is_named(labels, number) {
            let front = front_of(scopes, labels, number, owners.of(number));
            let name = plain_name(alloc, front, net.ports(), node)?;
            set_name(labels, number, name);
        }
    }
    Ok(())
}
