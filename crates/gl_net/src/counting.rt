//! Counting bits.

ghost use Rattle.std.specs.Prelude.{◌≡◌, ◌≤◌, ◌*◌, sum_by};
ghost use Rattle.gl_net.specs.Net.{memory_bits as memory_bits_of_node, register_bits as register_bits_of_node, memory_bits_of, register_bits_of};
ghost use Rattle.gl_net.specs.Small.{AreAddressed, IsAddressed};

use crate::{Netlist, Node};

/// The bits that registers and memories hold.
#[derive(Clone, Copy, PartialEq, Eq, Debug)]
pub struct Cost {
    /// Of all registers.
    pub registers: u128,
    /// Of all words of all memories.
    pub memories: u128,
}

// The bits that a register holds, and 0 for any other node.
fn register_bits(node: &Node) -> u128
    ensures value { result ≡ register_bits_of_node node.now }
    ensures small { result ≤ 255 }
{
    match node {
        Node::Register(width, _, _) => u128::from(*width),
        _ => 0,
    }
}

// The bits that a memory holds, and 0 for any other node.
fn memory_bits(node: &Node) -> u128
    requires { IsAddressed node.now }
    ensures value { result ≡ memory_bits_of_node node.now }
    ensures small { result ≤ 1099511627776 }
{
    match node {
        Node::Memory(bits, width, _) => (1 << *bits) * u128::from(*width),
        _ => 0,
    }
}

// The bits of all registers.
fn all_registers(nodes: &[Node]) -> u128
    ensures { result ≡ sum_by register_bits_of_node nodes.now }
{
    let mut total = 0;
    for node in nodes {
        total += register_bits(node);
    }
    total
}

// The bits of all memories.
fn all_memories(nodes: &[Node]) -> u128
    requires { AreAddressed nodes.now }
    ensures { result ≡ sum_by memory_bits_of_node nodes.now }
{
    let mut total = 0;
    for node in nodes {
        total += memory_bits(node);
    }
    total
}

/// What a netlist costs, in bits.
pub fn cost_of(net: &Netlist) -> Cost
    ensures registers { result.registers ≡ register_bits_of net.now }
    ensures memories { result.memories ≡ memory_bits_of net.now }
{
    let nodes = net.nodes();
    Cost {
        registers: all_registers(nodes),
        memories: all_memories(nodes),
    }
}
