//! A run of a netlist, told cycle by cycle from its nodes. It begins with a 1 in all registers and words.

use gl_bits::Memory;
use gl_net::{BinaryOp, Bus, Node};
use std::alloc::Global;

// A word that a memory took.
#[derive(Clone, Copy)]
struct Taken {
    store: usize,
    address: u128,
    value: u128,
}

/// What the nodes of a netlist carry in the cycle at hand.
#[derive(Drop)]
pub struct Trace {
    values: Vec<u128>,
    taken: Vec<Taken>,
}

// What a node carries; 1 where none is known.
fn value_at(values: &[u128], node: usize) -> u128 {
    match values.get(node) {
        Some(value) => *value,
        None => 1,
    }
}

// So many bits.
fn mask(width: u8) -> u128 {
    if width < 128 {
        (1u128 << width) - 1
    } else {
        u128::MAX
    }
}

// The bits from a place on.
fn above(value: u128, low: u8) -> u128 {
    if low < 128 { value >> low } else { 0 }
}

// A word above another one of `width` bits.
fn joined(high: u128, low: u128, width: u8) -> u128 {
    high.checked_shl(u32::from(width)).unwrap_or(0) | low
}

// The word of a memory at an address.
fn word_at(taken: &[Taken], store: usize, address: u128) -> u128 {
    let mut word = 1;
    for last in taken {
        if last.store == store && last.address == address {
            word = last.value;
        }
    }
    word
}

// What an operation gives.
fn binary(op: BinaryOp, width: u8, x: u128, y: u128) -> u128 {
    match op {
        BinaryOp::Add => x.wrapping_add(y) & mask(width),
        BinaryOp::Sub => x.wrapping_sub(y) & mask(width),
        BinaryOp::Mul => x.wrapping_mul(y) & mask(width),
        BinaryOp::And => x & y,
        BinaryOp::Xor => x ^ y,
        BinaryOp::Or => x | y,
        BinaryOp::Eq => (x == y) as u128,
        BinaryOp::Ne => (x != y) as u128,
        BinaryOp::Lt => (x < y) as u128,
        BinaryOp::Le => (x <= y) as u128,
    }
}

// What a register takes: its reset value where the last cycle was the reset, else what it was to take then.
fn next_of(reset: Option<u128>, next: Option<Bus>, before: &[u128], was_reset: bool) -> u128 {
    if was_reset {
        if let Some(value) = reset {
            return value;
        }
    }
    match next {
        Some(bus) => value_at(before, bus.node),
        None => 1,
    }
}

impl Trace {
    /// A run before its first cycle.
    pub fn new(alloc: Global) -> Trace {
        Trace {
            values: Vec::new(alloc),
            taken: Vec::new(alloc),
        }
    }

    /// What a node carries in the cycle at hand.
    pub fn value(&self, node: usize) -> u128 {
        value_at(self.values.as_slice(), node)
    }

    // What a node carries in the cycle of these inputs, in which those before it carry these values.
    fn value_of(&self, node: &Node, inputs: &[u128], now: &[u128], was_reset: bool) -> u128 {
        match node {
            Node::Input(port, _) => value_at(inputs, *port),
            Node::Constant(word) => word.bits(),
            Node::Not(x) => value_at(now, x.node) ^ mask(x.width),
            Node::Binary(op, x, y) => {
                binary(*op, x.width, value_at(now, x.node), value_at(now, y.node))
            }
            Node::Choose(test, x, y) => {
                let chosen = if value_at(now, test.node) == 1 { x } else { y };
                value_at(now, chosen.node)
            }
            Node::Join(high, low) => joined(
                value_at(now, high.node),
                value_at(now, low.node),
                low.width,
            ),
            Node::Cut(x, high, low) => {
                above(value_at(now, x.node), *low)
                    & mask(high.saturating_sub(*low).saturating_add(1))
            }
            Node::Register(_, reset, next) => {
                next_of(*reset, *next, self.values.as_slice(), was_reset)
            }
            Node::Memory(_, _, _) => 0,
            Node::MemoryRead(store, x) => {
                word_at(self.taken.as_slice(), store.node, value_at(now, x.node))
            }
        }
    }

    // What the memories take at the end of the cycle at hand.
    fn take(&mut self, nodes: &[Node]) -> Result<(), Memory> {
        for store in 0..nodes.len() {
            if let Node::Memory(_, _, Some(drive)) = nodes[store] {
                if self.value(drive.write.node) == 1 {
                    let address = self.value(drive.address.node);
                    let value = self.value(drive.value.node);
                    if self
                        .taken
                        .push(Taken {
                            store,
                            address,
                            value,
                        })
                        .is_err()
                    {
                        return Err(Memory);
                    }
                }
            }
        }
        Ok(())
    }

    /// One cycle more, with these values on the ports; whether the last one was the reset.
    pub fn step(
        &mut self,
        alloc: Global,
        nodes: &[Node],
        inputs: &[u128],
        was_reset: bool,
    ) -> Result<(), Memory> {
        self.take(nodes)?;
        let mut now = Vec::new(alloc);
        for node in nodes {
            let value = self.value_of(node, inputs, now.as_slice(), was_reset);
            if now.push(value).is_err() {
                return Err(Memory);
            }
        }
        self.values = now;
        Ok(())
    }
}
