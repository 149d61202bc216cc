//! The nodes of a netlist, the typed numbers that name them, and the ports.

ghost use Rattle.std.specs.Prelude.{◌≡◌};
ghost use Rattle.gl_net.specs.Net.{binary_width};

use gl_bits::{Listed, Word};

/// An operation on two words of one width.
#[derive(Clone, Copy, PartialEq, Eq, Debug)]
pub enum BinaryOp {
    /// The sum, modulo two to the power of the width.
    Add,
    /// The difference, modulo two to the power of the width.
    Sub,
    /// The product, modulo two to the power of the width.
    Mul,
    /// Each bit that is 1 in both words.
    And,
    /// Each bit that is 1 in one of the words alone.
    Xor,
    /// Each bit that is 1 in at least one of the words.
    Or,
    /// One bit: whether the words are equal.
    Eq,
    /// One bit: whether the words differ.
    Ne,
    /// One bit: whether the first word is below the second, both without a sign.
    Lt,
    /// One bit: whether the first word is at most the second, both without a sign.
    Le,
}

impl BinaryOp {
    /// The width of the result for operands of a width: theirs, and 1 for a comparison.
    pub fn width(self, width: u8) -> u8
        ensures { result ≡ binary_width self width }
    {
        match self {
            BinaryOp::Add
            | BinaryOp::Sub
            | BinaryOp::Mul
            | BinaryOp::And
            | BinaryOp::Xor
            | BinaryOp::Or => width,
            BinaryOp::Eq | BinaryOp::Ne | BinaryOp::Lt | BinaryOp::Le => 1,
        }
    }
}

/// The number of a node that carries a value, with its width in bits.
#[derive(Clone, Copy, PartialEq, Eq, Debug)]
pub struct Bus {
    /// The number of the node.
    pub node: usize,
    /// How many bits it carries, from 1 to 128.
    pub width: u8,
}

impl Bus {
    /// The same node, as one of one bit.
    pub fn bit(self) -> Bit
        requires { self.width ≡ 1 }
        ensures { result.node ≡ self.node }
    {
        Bit { node: self.node }
    }
}

/// The number of a node that carries one bit.
#[derive(Clone, Copy, PartialEq, Eq, Debug)]
pub struct Bit {
    /// The number of the node.
    pub node: usize,
}

impl Bit {
    /// The same node, as a bus of width 1.
    pub fn bus(self) -> Bus
        ensures node { result.node ≡ self.node }
        ensures width { result.width ≡ 1 }
    {
        Bus {
            node: self.node,
            width: 1,
        }
    }
}

/// The number of a memory's node, with the bits of its addresses and of its words.
#[derive(Clone, Copy, PartialEq, Eq, Debug)]
pub struct Store {
    /// The number of the memory's node.
    pub node: usize,
    /// How many bits an address has.
    pub address_bits: u8,
    /// How many bits a word has.
    pub width: u8,
}

/// A list of buses.
pub type Buses = Listed<Bus>;

/// What a memory takes: `value` at `address`, at the edge of each cycle in which `write` is 1.
#[derive(Clone, Copy, PartialEq, Eq, Debug)]
pub struct MemoryDrive {
    /// Whether a word is written in a cycle.
    pub write: Bit,
    /// The address of the word that is written.
    pub address: Bus,
    /// What is written.
    pub value: Bus,
}

/// A node of a netlist. Its number is its place in the list of nodes.
#[derive(Clone, Copy, PartialEq, Eq, Debug)]
pub enum Node {
    /// The value of the input port at this place among the ports, and its width.
    Input(usize, u8),
    /// One word in every cycle.
    Constant(Word),
    /// Every bit inverted.
    Not(Bus),
    /// An operation on two words of one width.
    Binary(BinaryOp, Bus, Bus),
    /// The first bus where the bit is 1, else the second.
    Choose(Bit, Bus, Bus),
    /// The first bus above the second.
    Join(Bus, Bus),
    /// The bits of a bus from the last number, the lowest, to the one before it, the highest.
    Cut(Bus, u8, u8),
    /// A width, the number that the register takes where the reset line is 1, and what it takes
    /// else.
    Register(u8, Option<u128>, Option<Bus>),
    /// The bits of addresses and of words, and what the memory takes.
    Memory(u8, u8, Option<MemoryDrive>),
    /// The word of a memory at an address, as it is before the edge.
    MemoryRead(Store, Bus),
}

/// Which way a port leads.
#[derive(Clone, Copy, PartialEq, Eq, Debug)]
pub enum Direction {
    /// The port leads into the netlist: its value comes from without.
    In,
    /// The port leads out: it shows what a node carries.
    Out,
}

/// A port: its direction, its name, and the number of its node.
#[derive(Drop, Debug)]
pub struct Port {
    /// Which way the port leads.
    pub direction: Direction,
    /// The bytes of its name.
    pub name: Listed<u8>,
    /// The number of its input node, or of the node that it shows.
    pub node: usize,
}
