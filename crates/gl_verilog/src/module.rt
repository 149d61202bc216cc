//! Modules with their names resolved: a net, register or memory is the number of its declaration.

use gl_bits::Listed;

/// What a declared name is.
#[derive(Clone, Copy, PartialEq, Eq, Debug)]
pub enum Kind {
    /// An input port.
    Input,
    /// An output port that an assignment drives.
    OutputWire,
    /// An output port that a block drives.
    OutputRegister,
    /// An inner net that an assignment drives.
    Wire,
    /// An inner register.
    Register,
    /// A memory of `2^address_bits` words.
    Memory { address_bits: u8 },
}

/// A declaration: of a port, a net, a register or a memory.
#[derive(Drop, Debug)]
pub struct Declaration {
    /// Its name.
    pub name: Listed<u8>,
    /// Its bits, of a memory those of a word: 1 to 128.
    pub width: u8,
    /// Whether it has a range; without one it is one bit that no select stands on.
    pub is_vector: bool,
    /// What it is.
    pub kind: Kind,
}

/// A binary operator on words of one width.
#[derive(Clone, Copy, PartialEq, Eq, Debug)]
pub enum BinaryOp {
    /// The sum, wrapped.
    Add,
    /// The difference, wrapped.
    Sub,
    /// The product, wrapped.
    Mul,
    /// The bits that both have; `&&` on one bit.
    And,
    /// The bits that one has and the other lacks.
    Xor,
    /// The bits that either has; `||` on one bit.
    Or,
    /// 1 where they are equal, else 0.
    Eq,
    /// 1 where they differ, else 0.
    Ne,
    /// 1 where the first is less, as unsigned numbers, else 0.
    Lt,
    /// 1 where the first is not more, else 0.
    Le,
    /// 1 where the first is more, else 0.
    Gt,
    /// 1 where the first is not less, else 0.
    Ge,
}

/// An expression. A width in it is that of the operands.
#[derive(Drop, Debug)]
pub enum Expr {
    /// A net or register by the number of its declaration.
    Net(usize),
    /// A number of this width.
    Literal {
        /// The number, which fits into the width.
        value: u128,
        /// How many bits the literal has.
        width: u8,
    },
    /// Every bit inverted: `~`, and `!` on one bit.
    Invert {
        /// How many bits the operand has.
        width: u8,
        /// The operand.
        arg: Box<Expr>,
    },
    /// Two operands of one width under an operator.
    Binary {
        /// The operator.
        op: BinaryOp,
        /// How many bits each operand has.
        width: u8,
        /// The left operand.
        left: Box<Expr>,
        /// The right operand.
        right: Box<Expr>,
    },
    /// `test ? yes : no`.
    Choose {
        /// The test, of one bit.
        test: Box<Expr>,
        /// The value where the test is 1.
        yes: Box<Expr>,
        /// The value where the test is 0.
        no: Box<Expr>,
    },
    /// `{high, low}`; `low_width` is the width of the lower part. Of three parts the last two are
    /// the lower one: `{x, y, z}` is `{x, {y, z}}`.
    Join {
        /// How many bits the lower part has.
        low_width: u8,
        /// The part in the high bits.
        high: Box<Expr>,
        /// The part in the low bits.
        low: Box<Expr>,
    },
    /// The bits from `low` to `high` of a net or register; one bit where they are the same.
    Select {
        /// The number of the highest bit, counted from 0.
        high: u8,
        /// The number of the lowest bit.
        low: u8,
        /// The net or register, by the number of its declaration.
        net: usize,
    },
    /// The word of a memory at an address.
    Read {
        /// The memory, by the number of its declaration.
        memory: usize,
        /// The address, as wide as the memory's addresses.
        address: Box<Expr>,
    },
}

/// What a clocked block does at an edge.
#[derive(Drop, Debug)]
pub enum Statement {
    /// Nothing, as where an `if` has no `else`.
    Nothing,
    /// A register takes a value.
    Put {
        /// The register, by the number of its declaration.
        register: usize,
        /// What it takes at the edge.
        value: Expr,
    },
    /// The word of a memory at an address takes a value.
    Write {
        /// The memory, by the number of its declaration.
        memory: usize,
        /// The address of the word, as wide as the memory's addresses.
        address: Expr,
        /// What the word takes at the edge.
        value: Expr,
    },
    /// `begin .. end`: these, in order. The list may be long, so it is no chain of pairs.
    Block(Vec<Statement>),
    /// One of two, by a test of one bit.
    If {
        /// The test, of one bit.
        test: Expr,
        /// What is done where the test is 1.
        yes: Box<Statement>,
        /// What is done where the test is 0.
        no: Box<Statement>,
    },
}

/// A continuous assignment: the net has the value of the expression.
#[derive(Drop, Debug)]
pub struct Assignment {
    /// The net.
    pub target: usize,
    /// The expression.
    pub value: Expr,
}

/// A module. Its ports are the first declarations, in the order of the header.
#[derive(Drop, Debug)]
pub struct Module {
    /// Its name.
    pub name: Listed<u8>,
    /// The number of ports.
    pub ports: usize,
    /// The declarations, ports first.
    pub declarations: Listed<Declaration>,
    /// The assignments, in the order of the text.
    pub assignments: Listed<Assignment>,
    /// The clocked blocks, in the order of the text, each as its statement.
    pub blocks: Listed<Statement>,
}
