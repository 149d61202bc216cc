//! A module as it is written.

use crate::token::Word;

/// `~` or `!`.
#[derive(Clone, Copy, PartialEq, Eq, Debug)]
pub enum PrefixOp {
    /// `~`
    BitNot,
    /// `!`
    LogicalNot,
}

/// A binary operator.
#[derive(Clone, Copy, PartialEq, Eq, Debug)]
pub enum InfixOp {
    /// `*`
    Times,
    /// `+`
    Added,
    /// `-`
    Subtracted,
    /// `<`
    Below,
    /// `<=`
    AtMost,
    /// `>`
    Above,
    /// `>=`
    AtLeast,
    /// `==`
    Equal,
    /// `!=`
    NotEqual,
    /// `&`
    BitAnd,
    /// `^`
    BitXor,
    /// `|`
    BitOr,
    /// `&&`
    LogicalAnd,
    /// `||`
    LogicalOr,
}

/// An expression. `at` is the place of its operator or of its first byte.
#[derive(Drop)]
pub enum WrittenExpr<'a> {
    /// A name.
    Named(Word<'a>),
    /// A literal with its size.
    Constant {
        /// The decimal digits of the size.
        size: Word<'a>,
        /// The radix: 2, 10 or 16.
        radix: u8,
        /// The digits behind the base letter.
        digits: Word<'a>,
    },
    /// One bit of a vector, `name[place]`.
    BitOf {
        /// The name of the vector.
        name: Word<'a>,
        /// The decimal digits of the bit's number.
        place: Word<'a>,
    },
    /// Some bits of a vector, `name[high:low]`.
    PartOf {
        /// The name of the vector.
        name: Word<'a>,
        /// The decimal digits of the highest bit's number.
        high: Word<'a>,
        /// The decimal digits of the lowest bit's number.
        low: Word<'a>,
    },
    /// A word of a memory, `name[address]`.
    WordOf {
        /// The name of the memory.
        name: Word<'a>,
        /// The address of the word.
        address: Box<WrittenExpr<'a>>,
    },
    /// Parts in braces, the first in the high bits.
    Braces {
        /// The place of the opening brace.
        at: usize,
        /// The parts, one or more.
        parts: Vec<WrittenExpr<'a>>,
    },
    /// An expression in brackets.
    Parens(Box<WrittenExpr<'a>>),
    /// A prefix operator and its operand.
    Prefix {
        /// The operator.
        op: PrefixOp,
        /// The place of the operator.
        at: usize,
        /// The operand.
        arg: Box<WrittenExpr<'a>>,
    },
    /// Two operands with an operator between them.
    Infix {
        /// The operator.
        op: InfixOp,
        /// The place of the operator.
        at: usize,
        /// The left operand.
        left: Box<WrittenExpr<'a>>,
        /// The right operand.
        right: Box<WrittenExpr<'a>>,
    },
    /// `test ? yes : no`
    Conditional {
        /// The place of `?`.
        at: usize,
        /// The test.
        test: Box<WrittenExpr<'a>>,
        /// The value where the test is 1.
        yes: Box<WrittenExpr<'a>>,
        /// The value where the test is 0.
        no: Box<WrittenExpr<'a>>,
    },
}

/// A statement.
#[derive(Drop)]
pub enum WrittenStatement<'a> {
    /// A register takes a value.
    Update {
        /// The name of the register.
        target: Word<'a>,
        /// What it takes.
        value: WrittenExpr<'a>,
    },
    /// A word of a memory takes a value.
    UpdateWord {
        /// The name of the memory.
        target: Word<'a>,
        /// The address of the word.
        address: WrittenExpr<'a>,
        /// What the word takes.
        value: WrittenExpr<'a>,
    },
    /// An `if` without an `else`.
    IfThen {
        /// The place of `if`.
        at: usize,
        /// The condition.
        test: WrittenExpr<'a>,
        /// What is done where the condition is 1.
        yes: Box<WrittenStatement<'a>>,
    },
    /// An `if` with an `else`.
    IfElse {
        /// The place of `if`.
        at: usize,
        /// The condition.
        test: WrittenExpr<'a>,
        /// What is done where the condition is 1.
        yes: Box<WrittenStatement<'a>>,
        /// What is done where the condition is 0.
        no: Box<WrittenStatement<'a>>,
    },
    /// The statements between `begin` and `end`, in order.
    Block(Vec<WrittenStatement<'a>>),
}

/// `input`, `input wire`, `output`, `output wire` or `output reg`.
#[derive(Clone, Copy, PartialEq, Eq, Debug)]
pub enum Direction {
    /// `input`
    In,
    /// `input wire`
    InWire,
    /// `output`
    Out,
    /// `output wire`
    OutWire,
    /// `output reg`
    OutReg,
}

/// A port, with the digits of its highest bit where it has a range.
#[derive(Clone, Copy, Debug)]
pub struct WrittenPort<'a> {
    /// The words before its range.
    pub direction: Direction,
    /// The digits of its highest bit, where it has a range.
    pub range: Option<Word<'a>>,
    /// The name of the port.
    pub name: Word<'a>,
}

/// An item.
#[derive(Drop)]
pub enum WrittenItem<'a> {
    /// Wires of one range.
    Wires {
        /// The digits of the highest bit, where there is a range.
        range: Option<Word<'a>>,
        /// The names, one or more.
        names: Vec<Word<'a>>,
    },
    /// Registers of one range.
    Registers {
        /// The digits of the highest bit, where there is a range.
        range: Option<Word<'a>>,
        /// The names, one or more.
        names: Vec<Word<'a>>,
    },
    /// A memory, `reg range name [0:last]`.
    MemoryOf {
        /// The digits of the highest bit, where there is a range.
        range: Option<Word<'a>>,
        /// The name of the memory.
        name: Word<'a>,
        /// The digits of its last address.
        last: Word<'a>,
    },
    /// An assignment to a wire.
    Assign {
        /// The name that it drives.
        target: Word<'a>,
        /// What the name carries.
        value: WrittenExpr<'a>,
    },
    /// A clocked block.
    Always {
        /// The name of the clock.
        clock: Word<'a>,
        /// What is done at its rising edge.
        body: WrittenStatement<'a>,
    },
}

/// A module.
#[derive(Drop)]
pub struct WrittenModule<'a> {
    /// The name of the module.
    pub name: Word<'a>,
    /// The ports, in the order of the header.
    pub ports: Vec<WrittenPort<'a>>,
    /// The items, in the order of the text.
    pub items: Vec<WrittenItem<'a>>,
}
