//! Binary operators on the words of a row.

ghost use Rattle.std.specs.Prelude.{◌≡◌};
ghost use Rattle.gl_values.specs.Operators.{is_shift, shifts_within, sort_of};

use crate::kind::Kind;

/// A binary operator.
#[derive(Clone, Copy, PartialEq, Eq, Hash, Debug)]
pub enum Op {
    /// The sum of two numbers of one kind.
    Add,
    /// The difference of two numbers of one kind.
    Sub,
    /// The product of two numbers of one kind.
    Mul,
    /// The bits that both of two numbers of one kind have.
    BitAnd,
    /// The bits that at least one of two numbers of one kind has.
    BitOr,
    /// The bits that one alone of two numbers of one kind has.
    BitXor,
    /// The bits of a number so many places up, with zero bits below them.
    ShiftLeft,
    /// The bits of a number so many places down. Bits like its sign come above them, or zero bits
    /// where its kind has no sign.
    ShiftRight,
    /// Whether two values of one kind are equal.
    Eq,
    /// Whether two values of one kind differ.
    Ne,
    /// Whether the left value is below the right one.
    Lt,
    /// Whether the left value is at most the right one.
    Le,
    /// Whether the left value is above the right one.
    Gt,
    /// Whether the left value is at least the right one.
    Ge,
    /// Whether both of two bits are 1.
    And,
    /// Whether at least one of two bits is 1.
    Or,
}

/// What a binary operator does.
#[derive(Clone, Copy, PartialEq, Eq, Hash, Debug)]
pub enum Sort {
    /// `+ - * & | ^ << >>`: operands and result are of one kind.
    Arithmetic,
    /// `=`, `<>`, `<`, `<=`, `>` and `>=`: operands of one kind give one bit.
    Comparison,
    /// AND and OR: one bit each.
    Logic,
}

impl Op {
    /// What the operator does.
    pub fn sort(self) -> Sort
        ensures { result ≡ sort_of self }
    {
        match self {
            Op::Add
            | Op::Sub
            | Op::Mul
            | Op::BitAnd
            | Op::BitOr
            | Op::BitXor
            | Op::ShiftLeft
            | Op::ShiftRight => Sort::Arithmetic,
            Op::Eq | Op::Ne | Op::Lt | Op::Le | Op::Gt | Op::Ge => Sort::Comparison,
            Op::And | Op::Or => Sort::Logic,
        }
    }

    /// Whether the operator shifts its left operand by its right one, a literal.
    pub fn is_shift(self) -> bool
        ensures { result ≡ is_shift self }
    {
        match self {
            Op::ShiftLeft | Op::ShiftRight => true,
            Op::Add
            | Op::Sub
            | Op::Mul
            | Op::BitAnd
            | Op::BitOr
            | Op::BitXor
            | Op::Eq
            | Op::Ne
            | Op::Lt
            | Op::Le
            | Op::Gt
            | Op::Ge
            | Op::And
            | Op::Or => false,
        }
    }

    /// Whether the operator takes this word of a kind on its right: a shift goes by fewer places than
    /// the kind has bits, and every other operator takes any word.
    pub fn shifts_within(self, kind: Kind, by: u128) -> bool
        ensures { result ≡ shifts_within self kind by }
    {
        !self.is_shift() || by < u128::from(kind.bits())
    }
}
