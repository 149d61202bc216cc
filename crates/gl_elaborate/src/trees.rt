//! Expressions over numbered columns.

ghost use Rattle.std.specs.Prelude.{◌≡◌};
ghost use Rattle.gl_elaborate.specs.Levels.{leaf_of, op_of, operand_of};
ghost use Rattle.gl_elaborate.specs.Trees.{term};

use gl_algebra::{ColOp, Operand};
use gl_bits::Word;
use gl_values::{Kind, Op};

/// An expression over the columns of a node and the parameters of a schema, by their numbers.
#[derive(Drop)]
pub enum Tree {
    /// A column by its number.
    Column(u16),
    /// A literal: its word, of its kind.
    Literal(Word, Kind),
    /// A parameter by its number, of its kind.
    Parameter(u8, Kind),
    /// The other bit.
    Not(Box<Tree>),
    /// The other bits of a number.
    Flip(Box<Tree>),
    /// The value as another kind.
    Cast(Box<Tree>, Kind),
    /// Two operands under an operator.
    Binary(Op, Box<Tree>, Box<Tree>),
}

/// A column, literal or parameter as an operand.
pub fn leaf_of(tree: &Tree) -> Option<Operand>
    ensures { result ≡ leaf_of (term tree.now) }
{
    match tree {
        Tree::Column(number) => Some(Operand::Column(*number)),
        Tree::Literal(word, kind) => Some(Operand::Literal(*word, *kind)),
        Tree::Parameter(number, kind) => Some(Operand::Parameter(*number, *kind)),
        Tree::Not(_) | Tree::Flip(_) | Tree::Cast(..) | Tree::Binary(..) => None,
    }
}

/// The operation that a tree is, where its operands are columns, literals or parameters.
pub fn op_of(tree: &Tree) -> Option<ColOp>
    ensures { result ≡ op_of (term tree.now) }
{
    match tree {
        Tree::Column(_) | Tree::Literal(..) | Tree::Parameter(..) => None,
        Tree::Not(arg) => Some(ColOp::Not(leaf_of(arg)?)),
        Tree::Flip(arg) => Some(ColOp::Flip(leaf_of(arg)?)),
        Tree::Cast(arg, kind) => Some(ColOp::Cast(leaf_of(arg)?, *kind)),
        Tree::Binary(operator, left, right) => {
            let x = leaf_of(left)?;
            let y = leaf_of(right)?;
            Some(ColOp::Binary(*operator, x, y))
        }
    }
}

/// A tree of depth 0 as an operand.
pub fn operand_of(tree: &Tree) -> Operand
    ensures { result ≡ operand_of (term tree.now) }
{
    match tree {
        Tree::Column(number) => Operand::Column(*number),
        Tree::Literal(word, kind) => Operand::Literal(*word, *kind),
        Tree::Parameter(number, kind) => Operand::Parameter(*number, *kind),
        Tree::Not(_) | Tree::Flip(_) | Tree::Cast(..) | Tree::Binary(..) => Operand::Column(0),
    }
}
