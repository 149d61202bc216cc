//! The trees of expressions.

ghost use Rattle.std.specs.Prelude.{◌≡◌, ◌<◌, ◌≤◌, [], length, IfOk};
ghost use Rattle.gl_schema.specs.Schemas.{kinds_of, text_word};
ghost use Rattle.gl_query.specs.Shapes.{expr_shape};
ghost use Rattle.gl_values.specs.Kinds.{bytes_in, negative_word};
ghost use Rattle.gl_query.specs.Values.{HasKind, IsLettersOf};
ghost use Rattle.gl_elaborate.specs.Fitting.{HasReach};
ghost use Rattle.gl_elaborate.specs.Terms.{kind_numbered, literal, named, term_over, IsTerm};
ghost use Rattle.gl_elaborate.specs.Trees.{term};

use crate::trees::Tree;
use gl_bits::{Memory, Word};
use gl_query::Expr;
use gl_query::kinds::{column_number, kind_alone, operand_place};
use gl_schema::{Column, text_number};
use gl_values::Kind;
use std::alloc::Global;

// A literal of a kind.
fn literal(place: Kind, bits: u128) -> Tree
    requires { IsTerm (kinds_of []) (literal place bits) }
    ensures { term result ≡ literal place bits }
{
    match Word::new(bits, place.width()) {
        Some(word) => Tree::Literal(word, place),
        None => unreachable!(),
    }
}

// A literal of a number behind a minus sign.
fn negative_literal(place: Kind, number: u128) -> Tree
    requires { IsTerm (kinds_of []) (literal place (negative_word place number)) }
    ensures { term result ≡ literal place (negative_word place number) }
{
    literal(place, place.negative_word(number))
}

// A text literal of a kind.
#[tactic(auto, using(gl_query::proofs::Fitting::bytes_few, gl_query::proofs::Fitting::letters_short))]
fn text_literal(place: Kind, text: &[u8]) -> Tree
    requires typed { IsLettersOf place text.now }
    requires fits { IsTerm (kinds_of []) (literal place (text_word (bytes_in place) text.now)) }
    ensures { term result ≡ literal place (text_word (bytes_in place) text.now) }
{
    literal(
        place,
        u128::from(text_number(text, usize::from(place.bytes()))),
    )
}

// The kind of a column by its number; one bit where there is none.
fn kind_numbered(columns: &[Column], number: usize) -> Kind
    ensures { result ≡ kind_numbered columns.now number }
{
    match columns.get(number) {
        Some(column) => column.kind,
        None => Kind::Unsigned(1),
    }
}

// What an expression names by a number: a column, or a parameter behind the columns.
fn named(columns: &[Column], reach: &[Column], number: usize) -> Tree
    requires most { length columns.now < 65536 }
    requires near { HasReach columns.now reach.now }
    requires number { number ≤ length reach.now }
    ensures { term result ≡ named (length columns.now) reach.now number }
{
    if number < columns.len() {
        return Tree::Column(number as u16);
    }
    let parameter = number - columns.len();
    Tree::Parameter(parameter as u8, kind_numbered(reach, number))
}

/// The tree of an expression over columns, in a place that gives what is loose this kind. It may
/// name what is in its reach: the columns, and the parameters behind them.
pub fn tree_of(
    alloc: Global,
    columns: &[Column],
    reach: &[Column],
    place: Kind,
    expr: &Expr,
) -> Result<Tree, Memory>
    requires typed { HasKind reach.now place (expr_shape expr.now) }
    requires fits { IsTerm (kinds_of columns.now)
        (term_over columns.now reach.now place (expr_shape expr.now)) }
    requires most { length columns.now < 65536 }
    requires near { HasReach columns.now reach.now }
    ensures { IfOk result (λ tree.
        term tree ≡ term_over columns.now reach.now place (expr_shape expr.now)) }
{
    match expr {
        Expr::Column(name) => {
            let number = column_number(reach, name.text.as_slice());
            Ok(named(columns, reach, number))
        }
        Expr::Number(n) => Ok(literal(place, n.value)),
        Expr::Minus(n) => Ok(negative_literal(place, n.value)),
        Expr::Letters { text, .. } => Ok(text_literal(place, text.as_slice())),
        Expr::Not { arg, .. } => {
            let inner = tree_of(alloc, columns, reach, Kind::Unsigned(1), arg)?;
            Ok(Tree::Not(Box::new(alloc, inner)?))
        }
        Expr::Flip { arg, .. } => {
            let inner = tree_of(alloc, columns, reach, place, arg)?;
            Ok(Tree::Flip(Box::new(alloc, inner)?))
        }
        Expr::Cast { arg, kind, .. } => {
            let inner = tree_of(alloc, columns, reach, kind_alone(arg), arg)?;
            Ok(Tree::Cast(Box::new(alloc, inner)?, *kind))
        }
        Expr::Binary {
            op,
            left,
            right,
            ..
        } => {
            let left_place = operand_place(reach, *op, place, left, right);
            let right_place = operand_place(reach, *op, place, right, left);
            let first = tree_of(alloc, columns, reach, left_place, left)?;
            let second = tree_of(alloc, columns, reach, right_place, right)?;
            let x = Box::new(alloc, first)?;
            let y = Box::new(alloc, second)?;
            Ok(Tree::Binary(*op, x, y))
        }
    }
}
