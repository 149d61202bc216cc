//! Kinds of expressions.

ghost use Rattle.std.specs.Prelude.{◌≡◌, ◌≤◌, length};
ghost use Rattle.gl_query.specs.Shapes.{expr_shape};
ghost use Rattle.gl_query.specs.Values.{begins_with_text, column_kind, column_number, has_minus, kind_alone, kind_of, loose_kind, operand_place, operator_kind, own_kind, shift_fits};

use crate::tree::Expr;
use gl_schema::Column;
use gl_values::{Kind, Op, Sort};

/// The number of the column with a name; the number of columns where there is none.
pub fn column_number(columns: &[Column], name: &[u8]) -> usize
    ensures value { result ≡ column_number columns.now name.now }
    ensures bound { result ≤ length columns.now }
{
    let Some((first, others)) = columns.split_first() else {
        return 0;
    };
    if name == first.name.as_slice() {
        return 0;
    }
    1 + column_number(others, name)
}

/// The kind of the column with a name; one bit where there is none.
pub fn column_kind(columns: &[Column], name: &[u8]) -> Kind
    ensures { result ≡ column_kind columns.now name.now }
{
    match columns.get(column_number(columns, name)) {
        Some(column) => column.kind,
        None => Kind::Unsigned(1),
    }
}

/// The kind of what an operator gives over operands that have these kinds of themselves.
pub fn operator_kind(sort: Sort, left: Option<Kind>, right: Option<Kind>) -> Option<Kind>
    ensures { result ≡ operator_kind sort left right }
{
    match sort {
        Sort::Arithmetic => left.or(right),
        Sort::Comparison | Sort::Logic => Some(Kind::Unsigned(1)),
    }
}

/// The kind that an expression has of itself, whatever its place; none where it is loose.
pub fn own_kind(columns: &[Column], expr: &Expr) -> Option<Kind>
    ensures { result ≡ own_kind columns.now (expr_shape expr.now) }
{
    match expr {
        Expr::Column(name) => Some(column_kind(columns, name.text.as_slice())),
        Expr::Number(_) | Expr::Minus(_) | Expr::Letters { .. } => None,
        Expr::Not { .. } => Some(Kind::Unsigned(1)),
        Expr::Flip { arg, .. } => own_kind(columns, arg),
        Expr::Cast { kind, .. } => Some(*kind),
        Expr::Binary {
            op,
            left,
            right,
            ..
        } => operator_kind(op.sort(), own_kind(columns, left), own_kind(columns, right)),
    }
}

/// The kind of an expression in a place: its own, or else the one that the place gives.
pub fn kind_of(columns: &[Column], place: Kind, expr: &Expr) -> Kind
    ensures { result ≡ kind_of columns.now place (expr_shape expr.now) }
{
    own_kind(columns, expr).unwrap_or(place)
}

/// Whether the leftmost literal of a loose expression is a text.
pub fn begins_with_text(expr: &Expr) -> bool
    ensures { result ≡ begins_with_text (expr_shape expr.now) }
{
    match expr {
        Expr::Letters { .. } => true,
        Expr::Flip { arg, .. } => begins_with_text(arg),
        Expr::Binary { left, .. } => begins_with_text(left),
        Expr::Column(_) | Expr::Number(_) | Expr::Minus(_) | Expr::Not { .. } | Expr::Cast { .. } =>
            false,
    }
}

/// Whether a number behind a minus sign stands in a loose expression.
pub fn has_minus(expr: &Expr) -> bool
    ensures { result ≡ has_minus (expr_shape expr.now) }
{
    match expr {
        Expr::Minus(_) => true,
        Expr::Flip { arg, .. } => has_minus(arg),
        Expr::Binary { left, right, .. } => has_minus(left) || has_minus(right),
        Expr::Column(_)
        | Expr::Number(_)
        | Expr::Letters { .. }
        | Expr::Not { .. }
        | Expr::Cast { .. } => false,
    }
}

/// The kind that a loose expression takes where its place gives none.
pub fn kind_alone(expr: &Expr) -> Kind
    ensures { result ≡ kind_alone (expr_shape expr.now) }
{
    if begins_with_text(expr) {
        Kind::Text(8)
    } else if has_minus(expr) {
        Kind::Signed(64)
    } else {
        Kind::Unsigned(64)
    }
}

/// The kind that a loose operand takes beside a loose one, under an operator in a place of this kind.
pub fn loose_kind(sort: Sort, place: Kind, expr: &Expr) -> Kind
    ensures { result ≡ loose_kind sort place (expr_shape expr.now) }
{
    match sort {
        Sort::Arithmetic => place,
        Sort::Comparison => kind_alone(expr),
        Sort::Logic => Kind::Unsigned(1),
    }
}

/// The kind that an operand's place gives: the other operand's own, or else that of what is loose.
pub fn operand_place(columns: &[Column], op: Op, place: Kind, expr: &Expr, other: &Expr) -> Kind
    ensures { result
        ≡ operand_place columns.now op place (expr_shape expr.now) (expr_shape other.now) }
{
    own_kind(columns, other).unwrap_or(loose_kind(op.sort(), place, expr))
}

/// Whether an expression may stand on the right of an operator: on that of a shift a number below the
/// width of the kind alone.
pub fn shift_fits(op: Op, kind: Kind, expr: &Expr) -> bool
    ensures { result ≡ shift_fits op kind (expr_shape expr.now) }
{
    match expr {
        Expr::Number(number) => op.shifts_within(kind, number.value),
        Expr::Column(_)
        | Expr::Minus(_)
        | Expr::Letters { .. }
        | Expr::Not { .. }
        | Expr::Flip { .. }
        | Expr::Cast { .. }
        | Expr::Binary { .. } => !op.is_shift(),
    }
}
