//! Kinds and faults of expressions, in one pass.
//!
//! What is not loose has one kind and one first fault whatever its place. So operands are judged before
//! their places are known, and only what is loose is gone over again, once, in its place.

ghost use Rattle.std.specs.Prelude.{◌≡◌, List, None};
ghost use Rattle.gl_schema.specs.declared.schema.Column.{Column as NamedColumn};
ghost use Rattle.gl_query.specs.Alike.{expr_alike};
ghost use Rattle.gl_query.specs.Faults as faults;
ghost use Rattle.gl_query.specs.Trees as tree;
ghost use Rattle.gl_query.specs.Trees.{expr_tree, filter_tree};
ghost use Rattle.gl_query.specs.Values as values;
ghost use Rattle.gl_query_check.specs.Judging as judging;
ghost use Rattle.gl_query_check.specs.Judging.{IsPlaced, Judges};

use crate::rules::{has_column, is_bit, letters_fit, or_else, unless};
use gl_query::kinds::operator_kind;
use gl_query::{Expr, Name, Num, QueryFault, kinds};
use gl_schema::Column;
use gl_values::{Kind, Op, Sort};

/// What an expression is whatever its place.
#[derive(Drop)]
pub enum Judged {
    /// Its kind and its faults come from its place.
    Loose,
    /// Its kind and its first fault are these in any place.
    Fixed {
        /// The kind that the expression has of itself.
        kind: Kind,
        /// Its first fault, where it has one.
        fault: Option<QueryFault>,
    },
}

/// The kind and the first fault of an expression in its place.
#[derive(Drop)]
pub struct Placed {
    /// The kind that the expression has in its place.
    pub kind: Kind,
    /// Its first fault there, where it has one.
    pub fault: Option<QueryFault>,
}

// The kind of a loose expression alone.
#[tactic(auto, using(gl_query::proofs::Alike::expr_same))]
fn kind_alone(expr: &Expr) -> Kind
    ensures { result ≡ values.kind_alone (expr_alike (expr_tree expr.now)) }
{
    kinds::kind_alone(expr)
}

/// The fault of a number in a place.
pub fn number_fault(place: Kind, number: Num) -> Option<QueryFault>
    ensures { result ≡ faults.number_fault place number }
{
    let at = number.at;
    let fits = unless(
        place.has_number(number.value),
        QueryFault::LiteralTooWide { at },
    );
    or_else(
        unless(place.is_number(), QueryFault::KindsDiffer { at }),
        fits,
    )
}

// The fault of a number behind a minus sign in a place.
fn negative_fault(place: Kind, number: Num) -> Option<QueryFault>
    ensures { result ≡ faults.negative_fault place number }
{
    let at = number.at;
    let fits = unless(
        place.has_negative(number.value),
        QueryFault::LiteralTooWide { at },
    );
    or_else(
        unless(place.is_number(), QueryFault::KindsDiffer { at }),
        fits,
    )
}

// The fault of a text literal in a place.
fn letters_fault(place: Kind, text: &[u8], at: u64) -> Option<QueryFault>
    ensures { result ≡ faults.letters_fault place text.now at }
{
    let fits = unless(letters_fit(place, text), QueryFault::LiteralTooWide { at });
    or_else(
        unless(place.is_text(), QueryFault::KindsDiffer { at }),
        fits,
    )
}

// The fault of an operator over operands of these kinds.
fn operator_fault(sort: Sort, left: Kind, right: Kind, at: u64) -> Option<QueryFault>
    ensures { result ≡ faults.operator_fault sort left right at }
{
    match sort {
        Sort::Arithmetic => unless(
            left == right && left.is_number(),
            QueryFault::KindsDiffer { at },
        ),
        Sort::Comparison => unless(left == right, QueryFault::KindsDiffer { at }),
        Sort::Logic => unless(
            is_bit(left) && is_bit(right),
            QueryFault::NotCondition { at },
        ),
    }
}

// The fault of how far a shift goes.
#[tactic(auto, using(gl_query::proofs::Alike::expr_same))]
fn distance_fault(op: Op, kind: Kind, expr: &Expr) -> Option<QueryFault>
    ensures { result ≡ faults.distance_fault op kind (expr_tree expr.now) }
{
    let at = first_place(expr);
    unless(
        kinds::shift_fits(op, kind, expr),
        QueryFault::OutOfRange { at },
    )
}

// The operands' faults, the right one's first where only the left one is loose.
fn of_operands(
    left_loose: bool,
    right_loose: bool,
    left: Option<QueryFault>,
    right: Option<QueryFault>,
) -> Option<QueryFault>
    ensures { result ≡ faults.of_operands left_loose right_loose left right }
{
    if left_loose && !right_loose {
        or_else(right, left)
    } else {
        or_else(left, right)
    }
}

// The first fault of a loose expression in a place; it has no columns.
fn loose_fault(place: Kind, expr: &Expr) -> Option<QueryFault>
    ensures { (columns : List NamedColumn)
        → values.own_kind columns (expr_alike (expr_tree expr.now)) ≡ None
        → result ≡ faults.expr_fault columns place (expr_tree expr.now) }
{
    match expr {
        Expr::Number(number) => number_fault(place, *number),
        Expr::Minus(number) => negative_fault(place, *number),
        Expr::Letters { text, at } => letters_fault(place, text.as_slice(), *at),
        Expr::Flip { arg, at } => {
            let number = unless(place.is_number(), QueryFault::KindsDiffer { at: *at });
            or_else(loose_fault(place, arg), number)
        }
        Expr::Binary {
            op,
            left,
            right,
            at,
        } => {
            let operands = or_else(loose_fault(place, left), loose_fault(place, right));
            let number = unless(place.is_number(), QueryFault::KindsDiffer { at: *at });
            let distance = distance_fault(*op, place, right);
            or_else(or_else(operands, number), distance)
        }
        Expr::Column(_) | Expr::Not { .. } | Expr::Cast { .. } => None,
    }
}

// An expression that was judged, in its place.
fn settle(place: Kind, judged: Judged, expr: &Expr) -> Placed
    ensures { (columns : List NamedColumn) → Judges columns (expr_tree expr.now) judged
        → IsPlaced columns place (expr_tree expr.now) result }
{
    match judged {
        Judged::Loose => Placed {
            kind: place,
            fault: loose_fault(place, expr),
        },
        Judged::Fixed { kind, fault } => Placed { kind, fault },
    }
}

// The kind that it has of itself.
fn kind_judged(judged: &Judged) -> Option<Kind>
    ensures { result ≡ judging.kind_judged judged.now }
{
    match judged {
        Judged::Loose => None,
        Judged::Fixed { kind, .. } => Some(*kind),
    }
}

// The kind that a loose operand takes beside a loose one.
#[tactic(auto, using(gl_query::proofs::Alike::expr_same))]
fn loose_kind(sort: Sort, place: Kind, expr: &Expr) -> Kind
    ensures { result ≡ values.loose_kind sort place (expr_alike (expr_tree expr.now)) }
{
    kinds::loose_kind(sort, place, expr)
}

// The place that an operand has beside another one. One bit where that comes from the whole, which
// only a loose whole asks for.
fn place_beside(sort: Sort, other: Option<Kind>, expr: &Expr) -> Kind
    ensures { result ≡ judging.place_beside sort other (expr_alike (expr_tree expr.now)) }
{
    other.unwrap_or(loose_kind(sort, Kind::Unsigned(1), expr))
}

// An operator over operands that were judged.
fn combined(
    op: Op,
    at: u64,
    left: &Expr,
    right: &Expr,
    left_judged: Judged,
    right_judged: Judged,
) -> Judged
    ensures { (columns : List NamedColumn) → Judges columns (expr_tree left.now) left_judged
        → Judges columns (expr_tree right.now) right_judged
        → Judges columns (tree.Binary op (expr_tree left.now) (expr_tree right.now) at) result }
{
    let sort = op.sort();
    let of_left = kind_judged(&left_judged);
    let of_right = kind_judged(&right_judged);
    let Some(kind) = operator_kind(sort, of_left, of_right) else {
        drop(left_judged);
        drop(right_judged);
        return Judged::Loose;
    };
    let left_placed = settle(place_beside(sort, of_right, left), left_judged, left);
    let right_placed = settle(place_beside(sort, of_left, right), right_judged, right);
    let operands = of_operands(
        of_left.is_none(),
        of_right.is_none(),
        left_placed.fault,
        right_placed.fault,
    );
    let own = operator_fault(sort, left_placed.kind, right_placed.kind, at);
    let distance = distance_fault(op, left_placed.kind, right);
    Judged::Fixed {
        kind,
        fault: or_else(or_else(operands, own), distance),
    }
}

// The other bits of what was judged.
fn flipped(at: u64, arg: &Expr, judged: Judged) -> Judged
    ensures { (columns : List NamedColumn) → Judges columns (expr_tree arg.now) judged
        → Judges columns (tree.Flip (expr_tree arg.now) at) result }
{
    let _ = arg;
    match judged {
        Judged::Loose => Judged::Loose,
        Judged::Fixed { kind, fault } => {
            let number = unless(kind.is_number(), QueryFault::KindsDiffer { at });
            Judged::Fixed {
                kind,
                fault: or_else(fault, number),
            }
        }
    }
}

// A name that is not there: that of a parameter where it begins with a colon, or that of a column.
fn unknown_fault(name: &[u8], at: u64) -> QueryFault
    ensures { result ≡ faults.unknown_fault name.now at }
{
    match name.split_first() {
        None => QueryFault::UnknownColumn { at },
        Some((first, _)) => {
            if *first == b':' {
                QueryFault::UnknownParameter { at }
            } else {
                QueryFault::UnknownColumn { at }
            }
        }
    }
}

// A column, or a parameter.
fn column_judged(columns: &[Column], name: &Name) -> Judged
    ensures { Judges columns.now (tree.Column name.now) result }
{
    Judged::Fixed {
        kind: kinds::column_kind(columns, name.text.as_slice()),
        fault: unless(
            has_column(columns, name.text.as_slice()),
            unknown_fault(name.text.as_slice(), name.at),
        ),
    }
}

// An expression is judged whatever its place.
fn judge(columns: &[Column], expr: &Expr) -> Judged
    ensures { Judges columns.now (expr_tree expr.now) result }
{
    match expr {
        Expr::Column(name) => column_judged(columns, name),
        Expr::Number(_) | Expr::Minus(_) | Expr::Letters { .. } => Judged::Loose,
        Expr::Not { arg, at } => {
            let inside = settle(Kind::Unsigned(1), judge(columns, arg), arg);
            let bit = unless(is_bit(inside.kind), QueryFault::NotCondition { at: *at });
            Judged::Fixed {
                kind: Kind::Unsigned(1),
                fault: or_else(inside.fault, bit),
            }
        }
        Expr::Flip { arg, at } => {
            let judged = judge(columns, arg);
            flipped(*at, arg, judged)
        }
        Expr::Cast { arg, kind, at } => {
            let inside = settle(kind_alone(arg), judge(columns, arg), arg);
            let can = inside.kind.can_cast(*kind);
            let can = unless(can, QueryFault::KindsDiffer { at: *at });
            Judged::Fixed {
                kind: *kind,
                fault: or_else(inside.fault, can),
            }
        }
        Expr::Binary {
            op,
            left,
            right,
            at,
        } => {
            let left_judged = judge(columns, left);
            let right_judged = judge(columns, right);
            combined(*op, *at, left, right, left_judged, right_judged)
        }
    }
}

// An expression in a place.
fn judge_in(columns: &[Column], place: Kind, expr: &Expr) -> Placed
    ensures { IsPlaced columns.now place (expr_tree expr.now) result }
{
    settle(place, judge(columns, expr), expr)
}

/// The kind of an item's expression or of an argument, and its first fault.
pub fn judge_whole(columns: &[Column], expr: &Expr) -> Placed
    ensures kind { result.kind ≡ faults.whole_kind columns.now (expr_tree expr.now) }
    ensures fault { result.fault ≡ faults.whole_fault columns.now (expr_tree expr.now) }
{
    judge_in(columns, kind_alone(expr), expr)
}

// The place of an expression's first token, opening brackets aside.
fn first_place(expr: &Expr) -> u64
    ensures { result ≡ faults.first_place (expr_tree expr.now) }
{
    match expr {
        Expr::Column(name) => name.at,
        Expr::Number(number) | Expr::Minus(number) => number.at,
        Expr::Letters { at, .. } => *at,
        Expr::Not { at, .. } => *at,
        Expr::Flip { at, .. } => *at,
        Expr::Cast { at, .. } => *at,
        Expr::Binary { left, .. } => first_place(left),
    }
}

/// The first fault of a filter.
pub fn filter_fault(columns: &[Column], filter: &Option<Expr>) -> Option<QueryFault>
    ensures { result ≡ faults.filter_fault columns.now (filter_tree filter.now) }
{
    match filter {
        None => None,
        Some(expr) => {
            let inside = judge_in(columns, Kind::Unsigned(1), expr);
            let at = first_place(expr);
            let bit = unless(is_bit(inside.kind), QueryFault::NotCondition { at });
            or_else(inside.fault, bit)
        }
    }
}
