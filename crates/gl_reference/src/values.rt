//! Values of expressions. Each answers None where a kind is none or a number leaves 128 bits, which
//! no accepted query over rows of its columns brings about.

ghost use Rattle.std.specs.Prelude.{◌≡◌, ◌^◌, ◌<◌, IfSome, IsSome, IsTrue, Option, option_map};
ghost use Rattle.gl_bits.specs.Words.{bit as bit_of, eq_of, not_of};
ghost use Rattle.gl_schema.specs.Schemas.{text_word};
ghost use Rattle.gl_query.specs.Shapes.{expr_shape};
ghost use Rattle.gl_values.specs.Kinds.{IsKind, bytes_in, can_cast, negative_word, width_of};
ghost use Rattle.gl_values.specs.Operators.{cast_of, operate, shifts_within};
ghost use Rattle.gl_query.specs.Accepted.{IsFilter};
ghost use Rattle.gl_query.specs.Values.{IsLettersOf, value_of};
ghost use Rattle.gl_query.specs.Results.{keeps};
ghost use Rattle.gl_reference.specs.Fits.{HasWord, IsRow};
ghost use Rattle.gl_values.specs.declared.op.Op.TheVariants.{ShiftLeft, ShiftRight};

use gl_query::kinds::{column_number, kind_alone, kind_of, operand_place};
use gl_query::{Expr, Op};
use gl_schema::{Column, text_number};
use gl_values::lists::number_at;
use gl_values::{Family, Kind};

/// A power of two; None past 127.
fn power(width: u16) -> Option<u128>
    ensures value { IfSome result (λ p. p ≡ 2 ^ width) }
    ensures fits { width < 128 → IsSome result }
{
    if width < 128 {
        Some(1u128 << width)
    } else {
        None
    }
}

fn bit(holds: bool) -> Option<u128>
    ensures { result ≡ Option.Some (bit_of holds) }
{
    Some(if holds { 1 } else { 0 })
}

/// One bit: whether two numbers are equal.
#[tactic(auto, unfolding(gl_bits::specs::Words::eq_of))]
fn equal(x: u128, y: u128) -> Option<u128>
    ensures { result ≡ Option.Some (eq_of x y) }
{
    bit(x == y)
}

/// The other bit.
#[tactic(auto, unfolding(gl_bits::specs::Words::not_of))]
fn opposite(x: u128) -> u128
    ensures { result ≡ not_of 1 x }
{
    1u128.saturating_sub(x)
}

/// The other bits of a word of a kind.
#[tactic(auto, using(crate::proofs::Widths::kind_width), unfolding(gl_bits::specs::Words::not_of))]
fn flipped(kind: Kind, x: u128) -> Option<u128>
    ensures value { IfSome result (λ v. v ≡ not_of (width_of kind) x) }
    ensures fits { IsKind kind → IsSome result }
{
    Some(power(kind.bits())?.saturating_sub(1).saturating_sub(x))
}

/// A word of a kind so many places up, with zero bits below.
#[tactic(auto, using(crate::proofs::Widths::kind_width, crate::proofs::Widths::up_fits), unfolding(gl_bits::specs::Words::product_of))]
fn shifted_up(kind: Kind, x: u128, by: u128) -> Option<u128>
    ensures value { IfSome result (λ v. v ≡ operate ShiftLeft kind x by) }
    ensures fits { IsKind kind → x < 2 ^ 64 → by < width_of kind → IsSome result }
{
    if by >= 64 {
        return None;
    }
    Some(x.checked_mul(power(by as u16)?)? % power(kind.bits())?)
}

/// A word of a kind so many places down, with bits like its sign above where it has one.
#[tactic(auto, using(crate::proofs::Widths::kind_width, gl_values::proofs::KindLemmas::passes_test, gl_values::proofs::KindLemmas::tested_kind))]
fn shifted_down(kind: Kind, x: u128, by: u128) -> Option<u128>
    ensures value { IfSome result (λ v. v ≡ operate ShiftRight kind x by) }
    ensures fits { IsKind kind → by < width_of kind → IsSome result }
{
    if !kind.is_kind() || by >= u128::from(kind.width()) {
        return None;
    }
    Some(kind.shifted_down(x, by as u8))
}

/// The word of a text literal in its kind.
#[tactic(auto, using(gl_query::proofs::Fitting::bytes_few, gl_query::proofs::Fitting::letters_short))]
fn letters(place: Kind, text: &[u8]) -> Option<u128>
    ensures value { IfSome result (λ v. v ≡ text_word (bytes_in place) text.now) }
    ensures fits { IsKind place → IsLettersOf place text.now → IsSome result }
{
    let bytes = usize::from(place.bytes());
    if bytes > 8 || text.len() > bytes {
        return None;
    }
    Some(u128::from(text_number(text, bytes)))
}

/// The word of a number behind a minus sign in its kind.
#[tactic(auto, using(gl_values::proofs::KindLemmas::passes_test, gl_values::proofs::KindLemmas::tested_kind))]
fn negative(place: Kind, number: u128) -> Option<u128>
    ensures value { IfSome result (λ v. v ≡ negative_word place number) }
    ensures fits { IsKind place → IsSome result }
{
    if !place.is_kind() {
        return None;
    }
    Some(place.negative_word(number))
}

/// The word of one kind as another.
#[tactic(auto, using(crate::proofs::Widths::kind_width, crate::proofs::Widths::number_cast, crate::proofs::Widths::text_cast, gl_values::proofs::KindLemmas::cast_kind, gl_values::proofs::KindLemmas::passes_test, gl_values::proofs::KindLemmas::tested_kind))]
fn cast(from: Kind, to: Kind, word: u128) -> Option<u128>
    ensures value { IfSome result (λ v. v ≡ cast_of from to word) }
    ensures fits { IsKind from → IsTrue (can_cast from to) → word < 2 ^ 64 → IsSome result }
{
    if !from.is_kind() || !to.is_kind() {
        return None;
    }
    match from.family() {
        Family::Numbers => Some(from.resized(word, to.width())),
        Family::Texts => Some(word.checked_mul(power(to.bits())?)? / power(from.bits())?),
    }
}

/// What an operator gives of two words of a kind.
#[tactic(auto, using(gl_values::proofs::KindLemmas::passes_test, crate::proofs::Words::near_left, crate::proofs::Words::near_right), unfolding(gl_bits::specs::Words::sum_of, gl_bits::specs::Words::difference_of, gl_bits::specs::Words::product_of))]
fn operate(op: Op, kind: Kind, x: u128, y: u128) -> Option<u128>
    ensures value { IfSome result (λ v. v ≡ operate op kind x y) }
    ensures fits { IsKind kind → x < 2 ^ 64 → y < 2 ^ 64 → IsTrue (shifts_within op kind y)
        → IsSome result }
{
    if !kind.is_kind() {
        return None;
    }
    let bound = power(kind.bits())?;
    match op {
        Op::Add => Some(x.checked_add(y)? % bound),
        Op::Sub => Some(x.checked_add(bound.saturating_sub(y))? % bound),
        Op::Mul => Some(x.checked_mul(y)? % bound),
        Op::BitAnd => Some(x & y),
        Op::BitOr => Some(x | y),
        Op::BitXor => Some(x ^ y),
        Op::ShiftLeft => shifted_up(kind, x, y),
        Op::ShiftRight => shifted_down(kind, x, y),
        Op::Eq => equal(x, y),
        Op::Ne => Some(opposite(equal(x, y)?)),
        Op::Lt => bit(kind.is_below(x, y)),
        Op::Le => bit(kind.is_at_most(x, y)),
        Op::Gt => bit(kind.is_below(y, x)),
        Op::Ge => bit(kind.is_at_most(y, x)),
        Op::And => Some(x & y),
        Op::Or => Some(x | y),
    }
}

/// The value of an expression over a row, in a place that gives what is loose this kind.
pub fn value_of(columns: &[Column], place: Kind, expr: &Expr, row: &[u128]) -> Option<u128>
    ensures value { IfSome result (λ v. v
        ≡ value_of columns.now place (expr_shape expr.now) row.now) }
    ensures fits { HasWord columns.now place (expr_shape expr.now) row.now → IsSome result }
{
    match expr {
        Expr::Column(name) => Some(number_at(row, column_number(columns, name.text.as_slice()))),
        Expr::Number(n) => Some(n.value),
        Expr::Minus(n) => negative(place, n.value),
        Expr::Letters { text, .. } => letters(place, text.as_slice()),
        Expr::Not { arg, .. } => {
            let word = value_of(columns, Kind::Unsigned(1), arg, row)?;
            Some(opposite(word))
        }
        Expr::Flip { arg, .. } => {
            let word = value_of(columns, place, arg, row)?;
            flipped(kind_of(columns, place, arg), word)
        }
        Expr::Cast { arg, kind, .. } => {
            let own = kind_alone(arg);
            let word = value_of(columns, own, arg, row)?;
            cast(kind_of(columns, own, arg), *kind, word)
        }
        Expr::Binary {
            op,
            left,
            right,
            ..
        } => {
            let at_left = operand_place(columns, *op, place, left, right);
            let at_right = operand_place(columns, *op, place, right, left);
            let x = value_of(columns, at_left, left, row)?;
            let y = value_of(columns, at_right, right, row)?;
            operate(*op, kind_of(columns, at_left, left), x, y)
        }
    }
}

/// Whether a filter keeps a row.
pub fn keeps(columns: &[Column], filter: &Option<Expr>, row: &[u128]) -> Option<bool>
    ensures value { IfSome result (λ b. b
        ≡ keeps columns.now (option_map expr_shape filter.now) row.now) }
    ensures fits { IsFilter columns.now (option_map expr_shape filter.now)
        → IsRow columns.now row.now → IsSome result }
{
    match filter {
        None => Some(true),
        Some(expr) => Some(value_of(columns, Kind::Unsigned(1), expr, row)? == 1),
    }
}
