//! The value of an expression.

ghost use Rattle.std.specs.Prelude.{◌≡◌, ◌+◌, ◌-◌, ◌*◌, ◌^◌, ◌<◌, ◌≤◌};
ghost use Rattle.gl_bits.specs.Words.{not_of, join_of, cut_of, bit};
ghost use Rattle.gl_verilog.specs.Module.{binary_of, value_of};
ghost use Rattle.gl_verilog.specs.View.{op_of, expr_of};
ghost use Rattle.gl_verilog.specs.Evaluate.{nets_of, memories_of, CanEvaluate};

use crate::bank::Bank;
use crate::module::{BinaryOp, Expr};

/// The number whose `width` low bits are set.
pub fn mask(width: u8) -> u128
    requires { width ≤ 128 }
    ensures { result ≡ 2 ^ width - 1 }
{
    if width == 128 {
        u128::MAX
    } else {
        (1u128 << width) - 1
    }
}

// 1 for true, 0 for false.
fn truth(holds: bool) -> u128
    ensures value { result ≡ bit holds }
    ensures small { result < 2 }
{
    u128::from(holds)
}

#[tactic(auto, using(crate::proofs::Operators::operators))]
fn invert(width: u8, x: u128) -> u128
    requires width { width ≤ 128 }
    requires fits { x < 2 ^ width }
    ensures { result ≡ not_of width x }
{
    mask(width) - x
}

#[tactic(auto, using(crate::proofs::Operators::operators))]
fn join(low_width: u8, high: u128, low: u128) -> u128
    requires width { low_width < 128 }
    requires fits { high * 2 ^ low_width + low < 2 ^ 128 }
    ensures { result ≡ join_of low_width high low }
{
    high * (1u128 << low_width) + low
}

#[tactic(auto, using(crate::proofs::Operators::operators))]
fn select(high: u8, low: u8, x: u128) -> u128
    requires order { low ≤ high }
    requires width { high < 128 }
    ensures { result ≡ cut_of high low x }
{
    (x >> low) & mask(high + 1 - low)
}

#[tactic(auto, using(crate::proofs::Operators::operators))]
fn apply(op: BinaryOp, width: u8, x: u128, y: u128) -> u128
    requires width { width ≤ 128 }
    requires x_fits { x < 2 ^ width }
    requires y_fits { y < 2 ^ width }
    ensures { result ≡ binary_of (op_of op) width x y }
{
    match op {
        BinaryOp::Add => x.wrapping_add(y) & mask(width),
        BinaryOp::Sub => x.wrapping_sub(y) & mask(width),
        BinaryOp::Mul => x.wrapping_mul(y) & mask(width),
        BinaryOp::And => x & y,
        BinaryOp::Xor => x ^ y,
        BinaryOp::Or => x | y,
        BinaryOp::Eq => truth(x == y),
        BinaryOp::Ne => invert(1, truth(x == y)),
        BinaryOp::Lt => truth(x < y),
        BinaryOp::Le => truth(x <= y),
        BinaryOp::Gt => truth(y < x),
        BinaryOp::Ge => truth(y <= x),
    }
}

/// The value of an expression where the nets have these values and the memories these words, both
/// by the numbers of the declarations.
#[tactic(auto, using(crate::proofs::Operators::operators))]
pub fn evaluate(expr: &Expr, values: &[u128], banks: &[Bank]) -> u128
    requires { CanEvaluate values.now banks.now (expr_of expr.now) }
    ensures { result ≡ value_of (nets_of values.now) (memories_of banks.now) (expr_of expr.now) }
{
    match expr {
        Expr::Net(n) => values[*n],
        Expr::Literal { value, .. } => *value,
        Expr::Invert { width, arg } => invert(*width, evaluate(arg, values, banks)),
        Expr::Binary {
            op,
            width,
            left,
            right,
        } => {
            let x = evaluate(left, values, banks);
            let y = evaluate(right, values, banks);
            apply(*op, *width, x, y)
        }
        Expr::Choose { test, yes, no } => {
            if evaluate(test, values, banks) == 1 {
                evaluate(yes, values, banks)
            } else {
                evaluate(no, values, banks)
            }
        }
        Expr::Join {
            low_width,
            high,
            low,
        } => {
            let x = evaluate(high, values, banks);
            let y = evaluate(low, values, banks);
            join(*low_width, x, y)
        }
        Expr::Select { high, low, net } => select(*high, *low, values[*net]),
        Expr::Read { memory, address } => {
            let at = evaluate(address, values, banks);
            banks[*memory].get(at as usize)
        }
    }
}
