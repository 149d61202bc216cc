//! Expressions, what they mean and how wide they are, operands before their operator.

ghost use Rattle.std.specs.Prelude.{◌≡◌, ◌+◌, Ok};
ghost use Rattle.gl_verilog.specs.Resolve as resolve;
ghost use Rattle.gl_verilog.specs.Resolve.{is_memory_kind};
ghost use Rattle.gl_verilog.specs.View.{kind_of, op_of};
ghost use Rattle.gl_verilog_faults.specs.Demands.{address_kind, gives_bit, takes_bits, takes_prefix};
ghost use Rattle.gl_verilog_elaborator.specs.Judged as judged;
ghost use Rattle.gl_verilog_elaborator.specs.View.{Gives, declarations_of, known_of, typed_of};
ghost use Rattle.gl_verilog_tokens.specs.View.{name_of, prefix_of, infix_of};

use crate::numbers::{big_number, literal_fits, narrow, part_of};
use crate::scope::{Known, Scope, further, read};
use crate::stop::{Rule, Stop};
use gl_verilog::{BinaryOp, Expr, Kind};
use gl_verilog_tokens::{InfixOp, PrefixOp, Word};
use std::alloc::Global;

/// What an expression means, its width, and the number of the token behind it.
#[derive(Drop)]
pub struct Typed {
    /// What the expression means.
    pub expr: Expr,
    /// How many bits it has.
    pub width: u8,
    /// The number of the token behind it, counted from 0.
    pub end: usize,
}

/// Whether it is a memory.
pub(crate) fn is_memory(kind: Kind) -> bool
    ensures { result ≡ is_memory_kind (kind_of kind) }
{
    matches!(kind, Kind::Memory { .. })
}

/// The address bits of a memory, else none.
pub(crate) fn address_bits(kind: Kind) -> u8
    ensures { result ≡ address_kind (kind_of kind) }
{
    match kind {
        Kind::Memory { address_bits } => address_bits,
        _ => 0,
    }
}

/// A net or a register.
pub(crate) fn net(scope: &Scope, k: usize, name: Word) -> Result<Typed, Stop>
    ensures { Gives typed_of (judged.judged_net (declarations_of scope.now) k (name_of name.entry))
        result }
{
    let known = read(scope, k, name)?;
    if is_memory(known.kind) {
        return Err(Stop::Broken {
            rule: Rule::BadMemory,
            token: k,
        });
    }
    let end = further(k, 1)?;
    Ok(Typed {
        expr: Expr::Net(known.number),
        width: known.width,
        end,
    })
}

/// A literal with its size.
pub(crate) fn literal(
    alloc: Global,
    k: usize,
    size: Word,
    radix: u8,
    digits: Word,
) -> Result<Typed, Stop>
    ensures { Gives typed_of (judged.judged_literal k (name_of size.entry) radix
        (name_of digits.entry)) result }
{
    if !literal_fits(alloc, size.bytes, radix, digits.bytes)? {
        return Err(Stop::Broken {
            rule: Rule::WidthsDiffer,
            token: k,
        });
    }
    let Some(width) = narrow(size.bytes) else {
        return Err(Stop::Broken {
            rule: Rule::TooWide,
            token: k,
        });
    };
    let end = further(k, 1)?;
    match big_number(radix, digits.bytes) {
        Some(value) => Ok(Typed {
            expr: Expr::Literal { value, width },
            width,
            end,
        }),
        // It fits 128 bits, so this does not come.
        None => Err(Stop::Memory),
    }
}

/// Some bits of a net or a register; `end` is the token behind them.
pub(crate) fn select(
    scope: &Scope,
    k: usize,
    name: Word,
    high: Word,
    low: Word,
    end: usize,
) -> Result<Typed, Stop>
    ensures { Gives typed_of (judged.judged_select (declarations_of scope.now) k
        (name_of name.entry) (resolve.decimal_number (name_of high.entry))
        (resolve.decimal_number (name_of low.entry)) end) result }
{
    let known = read(scope, k, name)?;
    if is_memory(known.kind) {
        return Err(Stop::Broken {
            rule: Rule::BadMemory,
            token: k,
        });
    }
    let differ = Stop::Broken {
        rule: Rule::WidthsDiffer,
        token: k,
    };
    if !known.is_vector {
        return Err(differ);
    }
    let Some(part) = part_of(known.width, high.bytes, low.bytes) else {
        return Err(differ);
    };
    Ok(Typed {
        expr: Expr::Select {
            high: part.high,
            low: part.low,
            net: known.number,
        },
        width: part.high - part.low + 1,
        end,
    })
}

/// A memory that is indexed.
pub(crate) fn memory(scope: &Scope, k: usize, name: Word) -> Result<Known, Stop>
    ensures { Gives known_of (judged.judged_memory (declarations_of scope.now) k
        (name_of name.entry)) result }
{
    let known = read(scope, k, name)?;
    if !is_memory(known.kind) {
        return Err(Stop::Broken {
            rule: Rule::BadMemory,
            token: k,
        });
    }
    Ok(known)
}

/// The word of a memory at an address.
pub(crate) fn word(alloc: Global, k: usize, known: Known, address: Typed) -> Result<Typed, Stop>
    ensures { Gives typed_of (judged.judged_word k (known_of known) (typed_of address)) result }
{
    if address_bits(known.kind) != address.width {
        return Err(Stop::Broken {
            rule: Rule::BadMemory,
            token: k,
        });
    }
    let end = further(address.end, 1)?;
    let address = Box::new(alloc, address.expr)?;
    Ok(Typed {
        expr: Expr::Read {
            memory: known.number,
            address,
        },
        width: known.width,
        end,
    })
}

/// One token more stands behind an expression.
pub(crate) fn closed(inner: Typed) -> Result<Typed, Stop>
    ensures { Gives typed_of (Ok (judged.closed (typed_of inner))) result }
{
    let end = further(inner.end, 1)?;
    Ok(Typed {
        expr: inner.expr,
        width: inner.width,
        end,
    })
}

// Whether a prefix operator takes an operand of this width.
fn prefix_takes(op: PrefixOp, width: u8) -> bool
    ensures { result ≡ takes_prefix (prefix_of op) width }
{
    match op {
        PrefixOp::BitNot => true,
        PrefixOp::LogicalNot => width == 1,
    }
}

/// A prefix operator, which is the token k, and its operand.
pub(crate) fn prefix(alloc: Global, k: usize, op: PrefixOp, arg: Typed) -> Result<Typed, Stop>
    ensures { Gives typed_of (judged.judged_prefix k (prefix_of op) (typed_of arg)) result }
{
    if !prefix_takes(op, arg.width) {
        return Err(Stop::Broken {
            rule: Rule::WidthsDiffer,
            token: k,
        });
    }
    let width = arg.width;
    let end = arg.end;
    let arg = Box::new(alloc, arg.expr)?;
    Ok(Typed {
        expr: Expr::Invert { width, arg },
        width,
        end,
    })
}

// The operator that is meant.
fn meaning_of(op: InfixOp) -> BinaryOp
    ensures { op_of result ≡ judged.op_meant (infix_of op) }
{
    match op {
        InfixOp::Times => BinaryOp::Mul,
        InfixOp::Added => BinaryOp::Add,
        InfixOp::Subtracted => BinaryOp::Sub,
        InfixOp::Below => BinaryOp::Lt,
        InfixOp::AtMost => BinaryOp::Le,
        InfixOp::Above => BinaryOp::Gt,
        InfixOp::AtLeast => BinaryOp::Ge,
        InfixOp::Equal => BinaryOp::Eq,
        InfixOp::NotEqual => BinaryOp::Ne,
        InfixOp::BitAnd | InfixOp::LogicalAnd => BinaryOp::And,
        InfixOp::BitXor => BinaryOp::Xor,
        InfixOp::BitOr | InfixOp::LogicalOr => BinaryOp::Or,
    }
}

// Whether an operator gives one bit, whatever its operands' width.
fn is_test(op: InfixOp) -> bool
    ensures { result ≡ gives_bit (infix_of op) }
{
    matches!(
        op,
        InfixOp::Below
            | InfixOp::AtMost
            | InfixOp::Above
            | InfixOp::AtLeast
            | InfixOp::Equal
            | InfixOp::NotEqual
    )
}

// Whether an operator takes operands of one bit alone.
fn is_logical(op: InfixOp) -> bool
    ensures { result ≡ takes_bits (infix_of op) }
{
    matches!(op, InfixOp::LogicalAnd | InfixOp::LogicalOr)
}

// The width of what an operator gives for operands of this width.
fn width_after(op: InfixOp, width: u8) -> u8
    ensures { result ≡ judged.infix_width (infix_of op) width }
{
    if is_test(op) { 1 } else { width }
}

/// An operator and its operands; it is the token behind the left one.
pub(crate) fn infix(alloc: Global, op: InfixOp, left: Typed, right: Typed) -> Result<Typed, Stop>
    ensures { Gives typed_of (judged.judged_infix (infix_of op) (typed_of left) (typed_of right))
        result }
{
    let width = left.width;
    if width != right.width || (is_logical(op) && width != 1) {
        return Err(Stop::Broken {
            rule: Rule::WidthsDiffer,
            token: left.end,
        });
    }
    let end = right.end;
    let left = Box::new(alloc, left.expr)?;
    let right = Box::new(alloc, right.expr)?;
    Ok(Typed {
        expr: Expr::Binary {
            op: meaning_of(op),
            width,
            left,
            right,
        },
        width: width_after(op, width),
        end,
    })
}

/// One of two by a test; the `?` is the token behind the test.
pub(crate) fn choice(alloc: Global, test: Typed, yes: Typed, no: Typed) -> Result<Typed, Stop>
    ensures { Gives typed_of (judged.judged_choice (typed_of test) (typed_of yes) (typed_of no))
        result }
{
    let width = yes.width;
    if test.width != 1 || width != no.width {
        return Err(Stop::Broken {
            rule: Rule::WidthsDiffer,
            token: test.end,
        });
    }
    let end = no.end;
    let test = Box::new(alloc, test.expr)?;
    let yes = Box::new(alloc, yes.expr)?;
    let no = Box::new(alloc, no.expr)?;
    Ok(Typed {
        expr: Expr::Choose { test, yes, no },
        width,
        end,
    })
}
