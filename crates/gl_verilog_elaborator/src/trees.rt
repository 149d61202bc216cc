//! Expressions as they are written, from the left.

ghost use Rattle.std.specs.Prelude.{◌≡◌, ◌≤◌, ◌+◌, [], map, nat_le, Ok};
ghost use Rattle.gl_verilog.specs.Written.{BitOf, PartOf, WordOf, Braces, Parens, Prefix, Infix, Conditional};
ghost use Rattle.gl_verilog_elaborator.specs.Judged as judged;
ghost use Rattle.gl_verilog_elaborator.specs.View.{Gives, declarations_of, typed_of};
ghost use Rattle.gl_verilog_tokens.specs.View.{name_of, prefix_of, infix_of, expr_of, parts_list};

use crate::expressions::{
    Typed, choice, closed, infix, literal, memory, net, prefix, select, word,
};
use crate::scope::{Scope, further};
use crate::stop::{Rule, Stop};
use gl_verilog::Expr;
use gl_verilog_tokens::{InfixOp, PrefixOp, Word, WrittenExpr};
use std::alloc::Global;

// Whether parts have at most 128 bits together with a last one.
fn are_narrow(parts: &[Typed], last: u8) -> bool
    ensures { result ≡ nat_le (judged.widths_of (map typed_of parts.now) + last) 128 }
{
    let mut width = u16::from(last);
    for part in parts {
        if width > 128 {
            return false;
        }
        width += u16::from(part.width);
    }
    width <= 128
}

// The first of two parts above the second.
fn join(alloc: Global, high: Typed, low: Typed) -> Result<Typed, Stop>
    requires { high.width + low.width ≤ 128 }
    ensures { Gives typed_of (Ok (judged.joined (typed_of high) (typed_of low))) result }
{
    let width = high.width + low.width;
    let low_width = low.width;
    let end = low.end;
    let high = Box::new(alloc, high.expr)?;
    let low = Box::new(alloc, low.expr)?;
    Ok(Typed {
        expr: Expr::Join {
            low_width,
            high,
            low,
        },
        width,
        end,
    })
}

// Parts above a last one.
fn join_on(alloc: Global, parts: Vec<Typed>, last: Typed) -> Result<Typed, Stop>
    requires { judged.widths_of (map typed_of parts.items) + last.width ≤ 128 }
    ensures { Gives typed_of (Ok (judged.joined_on (map typed_of parts.items) (typed_of last)))
        result }
{
    let mut rest = parts;
    let mut all = last;
    while let Some(part) = rest.pop() {
        all = join(alloc, part, all)?;
    }
    Ok(all)
}

// All parts in braces, which are the token k.
fn enclose(alloc: Global, k: usize, parts: Vec<Typed>, last: Typed) -> Result<Typed, Stop>
    ensures { Gives typed_of (judged.judged_braces k
        (judged.joined_on (map typed_of parts.items) (typed_of last))) result }
{
    if !are_narrow(&parts, last.width) {
        return Err(Stop::Broken {
            rule: Rule::TooWide,
            token: k,
        });
    }
    let all = join_on(alloc, parts, last)?;
    closed(all)
}

// Braces without a part, which the grammar does not have: as a name without a letter in them.
fn empty_braces(alloc: Global, scope: &Scope, k: usize) -> Result<Typed, Stop>
    ensures { Gives typed_of (judged.judged_expr (declarations_of scope.now) k
        (Braces (parts_list (map expr_of [])))) result }
{
    let first = further(k, 1)?;
    let name = Word {
        bytes: b"".as_slice(),
        at: 0,
    };
    let inner = net(scope, first, name)?;
    enclose(alloc, k, Vec::new(alloc), inner)
}

// The parts in braces, one after another; the first begins at the token k.
#[cycle(tree)]
fn parts_typed(
    alloc: Global,
    scope: &Scope,
    k: usize,
    parts: &[WrittenExpr],
) -> Result<Vec<Typed>, Stop>
    ensures { Gives (λ v. map typed_of v.items) (judged.judged_parts (declarations_of scope.now) k
        (map expr_of parts.now)) result }
{
    let mut at = k;
    let mut done = Vec::new(alloc);
    for part in parts {
        let typed = expr_typed(alloc, scope, at, part)?;
        at = further(typed.end, 1)?;
        done.push(typed)?;
    }
    Ok(done)
}

// Parts in braces, which are the token k.
#[cycle(tree)]
fn braces_typed(
    alloc: Global,
    scope: &Scope,
    k: usize,
    parts: &[WrittenExpr],
) -> Result<Typed, Stop>
    ensures { Gives typed_of (judged.judged_expr (declarations_of scope.now) k
        (Braces (parts_list (map expr_of parts.now)))) result }
{
    if parts.len() < 1 {
        return empty_braces(alloc, scope, k);
    }
    let first = further(k, 1)?;
    let mut done = parts_typed(alloc, scope, first, parts)?;
    match done.pop() {
        Some(last) => enclose(alloc, k, done, last),
        // There are parts, so this does not come.
        None => Err(Stop::Memory),
    }
}

// A bit of a name, which is the token k.
fn bit_typed(scope: &Scope, k: usize, name: Word, place: Word) -> Result<Typed, Stop>
    ensures { Gives typed_of (judged.judged_expr (declarations_of scope.now) k
        (BitOf (name_of name.entry) (name_of place.entry))) result }
{
    let end = further(k, 4)?;
    select(scope, k, name, place, place, end)
}

// Some bits of a name, which is the token k.
fn part_typed(scope: &Scope, k: usize, name: Word, high: Word, low: Word) -> Result<Typed, Stop>
    ensures { Gives typed_of (judged.judged_expr (declarations_of scope.now) k
        (PartOf (name_of name.entry) (name_of high.entry) (name_of low.entry))) result }
{
    let end = further(k, 6)?;
    select(scope, k, name, high, low, end)
}

// A word of a memory, whose name is the token k.
#[cycle(tree)]
fn word_typed(
    alloc: Global,
    scope: &Scope,
    k: usize,
    name: Word,
    address: &WrittenExpr,
) -> Result<Typed, Stop>
    ensures { Gives typed_of (judged.judged_expr (declarations_of scope.now) k
        (WordOf (name_of name.entry) (expr_of address.now))) result }
{
    let known = memory(scope, k, name)?;
    let first = further(k, 2)?;
    let address = expr_typed(alloc, scope, first, address)?;
    word(alloc, k, known, address)
}

// An expression in parentheses, of which the first is the token k.
#[cycle(tree)]
fn parens_typed(alloc: Global, scope: &Scope, k: usize, inner: &WrittenExpr) -> Result<Typed, Stop>
    ensures { Gives typed_of (judged.judged_expr (declarations_of scope.now) k
        (Parens (expr_of inner.now))) result }
{
    let first = further(k, 1)?;
    let inner = expr_typed(alloc, scope, first, inner)?;
    closed(inner)
}

// A prefix operator, which is the token k, and its operand.
#[cycle(tree)]
fn prefix_typed(
    alloc: Global,
    scope: &Scope,
    k: usize,
    op: PrefixOp,
    arg: &WrittenExpr,
) -> Result<Typed, Stop>
    ensures { Gives typed_of (judged.judged_expr (declarations_of scope.now) k
        (Prefix (prefix_of op) (expr_of arg.now))) result }
{
    let first = further(k, 1)?;
    let arg = expr_typed(alloc, scope, first, arg)?;
    prefix(alloc, k, op, arg)
}

// An operator between two operands, of which the left one begins at the token k.
#[cycle(tree)]
fn infix_typed(
    alloc: Global,
    scope: &Scope,
    k: usize,
    op: InfixOp,
    left: &WrittenExpr,
    right: &WrittenExpr,
) -> Result<Typed, Stop>
    ensures { Gives typed_of (judged.judged_expr (declarations_of scope.now) k
        (Infix (infix_of op) (expr_of left.now) (expr_of right.now))) result }
{
    let left = expr_typed(alloc, scope, k, left)?;
    let first = further(left.end, 1)?;
    let right = expr_typed(alloc, scope, first, right)?;
    infix(alloc, op, left, right)
}

// One of two by a test, which begins at the token k.
#[cycle(tree)]
fn choice_typed(
    alloc: Global,
    scope: &Scope,
    k: usize,
    test: &WrittenExpr,
    yes: &WrittenExpr,
    no: &WrittenExpr,
) -> Result<Typed, Stop>
    ensures { Gives typed_of (judged.judged_expr (declarations_of scope.now) k
        (Conditional (expr_of test.now) (expr_of yes.now) (expr_of no.now))) result }
{
    let test = expr_typed(alloc, scope, k, test)?;
    let first = further(test.end, 1)?;
    let yes = expr_typed(alloc, scope, first, yes)?;
    let second = further(yes.end, 1)?;
    let no = expr_typed(alloc, scope, second, no)?;
    choice(alloc, test, yes, no)
}

/// What an expression means whose first token is k.
#[cycle(tree)]
#[tactic(auto, using(gl_verilog_tokens::proofs::Views::expressions))]
pub(crate) fn expr_typed(
    alloc: Global,
    scope: &Scope,
    k: usize,
    written: &WrittenExpr,
) -> Result<Typed, Stop>
    ensures { Gives typed_of (judged.judged_expr (declarations_of scope.now) k
        (expr_of written.now)) result }
{
    match written {
        WrittenExpr::Named(name) => net(scope, k, *name),
        WrittenExpr::Constant {
            size,
            radix,
            digits,
        } => literal(alloc, k, *size, *radix, *digits),
        WrittenExpr::BitOf { name, place } => bit_typed(scope, k, *name, *place),
        WrittenExpr::PartOf { name, high, low } => part_typed(scope, k, *name, *high, *low),
        WrittenExpr::WordOf { name, address } => word_typed(alloc, scope, k, *name, address),
        WrittenExpr::Braces { parts, .. } => braces_typed(alloc, scope, k, parts.as_slice()),
        WrittenExpr::Parens(inner) => parens_typed(alloc, scope, k, inner),
        WrittenExpr::Prefix { op, arg, .. } => prefix_typed(alloc, scope, k, *op, arg),
        WrittenExpr::Infix {
            op,
            left,
            right,
            ..
        } => infix_typed(alloc, scope, k, *op, left, right),
        WrittenExpr::Conditional { test, yes, no, .. } => {
            choice_typed(alloc, scope, k, test, yes, no)
        }
    }
}
