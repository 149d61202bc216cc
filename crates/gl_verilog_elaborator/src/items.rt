//! Items, in the order of the text.

ghost use Rattle.std.specs.Prelude.{◌≡◌, map, Ok};
ghost use Rattle.gl_verilog.specs.View.{kind_of};
ghost use Rattle.gl_verilog_faults.specs.Demands.{is_wire_kind};
ghost use Rattle.gl_verilog_elaborator.specs.Elaborated as made;
ghost use Rattle.gl_verilog_elaborator.specs.View.{Gives, declarations_of, drivers_of, typed_of, elaborated_of};
ghost use Rattle.gl_verilog_tokens.specs.View.{name_of, names_of, range_of, expr_of, statement_of, item_of};

use crate::blocks::statement_made;
use crate::declarations::{declare_all, declare_memory};
use crate::drivers::{Drivers, assign, begin_block, end_block, has};
use crate::expressions::{Typed, is_memory};
use crate::scope::{Scope, further, named};
use crate::stop::{Rule, Stop};
use crate::trees::expr_typed;
use gl_verilog::{Assignment, Kind, Statement};
use gl_verilog_tokens::{Word, WrittenExpr, WrittenItem, WrittenStatement, tokens_of_range};
use std::alloc::Global;

/// What was elaborated so far: declarations, assignments with the tokens of their targets, blocks,
/// what has a driver, and the number of the next token.
#[derive(Drop)]
pub struct Elaborated<'a> {
    /// The declarations, by their names.
    pub scope: Scope<'a>,
    /// The assignments, in the order of the text.
    pub assignments: Vec<Assignment>,
    /// For each assignment the number of its target's token.
    pub targets: Vec<usize>,
    /// The bodies of the clocked blocks, in the order of the text.
    pub blocks: Vec<Statement>,
    /// The names that have a driver.
    pub drivers: Drivers<'a>,
    /// The number of the next token, counted from 0.
    pub end: usize,
}

// Names of one kind.
fn take_names<'a>(
    e: &mut Elaborated<'a>,
    kind: Kind,
    range: Option<Word<'a>>,
    names: &[Word<'a>],
) -> Result<(), Stop>
    ensures { Gives (λ _. elaborated_of e.new) (made.elaborated_names (kind_of kind)
        (range_of range.entry) (elaborated_of e.old) (names_of names.now)) result }
{
    let first = further(e.end, 1)?;
    let first = further(first, tokens_of_range(range))?;
    declare_all(&mut e.scope, first, kind, range, names)?;
    let Some(size) = names.len().checked_mul(2) else {
        return Err(Stop::Memory);
    };
    e.end = further(first, size)?;
    Ok(())
}

// A memory.
fn take_memory<'a>(
    e: &mut Elaborated<'a>,
    range: Option<Word<'a>>,
    name: Word<'a>,
    last: Word,
) -> Result<(), Stop>
    ensures { Gives (λ _. elaborated_of e.new) (made.elaborated_memory (elaborated_of e.old)
        (range_of range.entry) (name_of name.entry) (name_of last.entry)) result }
{
    let first = further(e.end, 1)?;
    let first = further(first, tokens_of_range(range))?;
    declare_memory(&mut e.scope, first, range, name, last)?;
    e.end = further(first, 7)?;
    Ok(())
}

// Whether an assignment can drive it.
fn is_wire(kind: Kind) -> bool
    ensures { result ≡ is_wire_kind (kind_of kind) }
{
    matches!(kind, Kind::OutputWire | Kind::Wire)
}

// The number of an assignment's target, which is the token k, for a value of this width.
fn target_of(
    scope: &Scope,
    drivers: &Drivers,
    k: usize,
    target: Word,
    width: u8,
) -> Result<usize, Stop>
    ensures { Gives (λ n. n) (made.assignment_target (declarations_of scope.now)
        (drivers_of drivers.now) k (name_of target.entry) width) result }
{
    let known = named(scope, k, target)?;
    if !is_wire(known.kind) {
        return Err(Stop::Broken {
            rule: Rule::BadTarget,
            token: k,
        });
    }
    if has(&drivers.done, target.bytes) {
        return Err(Stop::Broken {
            rule: Rule::TwiceDriven,
            token: k,
        });
    }
    if known.width != width {
        return Err(Stop::Broken {
            rule: Rule::WidthsDiffer,
            token: k,
        });
    }
    Ok(known.number)
}

// An assignment, whose target is the token k, is put behind the others.
fn put_assignment<'a>(
    e: &mut Elaborated<'a>,
    k: usize,
    target: Word<'a>,
    number: usize,
    value: Typed,
) -> Result<(), Stop>
    ensures { Gives (λ _. elaborated_of e.new) (Ok (made.with_assignment (elaborated_of e.old) k
        (name_of target.entry) number (typed_of value))) result }
{
    e.end = further(value.end, 1)?;
    e.assignments.push(Assignment {
        target: number,
        value: value.expr,
    })?;
    e.targets.push(k)?;
    assign(&mut e.drivers, target)
}

// An assignment.
fn take_assignment<'a>(
    alloc: Global,
    e: &mut Elaborated<'a>,
    target: Word<'a>,
    value: &WrittenExpr<'a>,
) -> Result<(), Stop>
    ensures { Gives (λ _. elaborated_of e.new) (made.elaborated_assignment (elaborated_of e.old)
        (name_of target.entry) (expr_of value.now)) result }
{
    let first = further(e.end, 3)?;
    let value = expr_typed(alloc, &e.scope, first, value)?;
    let k = further(e.end, 1)?;
    let number = target_of(&e.scope, &e.drivers, k, target, value.width)?;
    put_assignment(e, k, target, number, value)
}

// The clock of a block, which is the token k.
fn test_clock(scope: &Scope, k: usize, clock: Word) -> Result<(), Stop>
    ensures { Gives (λ u. u) (made.tested_clock (declarations_of scope.now) k
        (name_of clock.entry)) result }
{
    let known = named(scope, k, clock)?;
    if clock.bytes != b"clk".as_slice() {
        return Err(Stop::Broken {
            rule: Rule::ClockRead,
            token: k,
        });
    }
    if is_memory(known.kind) {
        return Err(Stop::Broken {
            rule: Rule::BadMemory,
            token: k,
        });
    }
    Ok(())
}

// A block, whose statement begins at the token k.
fn put_block<'a>(
    alloc: Global,
    e: &mut Elaborated<'a>,
    k: usize,
    body: &WrittenStatement<'a>,
) -> Result<(), Stop>
    ensures { Gives (λ _. elaborated_of e.new) (made.put_block (elaborated_of e.old) k
        (statement_of body.now)) result }
{
    begin_block(&mut e.drivers);
    let stated = statement_made(alloc, &e.scope, &mut e.drivers, k, body)?;
    end_block(&mut e.drivers)?;
    e.blocks.push(stated.statement)?;
    e.end = stated.end;
    Ok(())
}

// A clocked block.
fn take_block<'a>(
    alloc: Global,
    e: &mut Elaborated<'a>,
    clock: Word,
    body: &WrittenStatement<'a>,
) -> Result<(), Stop>
    ensures { Gives (λ _. elaborated_of e.new) (made.elaborated_block (elaborated_of e.old)
        (name_of clock.entry) (statement_of body.now)) result }
{
    let k = further(e.end, 4)?;
    test_clock(&e.scope, k, clock)?;
    let first = further(e.end, 6)?;
    put_block(alloc, e, first, body)
}

// An item.
#[tactic(auto, using(gl_verilog_tokens::proofs::Views::items))]
fn take_item<'a>(alloc: Global, e: &mut Elaborated<'a>, item: &WrittenItem<'a>) -> Result<(), Stop>
    ensures { Gives (λ _. elaborated_of e.new) (made.elaborated_item (elaborated_of e.old)
        (item_of item.now)) result }
{
    match item {
        WrittenItem::Wires { range, names } => {
            take_names(e, Kind::Wire, *range, names.as_slice())
        }
        WrittenItem::Registers { range, names } => {
            take_names(e, Kind::Register, *range, names.as_slice())
        }
        WrittenItem::MemoryOf { range, name, last } => take_memory(e, *range, *name, *last),
        WrittenItem::Assign { target, value } => take_assignment(alloc, e, *target, value),
        WrittenItem::Always { clock, body } => take_block(alloc, e, *clock, body),
    }
}

/// All items.
pub(crate) fn take_items<'a>(
    alloc: Global,
    e: &mut Elaborated<'a>,
    items: &[WrittenItem<'a>],
) -> Result<(), Stop>
    ensures { Gives (λ _. elaborated_of e.new) (made.elaborated_items (elaborated_of e.old)
        (map item_of items.now)) result }
{
    for item in items {
        take_item(alloc, e, item)?;
    }
    Ok(())
}
