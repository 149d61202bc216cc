//! Statements of clocked blocks.

ghost use Rattle.std.specs.Prelude.{◌≡◌, Ok};
ghost use Rattle.gl_verilog.specs.Module as spec;
ghost use Rattle.gl_verilog.specs.Written as written;
ghost use Rattle.gl_verilog.specs.View.{kind_of, statement_of as meant_of, expr_of as value_of};
ghost use Rattle.gl_verilog_faults.specs.Demands.{is_clocked_kind};
ghost use Rattle.gl_verilog_elaborator.specs.Judged as judged;
ghost use Rattle.gl_verilog_elaborator.specs.View.{Gives, declarations_of, typed_of, drivers_of, stated_of};
ghost use Rattle.gl_verilog_tokens.specs.View.{name_of, expr_of};

use crate::drivers::{Drivers, drive, has};
use crate::expressions::{Typed, address_bits, is_memory};
use crate::scope::{Scope, further, named};
use crate::stop::{Rule, Stop};
use crate::trees::expr_typed;
use gl_verilog::{Expr, Kind, Statement};
use gl_verilog_tokens::{Word, WrittenExpr};
use std::alloc::Global;

/// What a statement means, and the number of the token behind it.
#[derive(Drop)]
pub struct Stated {
    /// What the statement means.
    pub statement: Statement,
    /// The number of the token behind it, counted from 0.
    pub end: usize,
}

/// A word of a memory.
#[derive(Drop)]
pub(crate) struct MemoryWord<'w, 'a> {
    /// The name of the memory.
    pub(crate) memory: Word<'a>,
    /// The address of the word.
    pub(crate) address: &'w WrittenExpr<'a>,
}

// Whether a block can drive it.
fn is_clocked(kind: Kind) -> bool
    ensures { result ≡ is_clocked_kind (kind_of kind) }
{
    matches!(
        kind,
        Kind::OutputRegister | Kind::Register | Kind::Memory { .. }
    )
}

// The number of a register that takes a value of this width; its name is the token k.
fn register_of(
    scope: &Scope,
    drivers: &Drivers,
    k: usize,
    target: Word,
    width: u8,
) -> Result<usize, Stop>
    ensures { Gives (λ n. n) (judged.put_target (declarations_of scope.now)
        (drivers_of drivers.now) k (name_of target.entry) width) result }
{
    let known = named(scope, k, target)?;
    if !is_clocked(known.kind) {
        return Err(Stop::Broken {
            rule: Rule::BadTarget,
            token: k,
        });
    }
    if is_memory(known.kind) {
        return Err(Stop::Broken {
            rule: Rule::BadMemory,
            token: k,
        });
    }
    if has(&drivers.done, target.bytes) || has(&drivers.beside, target.bytes) {
        return Err(Stop::Broken {
            rule: Rule::TwiceDriven,
            token: k,
        });
    }
    if known.width != width {
        return Err(Stop::Broken {
            rule: Rule::WidthsDiffer,
            token: k,
        });
    }
    Ok(known.number)
}

// A register, whose name is the token k, takes a value.
fn put<'a>(
    scope: &Scope,
    drivers: &mut Drivers<'a>,
    k: usize,
    target: Word<'a>,
    value: Typed,
) -> Result<Stated, Stop>
    ensures { Gives (stated_of drivers.new) (judged.judged_put (declarations_of scope.now)
        (drivers_of drivers.old) k (name_of target.entry) (typed_of value)) result }
{
    let register = register_of(scope, drivers, k, target, value.width)?;
    drive(drivers, target)?;
    let end = further(value.end, 1)?;
    Ok(Stated {
        statement: Statement::Put {
            register,
            value: value.expr,
        },
        end,
    })
}

// The number of a memory that takes a value of this width at an address of that width; its name is
// the token k.
fn memory_of(
    scope: &Scope,
    drivers: &Drivers,
    k: usize,
    target: Word,
    address: u8,
    width: u8,
) -> Result<usize, Stop>
    ensures { Gives (λ n. n) (judged.write_target (declarations_of scope.now)
        (drivers_of drivers.now) k (name_of target.entry) address width) result }
{
    let known = named(scope, k, target)?;
    if !is_clocked(known.kind) {
        return Err(Stop::Broken {
            rule: Rule::BadTarget,
            token: k,
        });
    }
    if !is_memory(known.kind) || address_bits(known.kind) != address {
        return Err(Stop::Broken {
            rule: Rule::BadMemory,
            token: k,
        });
    }
    if has(&drivers.all, target.bytes) {
        return Err(Stop::Broken {
            rule: Rule::TwiceDriven,
            token: k,
        });
    }
    if known.width != width {
        return Err(Stop::Broken {
            rule: Rule::WidthsDiffer,
            token: k,
        });
    }
    Ok(known.number)
}

// A word of a memory, whose name is the token k, takes a value.
fn write<'a>(
    scope: &Scope,
    drivers: &mut Drivers<'a>,
    k: usize,
    target: Word<'a>,
    address: Typed,
    value: Typed,
) -> Result<Stated, Stop>
    ensures { Gives (stated_of drivers.new) (judged.judged_write (declarations_of scope.now)
        (drivers_of drivers.old) k (name_of target.entry) (typed_of address) (typed_of value))
        result }
{
    let memory = memory_of(scope, drivers, k, target, address.width, value.width)?;
    drive(drivers, target)?;
    let end = further(value.end, 1)?;
    Ok(Stated {
        statement: Statement::Write {
            memory,
            address: address.expr,
            value: value.expr,
        },
        end,
    })
}

/// The condition of an `if`, which is the token k.
pub(crate) fn test_typed(
    alloc: Global,
    scope: &Scope,
    k: usize,
    test: &WrittenExpr,
) -> Result<Typed, Stop>
    ensures { Gives typed_of (judged.judged_test (declarations_of scope.now) k (expr_of test.now))
        result }
{
    let first = further(k, 2)?;
    let typed = expr_typed(alloc, scope, first, test)?;
    if typed.width != 1 {
        return Err(Stop::Broken {
            rule: Rule::WidthsDiffer,
            token: k,
        });
    }
    Ok(typed)
}

/// One of two statements.
pub(crate) fn choice(
    alloc: Global,
    test: Expr,
    yes: Statement,
    no: Statement,
) -> Result<Statement, Stop>
    ensures { Gives meant_of (Ok (spec.If (value_of test) (meant_of yes) (meant_of no))) result }
{
    let yes = Box::new(alloc, yes)?;
    let no = Box::new(alloc, no)?;
    Ok(Statement::If { test, yes, no })
}

/// A register takes a value.
pub(crate) fn update<'a>(
    alloc: Global,
    scope: &Scope,
    drivers: &mut Drivers<'a>,
    k: usize,
    target: Word<'a>,
    value: &WrittenExpr<'a>,
) -> Result<Stated, Stop>
    ensures { Gives (stated_of drivers.new) (judged.judged_in (declarations_of scope.now)
        (drivers_of drivers.old) k (written.Update (name_of target.entry) (expr_of value.now)))
        result }
{
    let first = further(k, 2)?;
    let value = expr_typed(alloc, scope, first, value)?;
    put(scope, drivers, k, target, value)
}

/// A word of a memory takes a value.
pub(crate) fn update_word<'a>(
    alloc: Global,
    scope: &Scope,
    drivers: &mut Drivers<'a>,
    k: usize,
    target: MemoryWord<'_, 'a>,
    value: &WrittenExpr<'a>,
) -> Result<Stated, Stop>
    ensures { Gives (stated_of drivers.new) (judged.judged_in (declarations_of scope.now)
        (drivers_of drivers.old) k (written.UpdateWord (name_of target.entry.memory)
        (expr_of target.entry.address.now) (expr_of value.now))) result }
{
    let first = further(k, 2)?;
    let address = expr_typed(alloc, scope, first, target.address)?;
    let second = further(address.end, 2)?;
    let value = expr_typed(alloc, scope, second, value)?;
    write(scope, drivers, k, target.memory, address, value)
}
