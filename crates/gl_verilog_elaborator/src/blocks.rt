//! Statements as they are written, from the left.

ghost use Rattle.std.specs.Prelude.{map};
ghost use Rattle.gl_verilog.specs.Written.{listed, IfThen, IfElse, Block};
ghost use Rattle.gl_verilog_elaborator.specs.Judged as judged;
ghost use Rattle.gl_verilog_elaborator.specs.View.{Gives, declarations_of, drivers_of, stated_of};
ghost use Rattle.gl_verilog_tokens.specs.View.{expr_of, statement_of};

use crate::drivers::{Drivers, leave_list, pass_by};
use crate::scope::{Scope, further};
use crate::statements::{MemoryWord, Stated, choice, test_typed, update, update_word};
use crate::stop::Stop;
use gl_verilog::Statement;
use gl_verilog_tokens::{WrittenExpr, WrittenStatement};
use std::alloc::Global;

// A `begin`, which is the token k, with its list of statements.
#[cycle(statement)]
fn block_made<'a>(
    alloc: Global,
    scope: &Scope,
    drivers: &mut Drivers<'a>,
    k: usize,
    statements: &[WrittenStatement<'a>],
) -> Result<Stated, Stop>
    ensures { Gives (stated_of drivers.new) (judged.judged_in (declarations_of scope.now)
        (drivers_of drivers.old) k (Block (listed (map statement_of statements.now)))) result }
{
    let beside = drivers.beside.len();
    let mut at = further(k, 1)?;
    let mut done = Vec::new(alloc);
    for statement in statements {
        let from = drivers.before.len();
        let one = statement_made(alloc, scope, drivers, at, statement)?;
        pass_by(drivers, from)?;
        at = one.end;
        done.push(one.statement)?;
    }
    leave_list(drivers, beside);
    let end = further(at, 1)?;
    Ok(Stated {
        statement: Statement::Block(done),
        end,
    })
}

// An `if` without an `else`, which is the token k.
#[cycle(statement)]
fn if_made<'a>(
    alloc: Global,
    scope: &Scope,
    drivers: &mut Drivers<'a>,
    k: usize,
    test: &WrittenExpr<'a>,
    yes: &WrittenStatement<'a>,
) -> Result<Stated, Stop>
    ensures { Gives (stated_of drivers.new) (judged.judged_in (declarations_of scope.now)
        (drivers_of drivers.old) k (IfThen (expr_of test.now) (statement_of yes.now))) result }
{
    let test = test_typed(alloc, scope, k, test)?;
    let first = further(test.end, 1)?;
    let yes = statement_made(alloc, scope, drivers, first, yes)?;
    let statement = choice(alloc, test.expr, yes.statement, Statement::Nothing)?;
    Ok(Stated {
        statement,
        end: yes.end,
    })
}

// The two statements of an `if` with an `else`.
#[derive(Drop)]
struct Branches<'w, 'a> {
    yes: &'w WrittenStatement<'a>,
    no: &'w WrittenStatement<'a>,
}

// An `if` with an `else`; the `if` is the token k.
#[cycle(statement)]
fn if_else_made<'a>(
    alloc: Global,
    scope: &Scope,
    drivers: &mut Drivers<'a>,
    k: usize,
    test: &WrittenExpr<'a>,
    branches: Branches<'_, 'a>,
) -> Result<Stated, Stop>
    ensures { Gives (stated_of drivers.new) (judged.judged_in (declarations_of scope.now)
        (drivers_of drivers.old) k (IfElse (expr_of test.now)
        (statement_of branches.entry.yes.now) (statement_of branches.entry.no.now))) result }
{
    let test = test_typed(alloc, scope, k, test)?;
    let first = further(test.end, 1)?;
    let yes = statement_made(alloc, scope, drivers, first, branches.yes)?;
    let second = further(yes.end, 1)?;
    let no = statement_made(alloc, scope, drivers, second, branches.no)?;
    let statement = choice(alloc, test.expr, yes.statement, no.statement)?;
    Ok(Stated {
        statement,
        end: no.end,
    })
}

/// What a statement means whose first token is k.
#[cycle(statement)]
#[tactic(auto, using(gl_verilog_tokens::proofs::Views::statements, gl_verilog_tokens::proofs::Views::block_is))]
pub(crate) fn statement_made<'a>(
    alloc: Global,
    scope: &Scope,
    drivers: &mut Drivers<'a>,
    k: usize,
    written: &WrittenStatement<'a>,
) -> Result<Stated, Stop>
    ensures { Gives (stated_of drivers.new) (judged.judged_in (declarations_of scope.now)
        (drivers_of drivers.old) k (statement_of written.now)) result }
{
    match written {
        WrittenStatement::Update { target, value } => {
            update(alloc, scope, drivers, k, *target, value)
        }
        WrittenStatement::UpdateWord {
            target,
            address,
            value,
        } => {
            let word = MemoryWord {
                memory: *target,
                address,
            };
            update_word(alloc, scope, drivers, k, word, value)
        }
        WrittenStatement::IfThen { test, yes, .. } => {
            if_made(alloc, scope, drivers, k, test, yes)
        }
        WrittenStatement::IfElse { test, yes, no, .. } => {
            if_else_made(alloc, scope, drivers, k, test, Branches { yes, no })
        }
        WrittenStatement::Block(statements) => {
            block_made(alloc, scope, drivers, k, statements.as_slice())
        }
    }
}
