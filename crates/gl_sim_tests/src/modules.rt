//! Modules that are made by hand, as no text has them.

ghost use Rattle.std.specs.Prelude.{◌<◌, IfOk, IfSome};
ghost use Rattle.gl_verilog.specs.View.{module_of};
ghost use Rattle.gl_verilog.specs.Runnable.{IsRunnable};

use gl_bits::{Listed, Memory};
use gl_verilog::{Assignment, Declaration, Expr, Kind, Module};
use gl_verilog_check::is_runnable;
use std::alloc::Global;

// Declarations of these kinds and widths, numbered from 0.
fn declared(alloc: Global, all: &[(Kind, u8)]) -> Result<Listed<Declaration>, Memory> {
    let mut declarations = Listed::new(alloc);
    for (kind, width) in all {
        declarations.push(Declaration {
            name: Listed::new(alloc),
            width: *width,
            is_vector: true,
            kind: *kind,
        })?;
    }
    Ok(declarations)
}

// A module of these parts and no blocks, if it is one that can run.
fn module(
    alloc: Global,
    all: &[(Kind, u8)],
    assignments: Vec<Assignment>,
) -> Result<Option<Module>, Memory>
    ensures { IfOk result (λ o. IfSome o (λ m. IsRunnable (module_of m))) }
{
    let design = Module {
        name: Listed::new(alloc),
        ports: 0,
        declarations: declared(alloc, all)?,
        assignments: Listed::from_vec(assignments),
        blocks: Listed::new(alloc),
    };
    runnable(alloc, design)
}

/// A module, if it is one that can run.
pub fn runnable(alloc: Global, design: Module) -> Result<Option<Module>, Memory>
    ensures { IfOk result (λ o. IfSome o (λ m. IsRunnable (module_of m))) }
{
    if is_runnable(alloc, &design)? {
        Ok(Some(design))
    } else {
        Ok(None)
    }
}

fn assign(target: usize, value: Expr) -> Assignment {
    Assignment { target, value }
}

/// An input of 8 bits and `count` wires, each assigned what the one before it has, the last first.
pub fn falling(alloc: Global, count: usize) -> Result<Option<Module>, Memory>
    requires { count < 1000000 }
    ensures { IfOk result (λ o. IfSome o (λ m. IsRunnable (module_of m))) }
{
    let mut all = Vec::new(alloc);
    let mut assignments = Vec::new(alloc);
    all.push((Kind::Input, 8))?;
    for done in 0..count {
        all.push((Kind::Wire, 8))?;
        let target = count - done;
        assignments.push(assign(target, Expr::Net(target - 1)))?;
    }
    module(alloc, &all, assignments)
}

/// A register of 8 bits that no block assigns, and what shows it.
pub fn unassigned(alloc: Global) -> Result<Option<Module>, Memory>
    ensures { IfOk result (λ o. IfSome o (λ m. IsRunnable (module_of m))) }
{
    let all = [(Kind::Register, 8), (Kind::OutputWire, 8)];
    let mut assignments = Vec::new(alloc);
    assignments.push(assign(1, Expr::Net(0)))?;
    module(alloc, &all, assignments)
}
