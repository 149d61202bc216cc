//! The order in which assignments are evaluated.

ghost use Rattle.std.specs.Prelude.{IfOk};
ghost use Rattle.gl_verilog.specs.View.{module_of};
ghost use Rattle.gl_verilog.specs.Runnable.{IsRunnable};
ghost use Rattle.gl_verilog_check.specs.Orders.{IsOrderOf};

use gl_bits::Memory;
use gl_verilog::Module;
use gl_verilog_check::order_of;
use std::alloc::Global;

/// The numbers of the assignments in an order in which each reads only what stands before it.
pub fn order_in(alloc: Global, design: &Module) -> Result<Vec<usize>, Memory>
    requires { IsRunnable (module_of design.now) }
    ensures { IfOk result (λ v. IsOrderOf (module_of design.now).assignments v.items) }
{
    let assignments = design.assignments.as_slice();
    let found = order_of(alloc, design.declarations.len(), assignments)?;
    match found {
        Some(order) => Ok(order),
        None => unreachable!(),
    }
}
