//! Gates on lines, with what they give in every cycle.

ghost use Rattle.std.specs.Prelude.{◌≡◌, ◌&&◌, ◌||◌, not, IfOk};
ghost use Rattle.gl_net.specs.Net.{IsBit, IsBus};
ghost use Rattle.gl_wire.specs.Gates.{IsGate, IsSame};

use gl_bits::Memory;
use gl_net::{BinaryOp, Bit, Bus, NetBuilder};

/// A line that is 1 where both are.
pub fn both(net: &mut NetBuilder, left: Bit, right: Bit) -> Result<Bit, Memory>
    requires left { IsBit net.old left }
    requires right { IsBit net.old right }
    ensures { IfOk result (IsGate net.old net.new (λ x y. x && y) left right) }
{
    let bus = net.binary(BinaryOp::And, left.bus(), right.bus())?;
    Ok(bus.bit())
}

/// A line that is 1 where one of them is.
pub fn either(net: &mut NetBuilder, left: Bit, right: Bit) -> Result<Bit, Memory>
    requires left { IsBit net.old left }
    requires right { IsBit net.old right }
    ensures { IfOk result (IsGate net.old net.new (λ x y. x || y) left right) }
{
    let bus = net.binary(BinaryOp::Or, left.bus(), right.bus())?;
    Ok(bus.bit())
}

/// A line that is 1 where the first is and the second is not.
pub fn but_not(net: &mut NetBuilder, left: Bit, right: Bit) -> Result<Bit, Memory>
    requires left { IsBit net.old left }
    requires right { IsBit net.old right }
    ensures { IfOk result (IsGate net.old net.new (λ x y. x && not y) left right) }
{
    let bus = net.binary(BinaryOp::Lt, right.bus(), left.bus())?;
    Ok(bus.bit())
}

/// A line that is 1 where two buses carry the same.
pub fn same(net: &mut NetBuilder, left: Bus, right: Bus) -> Result<Bit, Memory>
    requires left { IsBus net.old left }
    requires right { IsBus net.old right }
    requires widths { left.width ≡ right.width }
    ensures { IfOk result (IsSame net.old net.new left right) }
{
    let bus = net.binary(BinaryOp::Eq, left, right)?;
    Ok(bus.bit())
}
