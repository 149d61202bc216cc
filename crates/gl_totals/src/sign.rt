//! Numbers in two's complement without their sign, and with it again.

ghost use Rattle.std.specs.Prelude.{IfOk};
ghost use Rattle.gl_net.specs.Net.{IsBit, IsBus};
ghost use Rattle.gl_totals.specs.Averages.{IsMagnitude, IsNegated};

use crate::fold::small_word;
use gl_bits::Memory;
use gl_divide::digit::highest;
use gl_net::{BinaryOp, Bit, Bus, NetBuilder};

/// A number in two parts.
#[derive(Clone, Copy)]
pub struct Magnitude {
    /// 1 where it is below 0.
    pub sign: Bit,
    /// The number without its sign.
    pub size: Bus,
}

/// A bus, or what is that much below 0 where a line is 1.
pub fn put_negated(net: &mut NetBuilder, line: Bit, bus: Bus) -> Result<Bus, Memory>
    requires line { IsBit net.old line }
    requires bus { IsBus net.old bus }
    ensures { IfOk result (IsNegated net.old net.new line bus) }
{
    let zero = net.constant(small_word(false, bus.width))?;
    let less = net.binary(BinaryOp::Sub, zero, bus)?;
    // Named, since a goal speaks of the value.
    let out = net.choose(line, less, bus)?;
    Ok(out)
}

/// The sign of a number in two's complement, and the number without it.
pub fn put_magnitude(net: &mut NetBuilder, bus: Bus) -> Result<Magnitude, Memory>
    requires { IsBus net.old bus }
    ensures { IfOk result (IsMagnitude net.old net.new bus) }
{
    let sign = highest(net, bus)?;
    let size = put_negated(net, sign, bus)?;
    Ok(Magnitude { sign, size })
}
