//! The divider.

ghost use Rattle.std.specs.Prelude.{IfOk};
ghost use Rattle.gl_net.specs.Net.{IsBus, IsBit};
ghost use Rattle.gl_divide.specs.Divider.{IsDivider};

use crate::stage::{put_start, put_step};
use gl_bits::Memory;
use gl_net::{Bit, Bus, NetBuilder};

/// A quotient, and when it is ready.
#[derive(Clone, Copy)]
pub struct Quotient {
    /// The quotient, which has the width of the top.
    pub value: Bus,
    /// 1 where a quotient that was asked for is ready.
    pub ready: Bit,
}

/// Divides, in every cycle, the top by the bottom, where that is not 0. The quotient of a cycle is there as many cycles later as the top
/// has bits, and one more; `ready` is 1 there if `go` was.
pub fn divide(net: &mut NetBuilder, top: Bus, bottom: Bus, go: Bit) -> Result<Quotient, Memory>
    requires top { IsBus net.old top }
    requires bottom { IsBus net.old bottom }
    requires go { IsBit net.old go }
    ensures { IfOk result (IsDivider net.old net.new top bottom go) }
{
    let mut stage = put_start(net, top, bottom, go)?;
    for _digit in 0..top.width {
        stage = put_step(net, stage)?;
    }
    Ok(Quotient {
        value: stage.digits,
        ready: stage.go,
    })
}
