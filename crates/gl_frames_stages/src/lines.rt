//! The lines of streams one after another, and the same some cycles later.

ghost use Rattle.std.specs.Prelude.{IfOk};
ghost use Rattle.gl_net.specs.Net.{IsBit};
ghost use Rattle.gl_frames_stages.specs.Columns.{AreLinesBehind};

use gl_bits::Memory;
use gl_net::{Bit, NetBuilder};
use gl_totals::delay::delay_bit;

/// The lines of streams one after another.
#[derive(Clone, Copy)]
pub struct Lines {
    /// 1 in a cycle with a row.
    pub valid: Bit,
    /// 1 in a cycle with an end.
    pub eos: Bit,
}

/// The same lines, `cycles` cycles later.
pub fn delay_lines(net: &mut NetBuilder, lines: Lines, cycles: u32) -> Result<Lines, Memory>
    requires valid { IsBit net.old lines.valid }
    requires eos { IsBit net.old lines.eos }
    ensures { IfOk result (AreLinesBehind net.old net.new cycles lines) }
{
    let valid = delay_bit(net, lines.valid, cycles)?;
    let eos = delay_bit(net, lines.eos, cycles)?;
    Ok(Lines { valid, eos })
}
