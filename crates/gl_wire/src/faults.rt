//! Lines of two circuits together.

ghost use Rattle.std.specs.Prelude.{IfOk};
ghost use Rattle.gl_wire.specs.Faults.{AreBoth, AreLines, IsEither, IsLine};

use crate::emitted::Faults;
use crate::gates::either;
use crate::notes::note_faults;
use gl_bits::Memory;
use gl_net::{Bit, NetBuilder};

/// A line that is 1 where one of two lines is that may be absent.
pub fn either_line(
    net: &mut NetBuilder,
    left: Option<Bit>,
    right: Option<Bit>,
) -> Result<Option<Bit>, Memory>
    requires left { IsLine net.old left }
    requires right { IsLine net.old right }
    ensures { IfOk result (IsEither net.old net.new left right) }
{
    match (left, right) {
        (Some(first), Some(second)) => {
            let bit = either(net, first, second)?;
            Ok(Some(bit))
        }
        (None, line) => Ok(line),
        (line, None) => Ok(line),
    }
}

/// The lines of two circuits together.
pub fn both_faults(net: &mut NetBuilder, left: Faults, right: Faults) -> Result<Faults, Memory>
    requires left { AreLines net.old left }
    requires right { AreLines net.old right }
    ensures { IfOk result (AreBoth net.old net.new left right) }
{
    let passed = either_line(net, left.passed, right.passed)?;
    let further = either_line(net, left.further, right.further)?;
    let faults = Faults { passed, further };
    note_faults(net, faults)?;
    Ok(faults)
}
