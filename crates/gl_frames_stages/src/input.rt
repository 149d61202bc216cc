//! The rows that come to frames: their lines, their columns, and which of them a FILTER lets pass.

ghost use Rattle.std.specs.Prelude.{IfOk, Some};
ghost use Rattle.gl_algebra.specs.Columns.{ConditionFits};
ghost use Rattle.gl_net.specs.Net.{IsBus};
ghost use Rattle.gl_frames_stages.specs.Inputs.{HasInput, IsMaskedIn, IsPassingIn};

use crate::lines::Lines;
use gl_algebra::Operand;
use gl_bits::Memory;
use gl_net::{Bus, NetBuilder};
use gl_rows::Source;
use gl_rows::operand::put_operand;
use gl_totals::fold::small_word;
use gl_wire::both;

/// The lines of streams one after another, and their columns with their kinds.
#[derive(Clone, Copy)]
pub struct Input<'a> {
    /// The lines.
    pub lines: Lines,
    /// The columns.
    pub source: Source<'a>,
}

// The lines of the rows whose column is 1.
fn put_passing_by(net: &mut NetBuilder, input: Input, column: u16) -> Result<Lines, Memory>
    requires input { HasInput net.old input }
    requires filter { ConditionFits input.source.kinds.now (Some column) }
    ensures { IfOk result (IsPassingIn net.old net.new input.entry (Some column)) }
{
    let passes = put_operand(net, input.source, Operand::Column(column))?;
    let valid = both(net, input.lines.valid, passes.bit())?;
    Ok(Lines {
        valid,
        eos: input.lines.eos,
    })
}

/// The lines of the rows that pass: those whose column is 1, or all.
pub fn put_passing(net: &mut NetBuilder, input: Input, filter: Option<u16>) -> Result<Lines, Memory>
    requires input { HasInput net.old input }
    requires filter { ConditionFits input.source.kinds.now filter }
    ensures { IfOk result (IsPassingIn net.old net.new input.entry filter) }
{
    match filter {
        Some(column) => put_passing_by(net, input, column),
        None => Ok(input.lines),
    }
}

// A value where the column of the row is 1, and else 0.
fn put_masked_by(net: &mut NetBuilder, input: Input, column: u16, value: Bus) -> Result<Bus, Memory>
    requires input { HasInput net.old input }
    requires filter { ConditionFits input.source.kinds.now (Some column) }
    requires value { IsBus net.old value }
    ensures { IfOk result (IsMaskedIn net.old net.new input.entry (Some column) value) }
{
    let passes = put_operand(net, input.source, Operand::Column(column))?;
    let zero = net.constant(small_word(false, value.width))?;
    let masked = net.choose(passes.bit(), value, zero)?;
    Ok(masked)
}

/// A value where the row passes, and else 0.
pub fn put_masked(
    net: &mut NetBuilder,
    input: Input,
    filter: Option<u16>,
    value: Bus,
) -> Result<Bus, Memory>
    requires input { HasInput net.old input }
    requires filter { ConditionFits input.source.kinds.now filter }
    requires value { IsBus net.old value }
    ensures { IfOk result (IsMaskedIn net.old net.new input.entry filter value) }
{
    match filter {
        Some(column) => put_masked_by(net, input, column, value),
        None => Ok(value),
    }
}
