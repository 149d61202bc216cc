//! What operands carry.

ghost use Rattle.std.specs.Prelude.{All, IfOk};
ghost use Rattle.gl_algebra.specs.Columns.{OperandFits};
ghost use Rattle.gl_algebra.specs.Known.{OperandKnown};
ghost use Rattle.gl_rows.specs.Made.{AreOperands, IsOperand, IsSource};
ghost use Rattle.gl_wire.specs.Wire.{widths};

use gl_algebra::Operand;
use gl_bits::Memory;
use gl_net::{Bus, Buses, NetBuilder};
use gl_values::Kind;
use std::alloc::Global;

/// Columns, their kinds, and the buses of the parameters.
#[derive(Clone, Copy)]
pub struct Source<'a> {
    /// The buses, one for each column.
    pub columns: &'a [Bus],
    /// The kinds, in the same order.
    pub kinds: &'a [Kind],
    /// The buses of the parameters, in the order of their numbers.
    pub words: &'a [Bus],
}

/// What items are made over: the kinds of the columns, and the buses of the parameters.
#[derive(Clone, Copy)]
pub struct Scope<'a> {
    /// The kinds of the columns.
    pub kinds: &'a [Kind],
    /// The buses of the parameters, in the order of their numbers.
    pub words: &'a [Bus],
}

/// The bus of an operand: that of its column or of a parameter, or a constant.
pub fn put_operand(net: &mut NetBuilder, source: Source, operand: Operand) -> Result<Bus, Memory>
    requires source { IsSource net.old source.columns.now source.kinds.now source.words.now }
    requires fits { OperandFits source.kinds.now operand }
    requires known { OperandKnown (widths source.words.now) operand }
    ensures { IfOk result
        (IsOperand net.old net.new source.entry.columns.now source.entry.kinds.now operand) }
{
    match operand {
        Operand::Column(column) => Ok(source.columns[column as usize]),
        Operand::Literal(word, _) => {
            // Named, since a goal speaks of the value.
            let bus = net.constant(word)?;
            Ok(bus)
        }
        Operand::Parameter(number, kind) => {
            // Named, since a goal speaks of it.
            let _ = kind;
            Ok(source.words[number as usize])
        }
    }
}

/// The buses of some operands.
pub fn put_operands(
    alloc: Global,
    net: &mut NetBuilder,
    source: Source,
    operands: &[Operand],
) -> Result<Buses, Memory>
    requires source { IsSource net.old source.columns.now source.kinds.now source.words.now }
    requires fit { All (OperandFits source.kinds.now) operands.now }
    requires known { All (OperandKnown (widths source.words.now)) operands.now }
    ensures { IfOk result (AreOperands net.old net.new
        source.entry.columns.now source.entry.kinds.now operands.now) }
{
    let mut all = Buses::new(alloc);
    for operand in operands {
        let bus = put_operand(net, source, *operand)?;
        all.push(bus)?;
    }
    Ok(all)
}
