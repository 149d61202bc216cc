//! The average of the values of the open stream.

ghost use Rattle.std.specs.Prelude.{◌≡◌, ◌+◌, IfOk, pos};
ghost use Rattle.gl_values.specs.Kinds.{IsKind, number_in, signed_number, width_of};
ghost use Rattle.gl_values.specs.Totals.{average_of};
ghost use Rattle.gl_net.specs.Net.{IsBit, IsBus};
ghost use Rattle.gl_totals.specs.Averages.{IsFraction, IsGuarded, IsQuotient};
ghost use Rattle.gl_totals.specs.Costs.{cost_of_average, cost_of_divided, cost_of_quotient};
ghost use Rattle.gl_totals.specs.Open.{KeepFits};
ghost use Rattle.gl_totals.specs.Totals.{IsTotalOf};

use crate::delay::delay_bit;
use crate::fold::small_word;
use crate::rows::Rows;
use crate::sign::{put_magnitude, put_negated};
use crate::sum::{put_count, put_sum};
use gl_bits::Memory;
use gl_divide::divide;
use gl_net::{Bit, Bus, NetBuilder};
use gl_rows::cast::{low_bits, put_number};
use gl_values::Kind;
use gl_wire::same;

/// A top and a bottom.
#[derive(Clone, Copy)]
pub struct Fraction {
    /// What is divided.
    pub top: Bus,
    /// What it is divided by.
    pub bottom: Bus,
}

/// The same fraction, or 0 by 1 where the bottom is 0.
pub fn put_guarded(net: &mut NetBuilder, fraction: Fraction) -> Result<Fraction, Memory>
    requires top { IsBus net.old fraction.top }
    requires bottom { IsBus net.old fraction.bottom }
    ensures { IfOk result (IsGuarded net.old net.new fraction) }
{
    let none = net.constant(small_word(false, fraction.bottom.width))?;
    let empty = same(net, fraction.bottom, none)?;
    let one = net.constant(small_word(true, fraction.bottom.width))?;
    let bottom = net.choose(empty, one, fraction.bottom)?;
    let nothing = net.constant(small_word(false, fraction.top.width))?;
    let top = net.choose(empty, nothing, fraction.top)?;
    Ok(Fraction { top, bottom })
}

// The sum of the numbers of the values, in 32 bits more than they have, and how many there are.
fn put_fraction(
    net: &mut NetBuilder,
    rows: Rows,
    kind: Kind,
    value: Bus,
) -> Result<Fraction, Memory>
    requires valid { IsBit net.old rows.valid }
    requires eos { IsBit net.old rows.eos }
    requires keep { KeepFits net.old rows.keep }
    requires value { IsBus net.old value }
    requires kind { IsKind kind }
    requires width { value.width ≡ width_of kind }
    ensures { IfOk result (IsFraction net.old net.new rows kind value) }
{
    let wide = put_number(net, value, kind, value.width + 32)?;
    let top = put_sum(net, rows, wide)?;
    let bottom = put_count(net, rows)?;
    Ok(Fraction { top, bottom })
}

// The quotient of a fraction without a sign; 0 where the bottom is 0.
fn put_divided(net: &mut NetBuilder, fraction: Fraction, go: Bit) -> Result<Bus, Memory>
    requires top { IsBus net.old fraction.top }
    requires bottom { IsBus net.old fraction.bottom }
    requires go { IsBit net.old go }
    ensures { IfOk result (IsQuotient net.old net.new
        (cost_of_divided fraction.top.width fraction.bottom.width) pos fraction) }
{
    let guarded = put_guarded(net, fraction)?;
    let quotient = divide(net, guarded.top, guarded.bottom, go)?;
    Ok(quotient.value)
}

// The quotient of a fraction whose top has a sign, toward 0: the sign goes beside the divider.
fn put_signed(net: &mut NetBuilder, fraction: Fraction, go: Bit) -> Result<Bus, Memory>
    requires top { IsBus net.old fraction.top }
    requires bottom { IsBus net.old fraction.bottom }
    requires go { IsBit net.old go }
    ensures { IfOk result (IsQuotient net.old net.new
        (cost_of_quotient fraction.top.width fraction.bottom.width)
        (signed_number fraction.top.width) fraction) }
{
    let top = put_magnitude(net, fraction.top)?;
    let sizes = Fraction {
        top: top.size,
        bottom: fraction.bottom,
    };
    let quotient = put_divided(net, sizes, go)?;
    let late = delay_bit(net, top.sign, u32::from(fraction.top.width) + 1)?;
    // Named, since a goal speaks of the value.
    let out = put_negated(net, late, quotient)?;
    Ok(out)
}

/// The quotient of a fraction, toward 0, and 0 where the bottom is 0; a kind says whether the top has a sign.
pub fn put_quotient(
    net: &mut NetBuilder,
    kind: Kind,
    fraction: Fraction,
    go: Bit,
) -> Result<Bus, Memory>
    requires top { IsBus net.old fraction.top }
    requires bottom { IsBus net.old fraction.bottom }
    requires go { IsBit net.old go }
    ensures { IfOk result (IsQuotient net.old net.new
        (cost_of_quotient fraction.top.width fraction.bottom.width)
        (number_in kind fraction.top.width) fraction) }
{
    if kind.is_signed() {
        return put_signed(net, fraction, go);
    }
    put_divided(net, fraction, go)
}

/// The sum of the values of a kind, in 32 bits more than the kind has, by their number; 0 where there is none. It comes 33 cycles later
/// than the kind has bits.
pub fn put_average(net: &mut NetBuilder, rows: Rows, kind: Kind, value: Bus) -> Result<Bus, Memory>
    requires valid { IsBit net.old rows.valid }
    requires eos { IsBit net.old rows.eos }
    requires keep { KeepFits net.old rows.keep }
    requires value { IsBus net.old value }
    requires kind { IsKind kind }
    requires width { value.width ≡ width_of kind }
    ensures { IfOk result (IsTotalOf net.old net.new (cost_of_average rows.keep value.width)
        value.width (value.width + 33) rows value (average_of kind)) }
{
    let fraction = put_fraction(net, rows, kind, value)?;
    let quotient = put_quotient(net, kind, fraction, rows.eos)?;
    // Named, since a goal speaks of the value.
    let out = low_bits(net, quotient, value.width)?;
    Ok(out)
}
