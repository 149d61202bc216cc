//! Sums and counts of the open stream.

ghost use Rattle.std.specs.Prelude.{IfOk};
ghost use Rattle.gl_values.specs.Totals.{count_of, sum_total};
ghost use Rattle.gl_net.specs.Net.{IsBit, IsBus};
ghost use Rattle.gl_totals.specs.Costs.{cost_of_count, cost_of_fold};
ghost use Rattle.gl_totals.specs.Open.{KeepFits};
ghost use Rattle.gl_totals.specs.Totals.{IsTotalOf};

use crate::fold::{Step, put_state, small_word};
use crate::rows::Rows;
use gl_bits::Memory;
use gl_net::{Bus, NetBuilder};

/// The sum of the values, this cycle's included, which wraps in their width.
pub fn put_sum(net: &mut NetBuilder, rows: Rows, value: Bus) -> Result<Bus, Memory>
    requires valid { IsBit net.old rows.valid }
    requires eos { IsBit net.old rows.eos }
    requires keep { KeepFits net.old rows.keep }
    requires value { IsBus net.old value }
    ensures { IfOk result (IsTotalOf net.old net.new (cost_of_fold rows.keep 1 value.width)
        value.width 0 rows value (sum_total value.width)) }
{
    let fold = put_state(
        net,
        rows,
        small_word(false, value.width),
        Step::Add(value),
        b"state",
    )?;
    Ok(fold.now)
}

/// The number of rows, this cycle's included, which wraps in 32 bits. They are counted as the values of any bus.
pub fn put_count(net: &mut NetBuilder, rows: Rows) -> Result<Bus, Memory>
    requires valid { IsBit net.old rows.valid }
    requires eos { IsBit net.old rows.eos }
    requires keep { KeepFits net.old rows.keep }
    ensures { (value : Bus) → IfOk result (IsTotalOf net.old net.new (cost_of_count rows.keep) 32 0
        rows value count_of) }
{
    let one = net.constant(small_word(true, 32))?;
    // Named, since a goal speaks of the value.
    let count = put_sum(net, rows, one)?;
    Ok(count)
}
