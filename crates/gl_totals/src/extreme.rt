//! The least and the greatest value of the open stream.

ghost use Rattle.std.specs.Prelude.{◌≡◌, IfOk};
ghost use Rattle.gl_values.specs.Kinds.{width_of};
ghost use Rattle.gl_net.specs.Net.{IsBit, IsBus};
ghost use Rattle.gl_totals.specs.Costs.{cost_of_extreme};
ghost use Rattle.gl_totals.specs.Extremes.{IsHeldBest, IsPick, IsPicked};
ghost use Rattle.gl_totals.specs.Folds.{BestFits};
ghost use Rattle.gl_totals.specs.Open.{KeepFits};
ghost use Rattle.gl_totals.specs.Totals.{IsTotalOf, extreme_of};

use crate::fold::{Best, Extreme, Step, put_better, put_state, small_word};
use crate::rows::{Keep, Rows};
use gl_bits::Memory;
use gl_net::{BinaryOp, Bit, Bus, NetBuilder};
use gl_values::Kind;
use gl_wire::{both, but_not, note_bus};

/// What an extreme in a register takes; 0 where neither.
#[derive(Clone, Copy)]
pub struct Pick {
    /// 1 where it is the value.
    pub value: Bit,
    /// 1 where it is the register's word.
    pub word: Bit,
}

// The value is taken where it is better or nothing counts yet, and else the word that counts. A simulator knows nothing of a word that does not
// count, nor of what that is compared with: neither may reach a line that is taken. So 1 and not `counts` stands before the `but_not`.
fn put_pick(net: &mut NetBuilder, valid: Bit, counts: Bit, better: Bit) -> Result<Pick, Memory>
    requires valid { IsBit net.old valid }
    requires counts { IsBit net.old counts }
    requires better { IsBit net.old better }
    ensures { IfOk result (IsPick net.old net.new valid counts better) }
{
    let wins = both(net, valid, better)?;
    let one = net.constant(small_word(true, 1))?;
    let loses = but_not(net, one.bit(), wins)?;
    let word = both(net, counts, loses)?;
    let value = net.choose(counts, wins.bus(), valid.bus())?;
    Ok(Pick {
        value: value.bit(),
        word,
    })
}

// The value, the register's word, or 0.
fn put_picked(net: &mut NetBuilder, pick: Pick, value: Bus, word: Bus) -> Result<Bus, Memory>
    requires takes { IsBit net.old pick.value }
    requires holds { IsBit net.old pick.word }
    requires value { IsBus net.old value }
    requires word { IsBus net.old word }
    requires same_width { word.width ≡ value.width }
    ensures { IfOk result (IsPicked net.old net.new pick value word) }
{
    let zero = net.constant(small_word(false, value.width))?;
    let taken = net.choose(pick.value, value, zero)?;
    let held = net.choose(pick.word, word, zero)?;
    // Named, since a goal speaks of the value.
    let out = net.binary(BinaryOp::Or, taken, held)?;
    Ok(out)
}

// An extreme in a register, which is never cleared: what it is with this cycle's row is what the register takes.
fn put_held(net: &mut NetBuilder, valid: Bit, best: Best) -> Result<Bus, Memory>
    requires valid { IsBit net.old valid }
    requires best { BestFits net.old best.value.width best }
    ensures { IfOk result (IsHeldBest net.old net.new valid best) }
{
    let word = net.register(best.value.width, None)?;
    let better = put_better(net, word, best)?;
    let pick = put_pick(net, valid, best.some, better.bit())?;
    let now = put_picked(net, pick, best.value, word)?;
    net.drive(word, now)?;
    note_bus(net, b"state", word)?;
    Ok(now)
}

/// The least, or the greatest, of the values of a kind, this cycle's included; 0 where there is none.
pub fn put_extreme(
    net: &mut NetBuilder,
    rows: Rows,
    extreme: Extreme,
    kind: Kind,
    value: Bus,
) -> Result<Bus, Memory>
    requires valid { IsBit net.old rows.valid }
    requires eos { IsBit net.old rows.eos }
    requires keep { KeepFits net.old rows.keep }
    requires value { IsBus net.old value }
    requires width { value.width ≡ width_of kind }
    ensures { IfOk result (IsTotalOf net.old net.new (cost_of_extreme rows.keep value.width)
        value.width 0 rows value (extreme_of extreme kind)) }
{
    let some = put_state(net, rows, small_word(false, 1), Step::Set, b"any")?;
    let best = Best {
        extreme,
        kind,
        some: some.before.bit(),
        value,
    };
    match rows.keep {
        Keep::Register => put_held(net, rows.valid, best),
        Keep::Slots { .. } => {
            let fold = put_state(
                net,
                rows,
                small_word(false, value.width),
                Step::Keep(best),
                b"state",
            )?;
            Ok(fold.now)
        }
    }
}
