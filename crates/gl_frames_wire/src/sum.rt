//! The sum of the last values, of streams one after another.

ghost use Rattle.std.specs.Prelude.{◌≡◌, IfOk};
ghost use Rattle.gl_net.specs.Net.{IsBit, IsBus};
ghost use Rattle.gl_frames_wire.specs.Reaches.{IsReach};
ghost use Rattle.gl_frames_wire.specs.SumNets.{IsFrameSumIn, IsSlidIn};

use crate::lag::put_lag;
use crate::reach::{Reach, word};
use gl_bits::Memory;
use gl_frames::laws::sums_slide;
use gl_net::{BinaryOp, Bit, Bus, NetBuilder};
use gl_wire::note_bus;
use gl_wire_lanes::laws::one_is_single;

// A sum with what comes and without what leaves, where a row comes.
fn put_slid(
    net: &mut NetBuilder,
    valid: Bit,
    before: Bus,
    value: Bus,
    lag: Bus,
) -> Result<Bus, Memory>
    requires valid { IsBit net.old valid }
    requires before { IsBus net.old before }
    requires value { IsBus net.old value }
    requires lag { IsBus net.old lag }
    requires value_width { value.width ≡ before.width }
    requires lag_width { lag.width ≡ before.width }
    ensures { IfOk result (IsSlidIn net.old net.new valid before value lag) }
{
    let added = net.binary(BinaryOp::Add, before, value)?;
    let slid = net.binary(BinaryOp::Sub, added, lag)?;
    let now = net.choose(valid, slid, before)?;
    Ok(now)
}

/// With each row the sum of its value and of those before it in its stream, so many in all, which
/// wraps in their width. A value that a FILTER leaves out comes as 0.
pub fn put_frame_sum(
    net: &mut NetBuilder,
    valid: Bit,
    eos: Bit,
    reach: Reach,
    value: Bus,
) -> Result<Bus, Memory>
    requires valid { IsBit net.old valid }
    requires eos { IsBit net.old eos }
    requires reach { IsReach reach }
    requires value { IsBus net.old value }
    ensures { IfOk result (IsFrameSumIn net.old net.new valid eos reach value) }
{
    one_is_single();
    sums_slide::<u64>();
    let zero = word(0, value.width);
    let lag = put_lag(net, valid, eos, reach, value)?;
    let before = net.register(zero.width(), Some(zero))?;
    let now = put_slid(net, valid, before, value, lag)?;
    let again = net.constant(zero)?;
    let next = net.choose(eos, again, now)?;
    net.drive(before, next)?;
    note_bus(net, b"state", before)?;
    Ok(now)
}
