//! Stages of a division.

ghost use Rattle.std.specs.Prelude.{◌≡◌, IfOk};
ghost use Rattle.gl_bits.specs.Words.{IsWidth};
ghost use Rattle.gl_net.specs.Net.{IsBus, IsBit};
ghost use Rattle.gl_divide.specs.Divider.{IsBehindDigits, IsStage, IsStep};

use crate::digit::{highest, put_digit, shift};
use gl_bits::{Memory, Word};
use gl_net::{Bit, Bus, NetBuilder};
use gl_wire::{later, later_bit, note_bit, note_bus};

/// What a stage hands on: a division under way.
#[derive(Clone, Copy)]
pub struct Stage {
    /// The digits of the top that are to come, with those of the quotient behind them.
    pub digits: Bus,
    /// What is left of the digits that are gone.
    pub rest: Bus,
    /// What is divided by.
    pub bottom: Bus,
    /// 1 where this division was asked for.
    pub go: Bit,
}

// The word 0.
fn zero_word(width: u8) -> Word
    requires { IsWidth width }
    ensures bits { result.bits ≡ 0 }
    ensures width { result.width ≡ width }
{
    Word::new(0, width).unwrap()
}

// Tells the registers of a stage.
fn note_division(net: &mut NetBuilder, stage: Stage) -> Result<(), Memory>
    ensures { net.new ≡ net.old }
{
    note_bus(net, b"quotient", stage.digits)?;
    note_bus(net, b"remainder", stage.rest)?;
    note_bus(net, b"divisor", stage.bottom)?;
    note_bit(net, b"busy", stage.go)
}

/// The stage before the first digit, one cycle later.
pub fn put_start(net: &mut NetBuilder, top: Bus, bottom: Bus, go: Bit) -> Result<Stage, Memory>
    requires top { IsBus net.old top }
    requires bottom { IsBus net.old bottom }
    requires go { IsBit net.old go }
    ensures { IfOk result (IsBehindDigits net.old net.new 0 top bottom go) }
{
    let rest = net.constant(zero_word(bottom.width))?;
    let digits = later(net, top)?;
    let bottom = later(net, bottom)?;
    let go = later_bit(net, go)?;
    let made = Stage {
        digits,
        rest,
        bottom,
        go,
    };
    note_division(net, made)?;
    Ok(made)
}

/// The stage one digit, and one cycle, later.
pub fn put_step(net: &mut NetBuilder, stage: Stage) -> Result<Stage, Memory>
    requires { IsStage net.old stage.digits.width stage.bottom.width stage }
    ensures { IfOk result (IsStep net.old net.new stage.digits.width stage.bottom.width stage) }
{
    let next = highest(net, stage.digits)?;
    let digit = put_digit(net, stage.rest, stage.bottom, next)?;
    let digits = shift(net, stage.digits, digit.fits)?;
    let digits = later(net, digits)?;
    let rest = later(net, digit.left)?;
    let bottom = later(net, stage.bottom)?;
    let go = later_bit(net, stage.go)?;
    let made = Stage {
        digits,
        rest,
        bottom,
        go,
    };
    note_division(net, made)?;
    Ok(made)
}
