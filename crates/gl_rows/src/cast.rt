//! Casts.

ghost use Rattle.std.specs.Prelude.{◌≡◌, ◌-◌, ◌^◌, ◌<◌, IfOk, IsTrue};
ghost use Rattle.gl_values.specs.Kinds.{can_cast, width_of};
ghost use Rattle.gl_bits.specs.Words.{IsWidth};
ghost use Rattle.gl_net.specs.Net.{IsBus};
ghost use Rattle.gl_rows.specs.Made.{AreHigh, AreLow, Carries, IsCast, IsExtended, IsNumber, IsNumberIn, IsShiftedDown};

use gl_bits::{Memory, Word};
use gl_net::{Bus, NetBuilder};
use gl_values::{Family, Kind};

// The word 0.
fn zero_word(width: u8) -> Word
    requires { IsWidth width }
    ensures bits { result.bits ≡ 0 }
    ensures width { result.width ≡ width }
{
    Word::new(0, width).unwrap()
}

// A bus that carries 0.
fn put_zeros(net: &mut NetBuilder, width: u8) -> Result<Bus, Memory>
    requires { IsWidth width }
    ensures { IfOk result (Carries net.old net.new 1 width (λ run t. 0)) }
{
    // Named, since a goal speaks of the value.
    let zeros = net.constant(zero_word(width))?;
    Ok(zeros)
}

// The bus with zero bits above it, to this width.
fn zeros_above(net: &mut NetBuilder, bus: Bus, width: u8) -> Result<Bus, Memory>
    requires bus { IsBus net.old bus }
    requires width { IsWidth width }
    requires more { bus.width < width }
    ensures { IfOk result (AreLow net.old net.new width bus) }
{
    let zeros = put_zeros(net, width - bus.width)?;
    let joined = net.join(zeros, bus)?;
    Ok(joined)
}

// The bus with zero bits below it, to this width.
fn zeros_below(net: &mut NetBuilder, bus: Bus, width: u8) -> Result<Bus, Memory>
    requires bus { IsBus net.old bus }
    requires width { IsWidth width }
    requires more { bus.width < width }
    ensures { IfOk result (AreHigh net.old net.new width bus) }
{
    let zeros = put_zeros(net, width - bus.width)?;
    let joined = net.join(bus, zeros)?;
    Ok(joined)
}

/// The lowest bits of a bus, or all of them with zero bits above.
pub fn low_bits(net: &mut NetBuilder, bus: Bus, width: u8) -> Result<Bus, Memory>
    requires bus { IsBus net.old bus }
    requires width { IsWidth width }
    ensures { IfOk result (AreLow net.old net.new width bus) }
{
    if bus.width < width {
        return zeros_above(net, bus, width);
    }
    let low = net.cut(bus, width - 1, 0)?;
    Ok(low)
}

/// The highest bits of a bus, or all of them with zero bits below.
pub fn high_bits(net: &mut NetBuilder, bus: Bus, width: u8) -> Result<Bus, Memory>
    requires bus { IsBus net.old bus }
    requires width { IsWidth width }
    ensures { IfOk result (AreHigh net.old net.new width bus) }
{
    if bus.width < width {
        return zeros_below(net, bus, width);
    }
    let high = net.cut(bus, bus.width - 1, bus.width - width)?;
    Ok(high)
}

// The word whose bits are all 1.
#[tactic(auto, unfolding(gl_bits::specs::Words::not_of))]
fn ones_word(width: u8) -> Word
    requires { IsWidth width }
    ensures bits { result.bits ≡ 2 ^ width - 1 }
    ensures width { result.width ≡ width }
{
    zero_word(width).not()
}

// The bus with bits like its highest one above it, to this width.
fn sign_above(net: &mut NetBuilder, bus: Bus, width: u8) -> Result<Bus, Memory>
    requires bus { IsBus net.old bus }
    requires width { IsWidth width }
    requires more { bus.width < width }
    ensures { IfOk result (IsExtended net.old net.new width bus) }
{
    let sign = net.cut(bus, bus.width - 1, bus.width - 1)?;
    let ones = net.constant(ones_word(width - bus.width))?;
    let zeros = put_zeros(net, width - bus.width)?;
    let above = net.choose(sign.bit(), ones, zeros)?;
    let joined = net.join(above, bus)?;
    Ok(joined)
}

// A number with a sign in another width.
fn put_signed(net: &mut NetBuilder, bus: Bus, width: u8) -> Result<Bus, Memory>
    requires bus { IsBus net.old bus }
    requires width { IsWidth width }
    ensures { IfOk result (IsExtended net.old net.new width bus) }
{
    if bus.width < width {
        return sign_above(net, bus, width);
    }
    low_bits(net, bus, width)
}

/// The word of a width that stands for the number of a kind, which keeps its sign where it has one.
pub fn put_number(net: &mut NetBuilder, bus: Bus, kind: Kind, width: u8) -> Result<Bus, Memory>
    requires bus { IsBus net.old bus }
    requires same_width { bus.width ≡ width_of kind }
    requires width { IsWidth width }
    ensures { IfOk result (IsNumber net.old net.new kind width bus) }
{
    if kind.is_signed() {
        return put_signed(net, bus, width);
    }
    low_bits(net, bus, width)
}

// The word of a width that stands for the number of all bits of a bus, with its sign where a kind has one.
fn put_number_in(net: &mut NetBuilder, bus: Bus, kind: Kind, width: u8) -> Result<Bus, Memory>
    requires bus { IsBus net.old bus }
    requires width { IsWidth width }
    ensures { IfOk result (IsNumberIn net.old net.new kind width bus) }
{
    if kind.is_signed() {
        return put_signed(net, bus, width);
    }
    low_bits(net, bus, width)
}

/// The bits of a bus of a kind from a place on: above them stand bits like its sign, or zero bits.
pub fn put_shifted(net: &mut NetBuilder, bus: Bus, kind: Kind, by: u8) -> Result<Bus, Memory>
    requires bus { IsBus net.old bus }
    requires same_width { bus.width ≡ width_of kind }
    requires near { by < bus.width }
    ensures { IfOk result (IsShiftedDown net.old net.new kind by bus) }
{
    let high = net.cut(bus, bus.width - 1, by)?;
    let wide = put_number_in(net, high, kind, bus.width)?;
    Ok(wide)
}

/// A value of a kind as another one: a number that keeps its sign, or its lowest bits; a text's first bytes.
#[tactic(auto, using(gl_values::proofs::KindLemmas::cast_kind))]
pub fn put_cast(net: &mut NetBuilder, bus: Bus, from: Kind, to: Kind) -> Result<Bus, Memory>
    requires bus { IsBus net.old bus }
    requires width { bus.width ≡ width_of from }
    requires can { IsTrue (can_cast from to) }
    ensures { IfOk result (IsCast net.old net.new from to bus) }
{
    match from.family() {
        Family::Numbers => put_number(net, bus, from, to.width()),
        Family::Texts => high_bits(net, bus, to.width()),
    }
}
