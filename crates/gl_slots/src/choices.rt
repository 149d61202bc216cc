//! Choices between lines.

ghost use Rattle.std.specs.Prelude.{◌≡◌, IfOk, length};
ghost use Rattle.gl_net.specs.Net.{IsBit};
ghost use Rattle.gl_wire_registers.specs.Lines.{AddsLine, AddsLines, AreBits};
ghost use Rattle.gl_slots.specs.Choices.{chosen, chosen_to};

use gl_bits::Memory;
use gl_net::{Bit, NetBuilder};
use gl_wire_registers::Bits;
use std::alloc::Global;

/// The first line where the test is 1, and else the second.
pub fn choose_bit(net: &mut NetBuilder, test: Bit, yes: Bit, no: Bit) -> Result<Bit, Memory>
    requires test { IsBit net.old test }
    requires yes { IsBit net.old yes }
    requires no { IsBit net.old no }
    ensures { IfOk result (λ b. AddsLine net.old net.new 1 b (chosen test yes no)) }
{
    let bus = net.choose(test, yes.bus(), no.bus())?;
    Ok(bus.bit())
}

/// The first lines where the test is 1, and else the second.
pub fn choose_each(
    alloc: Global,
    net: &mut NetBuilder,
    test: Bit,
    yes: &[Bit],
    no: &[Bit],
) -> Result<Bits, Memory>
    requires test { IsBit net.old test }
    requires yes { AreBits net.old yes.now }
    requires no { AreBits net.old no.now }
    requires count { length no.now ≡ length yes.now }
    ensures { IfOk result (λ bs.
        AddsLines net.old net.new (length yes.now) 1 bs (chosen_to test yes.now no.now)) }
{
    let mut all = Bits::new(alloc);
    for (i, line) in yes.iter().enumerate() {
        let bit = choose_bit(net, test, *line, no[i])?;
        all.push(bit)?;
    }
    Ok(all)
}
