//! Many registers at once, which may read each other.

ghost use Rattle.std.specs.Prelude.{◌≡◌, IfOk, OnOk, replicate};
ghost use Rattle.gl_wire_registers.specs.Registers.{AreOpen, DrivesAll, MayDrive, Opens, OpensOne};

use gl_bits::{Memory, Word};
use gl_net::{Bus, Buses, NetBuilder};
use std::alloc::Global;

// One register with a reset value.
fn open_one(net: &mut NetBuilder, reset: Word) -> Result<Bus, Memory>
    ensures { IfOk result (OpensOne net.old net.new reset) }
{
    // Named, since a goal speaks of the value.
    let register = net.register(reset.width(), Some(reset))?;
    Ok(register)
}

/// A register for each of these reset values, to be driven later.
pub fn open_all(alloc: Global, net: &mut NetBuilder, resets: &[Word]) -> Result<Buses, Memory>
    ensures { IfOk result (Opens net.old net.new resets.now) }
{
    let mut all = Buses::new(alloc);
    for reset in resets {
        let register = open_one(net, *reset)?;
        all.push(register)?;
    }
    Ok(all)
}

// So many equal words.
fn words_of(alloc: Global, word: Word, count: usize) -> Result<Vec<Word>, Memory>
    ensures { IfOk result (λ v. v.items ≡ replicate count word) }
{
    match vec![in alloc; word; count] {
        Ok(all) => Ok(all),
        Err(_) => Err(Memory),
    }
}

/// So many registers with one reset value, to be driven later.
pub fn open_same(
    alloc: Global,
    net: &mut NetBuilder,
    reset: Word,
    count: usize,
) -> Result<Buses, Memory>
    ensures { IfOk result (Opens net.old net.new (replicate count reset)) }
{
    let resets = words_of(alloc, reset, count)?;
    let registers = open_all(alloc, net, resets.as_slice())?;
    Ok(registers)
}

/// Drives each register by the bus in its place.
pub fn drive_all(net: &mut NetBuilder, registers: &[Bus], nexts: &[Bus]) -> Result<(), Memory>
    requires open { AreOpen net.old registers.now }
    requires nexts { MayDrive net.old registers.now nexts.now }
    ensures { OnOk result (DrivesAll net.old net.new registers.now nexts.now) }
{
    for (i, register) in registers.iter().enumerate() {
        net.drive(*register, nexts[i])?;
    }
    Ok(())
}
