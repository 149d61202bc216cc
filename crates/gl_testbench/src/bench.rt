//! What goes into a module in one cycle.

ghost use Rattle.std.specs.Prelude.{◌≡◌, length, map, option_map, IfOk};
ghost use Rattle.gl_tuples.specs.Gaps.{plain_beat};
ghost use Rattle.gl_verilog.specs.View.{declaration_of};
ghost use Rattle.gl_testbench.specs.Carried.{at_reset, name_at, pin_at, with_beat};

use crate::pins::{Pin, pin_of, value_at_reset, value_of};
use gl_bits::Memory;
use gl_schema::Schema;
use gl_tuples::BeatView;
use gl_verilog::Declaration;
use std::alloc::Global;

// The name of the declaration of a number.
fn name_of(declarations: &[Declaration], number: usize) -> &[u8]
    ensures { result.now ≡ name_at (map declaration_of declarations.now) number }
{
    match declarations.get(number) {
        Some(declaration) => declaration.name.as_slice(),
        None => &[],
    }
}

/// What the declarations of these numbers carry, by their names.
pub fn pins_at(
    alloc: Global,
    schema: &Schema,
    declarations: &[Declaration],
    numbers: &[usize],
) -> Result<Vec<Pin>, Memory>
    ensures { IfOk result (λ v. v.items
        ≡ map (pin_at schema.now (map declaration_of declarations.now)) numbers.now) }
{
    let mut pins = Vec::new(alloc);
    for number in numbers {
        pins.push(pin_of(schema, name_of(declarations, *number)))?;
    }
    Ok(pins)
}

/// Sets the values of the pins for the reset, with these words of the parameters.
pub fn set_reset(pins: &[Pin], sets: &[u64], values: &mut [u128])
    requires { length values.old ≡ length pins.now }
    ensures { values.new ≡ map (at_reset sets.now) pins.now }
{
    for (at, pin) in pins.iter().enumerate() {
        values[at] = value_at_reset(*pin, sets);
    }
}

/// Sets the values of the pins for a cycle of the file with this beat, or with none, and with these
/// words of the parameters.
pub fn set_beat(pins: &[Pin], sets: &[u64], beat: Option<&BeatView<'_>>, values: &mut [u128])
    requires { length values.old ≡ length pins.now }
    ensures { values.new
        ≡ map (with_beat sets.now (option_map (λ b. plain_beat b.now) beat.entry)) pins.now }
{
    for (at, pin) in pins.iter().enumerate() {
        values[at] = value_of(*pin, sets, beat);
    }
}
