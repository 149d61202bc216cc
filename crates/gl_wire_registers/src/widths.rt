//! How many bits a register takes for what it counts.

ghost use Rattle.std.specs.Prelude.{◌≡◌, ◌+◌, ◌<◌, ◌≤◌, ◌^◌};
ghost use Rattle.gl_bits.specs.Words.{IsWidth};
ghost use Rattle.gl_wire_registers.specs.Numbers.{bits_below};

use gl_wire::least_exponent;

/// The bits of each number below `count`: the least, and at least one.
pub fn bits_below(count: u64) -> u8
    requires count { count ≤ 2 ^ 32 }
    ensures value { result ≡ bits_below count }
    ensures width { IsWidth result }
    ensures few { result ≤ 32 }
    ensures enough { count ≤ 2 ^ result }
{
    least_exponent(count, 1, count)
}

/// The bits of each number up to this one.
pub fn bits_to(most: u32) -> u8
    ensures value { result ≡ bits_below (most + 1) }
    ensures width { IsWidth result }
    ensures few { result ≤ 32 }
    ensures fits { most < 2 ^ result }
{
    bits_below(u64::from(most) + 1)
}
