//! How many bits a number takes.

ghost use Rattle.std.specs.Prelude.{◌≡◌, ◌≤◌, ◌^◌};
ghost use Rattle.gl_algebra.specs.Cost.{least_exponent};

/// The least exponent, of `more` from `exponent` on, whose power of two is at least `count`.
pub fn least_exponent(more: u64, exponent: u8, count: u64) -> u8
    requires exponent { exponent ≤ 32 }
    requires count { count ≤ 2 ^ 32 }
    ensures value { result ≡ least_exponent more exponent count }
    ensures low { exponent ≤ result }
    ensures high { result ≤ 32 }
{
    if more == 0 || count <= 1u64 << exponent {
        exponent
    } else {
        least_exponent(more - 1, exponent + 1, count)
    }
}
