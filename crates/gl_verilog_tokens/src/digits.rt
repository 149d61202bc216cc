//! Numbers of their digits.

ghost use Rattle.std.specs.Prelude.{◌≡◌, ◌≤◌, ◌^◌, MatchOption};
ghost use Rattle.gl_verilog.specs.Tokens as tokens;

/// What a digit stands for: 0 to 9, then a to f or A to F.
pub fn digit_of(b: u8) -> u8
    ensures { result ≡ tokens.digit_of b }
{
    if b <= b'9' {
        b.saturating_sub(48)
    } else if b <= b'F' {
        b.saturating_sub(55)
    } else {
        b.saturating_sub(87)
    }
}

// A number with a digit more, where it is below 2^32.
fn with_digit(number: u32, b: u8) -> Option<u32>
    ensures { MatchOption result (2 ^ 32 ≤ tokens.with_digit 10 number b) (λ n. n
        ≡ tokens.with_digit 10 number b) }
{
    if b == b'_' {
        return Some(number);
    }
    let more = u64::from(number) * 10 + u64::from(digit_of(b));
    if more < 4_294_967_296 {
        Some(more as u32)
    } else {
        None
    }
}

/// The decimal number of these digits, where it is below 2^32.
#[tactic(auto, using(crate::proofs::NumberSteps::numbers))]
pub fn small_number(digits: &[u8]) -> Option<u32>
    ensures { MatchOption result (2 ^ 32 ≤ tokens.number_in 10 digits.now) (λ n. n
        ≡ tokens.number_in 10 digits.now) }
{
    let mut number = 0u32;
    for b in digits {
        match with_digit(number, *b) {
            Some(more) => number = more,
            None => return None,
        }
    }
    Some(number)
}
