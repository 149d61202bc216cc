//! How many tokens the parts of a header have.

ghost use Rattle.std.specs.Prelude.{◌≡◌, ◌+◌, ◌≤◌, length};
ghost use Rattle.gl_verilog.specs.Written.{spell_direction, spell_range};
ghost use Rattle.gl_verilog_tokens.specs.View.{direction_of, port_of, range_of};

use crate::token::Word;
use crate::written::{Direction, WrittenPort};

// How many tokens a direction has.
fn tokens_of_direction(direction: Direction) -> usize
    ensures value { result ≡ length (spell_direction (direction_of direction)) }
    ensures few { result ≤ 2 }
{
    match direction {
        Direction::In | Direction::Out => 1,
        Direction::InWire | Direction::OutWire | Direction::OutReg => 2,
    }
}

/// How many tokens a range has.
pub fn tokens_of_range(range: Option<Word>) -> usize
    ensures value { result ≡ length (spell_range (range_of range.entry)) }
    ensures few { result ≤ 5 }
{
    match range {
        Some(_) => 5,
        None => 0,
    }
}

/// How many tokens a port has before its name.
#[tactic(auto, unfolding(crate::specs::View::port_of))]
pub fn tokens_before(port: &WrittenPort) -> usize
    ensures value { let p = port_of port.now in
        result ≡ length (spell_direction p.direction) + length (spell_range p.range) }
    ensures few { result ≤ 7 }
{
    tokens_of_direction(port.direction) + tokens_of_range(port.range)
}
