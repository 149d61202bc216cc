//! Declarations, in the order of the text.

ghost use Rattle.std.specs.Prelude.{◌≡◌, ◌≤◌, ◌+◌, ◌^◌, false, map, nat_le, MatchOption};
ghost use Rattle.gl_verilog.specs.Resolve as resolve;
ghost use Rattle.gl_verilog.specs.View.{kind_of};
ghost use Rattle.gl_verilog_elaborator.specs.Elaborated as made;
ghost use Rattle.gl_verilog_elaborator.specs.View.{Gives, scope_of};
ghost use Rattle.gl_verilog_tokens.specs.View.{name_of, names_of, range_of, port_of, direction_of};

use crate::scope::{Declared, Scope, add, further, is_new};
use crate::stop::{Rule, Stop};
use gl_verilog::Kind;
use gl_verilog_tokens::{Direction, Word, WrittenPort, small_number, tokens_before};

// The bits of a range, or the one bit without a range, where they are at most 128.
fn width_in(range: Option<Word>) -> Option<u8>
    ensures { MatchOption result (nat_le (made.range_bits (range_of range.entry)) 128 ≡ false)
        (λ n. (n ≡ made.range_bits (range_of range.entry)) × (n ≤ 128)) }
{
    let Some(high) = range else {
        return Some(1);
    };
    let high = small_number(high.bytes)?;
    if high < 128 {
        Some(high as u8 + 1)
    } else {
        None
    }
}

// The width of a name that is new, which is the token k.
fn width_of_new(scope: &Scope, k: usize, range: Option<Word>, name: Word) -> Result<u8, Stop>
    ensures { Gives (λ w. w) (made.new_width (scope_of scope.now) k (range_of range.entry)
        (name_of name.entry)) result }
{
    if !is_new(scope, name) {
        return Err(Stop::Broken {
            rule: Rule::TwiceDeclared,
            token: k,
        });
    }
    match width_in(range) {
        Some(width) => Ok(width),
        None => Err(Stop::Broken {
            rule: Rule::TooWide,
            token: k,
        }),
    }
}

// A name that is new, which is the token k.
fn declare<'a>(
    scope: &mut Scope<'a>,
    k: usize,
    kind: Kind,
    range: Option<Word<'a>>,
    name: Word<'a>,
) -> Result<(), Stop>
    ensures { Gives (λ _. scope_of scope.new) (made.declared (scope_of scope.old) k
        (resolve.declare (kind_of kind) (range_of range.entry) (name_of name.entry))) result }
{
    let width = width_of_new(scope, k, range, name)?;
    add(
        scope,
        name,
        Declared {
            width,
            is_vector: range.is_some(),
            kind,
            token: k,
        },
    )?;
    Ok(())
}

/// Names of one kind; the first is the token k.
pub(crate) fn declare_all<'a>(
    scope: &mut Scope<'a>,
    k: usize,
    kind: Kind,
    range: Option<Word<'a>>,
    names: &[Word<'a>],
) -> Result<(), Stop>
    ensures { Gives (λ _. scope_of scope.new) (made.declared_all (kind_of kind)
        (range_of range.entry) (scope_of scope.old) k (names_of names.now)) result }
{
    let mut at = k;
    for name in names {
        declare(scope, at, kind, range, *name)?;
        at = further(at, 2)?;
    }
    Ok(())
}

// What a port is.
fn port_kind(direction: Direction) -> Kind
    ensures { kind_of result ≡ resolve.port_kind (direction_of direction) }
{
    match direction {
        Direction::In | Direction::InWire => Kind::Input,
        Direction::Out | Direction::OutWire => Kind::OutputWire,
        Direction::OutReg => Kind::OutputRegister,
    }
}

// A port whose name is the token k.
fn declare_port<'a>(scope: &mut Scope<'a>, k: usize, port: &WrittenPort<'a>) -> Result<(), Stop>
    ensures { Gives (λ _. scope_of scope.new) (made.declared (scope_of scope.old) k
        (resolve.declare (resolve.port_kind (direction_of port.now.direction))
        (range_of port.now.range) (name_of port.now.name))) result }
{
    declare(scope, k, port_kind(port.direction), port.range, port.name)
}

/// The ports; the first begins at the token k. The token behind what ends them.
pub(crate) fn declare_ports<'a>(
    scope: &mut Scope<'a>,
    k: usize,
    ports: &[WrittenPort<'a>],
) -> Result<usize, Stop>
    ensures { Gives (made.ported (scope_of scope.new)) (made.declared_ports (scope_of scope.old) k
        (map port_of ports.now)) result }
{
    let mut at = k;
    for port in ports {
        let name = further(at, tokens_before(port))?;
        declare_port(scope, name, port)?;
        at = further(name, 2)?;
    }
    Ok(at)
}

// 2 to the power of a number of bits.
fn power(bits: u8) -> u64
    requires { bits ≤ 32 }
    ensures { result ≡ 2 ^ bits }
{
    1u64 << bits
}

// j for 2^j words, with j from 1 to the first argument.
#[tactic(auto, using(crate::proofs::Powers::sizes))]
fn bits_to(most: u8, words: u64) -> Option<u8>
    requires { most ≤ 32 }
    ensures { result ≡ resolve.address_bits_to most words }
{
    if most == 0 {
        return None;
    }
    if words == power(most) {
        return Some(most);
    }
    bits_to(most - 1, words)
}

// The address bits of a memory whose last word has this number.
#[tactic(auto, using(crate::proofs::Powers::words))]
fn address_bits_of(last: Word) -> Option<u8>
    ensures { result ≡ resolve.address_bits_of (resolve.decimal_number (name_of last.entry) + 1) }
{
    let last = small_number(last.bytes)?;
    bits_to(32, u64::from(last) + 1)
}

/// A memory whose name is the token k.
pub(crate) fn declare_memory<'a>(
    scope: &mut Scope<'a>,
    k: usize,
    range: Option<Word<'a>>,
    name: Word<'a>,
    last: Word,
) -> Result<(), Stop>
    ensures { Gives (λ _. scope_of scope.new) (made.declared_memory (scope_of scope.old) k
        (range_of range.entry) (name_of name.entry) (name_of last.entry)) result }
{
    let width = width_of_new(scope, k, range, name)?;
    let Some(address_bits) = address_bits_of(last) else {
        return Err(Stop::Broken {
            rule: Rule::BadMemory,
            token: k,
        });
    };
    add(
        scope,
        name,
        Declared {
            width,
            is_vector: range.is_some(),
            kind: Kind::Memory { address_bits },
            token: k,
        },
    )?;
    Ok(())
}
