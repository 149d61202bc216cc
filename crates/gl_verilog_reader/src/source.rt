//! A module that was read, with the places that show its ports.

ghost use Rattle.std.specs.Prelude.{◌≡◌, ◌<◌, ◌+◌, length, map, IfOk};
ghost use Rattle.std.specs.List.{AllZip};
ghost use Rattle.gl_verilog.specs.Text.{IsSpelling};
ghost use Rattle.gl_verilog.specs.Written.{spell_ports};
ghost use Rattle.gl_verilog_reader.specs.Sources.{IsAt, IsLocated, port_tokens};
ghost use Rattle.gl_verilog_tokens.specs.Placed.{places_in};
ghost use Rattle.gl_verilog_tokens.specs.View.{module_of, port_of, tokens_in};

use gl_bits::Listed;
use gl_verilog::Module;
use gl_verilog_tokens::{Lexeme, WrittenModule, WrittenPort, tokens_before};
use std::alloc::{AllocError, Global};

/// A module that was read, and where in its text its name and its ports stand: the bytes, from 0.
#[derive(Drop, Debug)]
pub struct Source {
    /// The module.
    pub design: Module,
    /// The place of its name.
    pub name_at: u64,
    /// The places of the names of its ports, in the order of the header.
    pub ports_at: Listed<u64>,
}

/// The place of a token by its number.
pub(crate) fn place_of(lexemes: &[Lexeme], token: usize) -> u64
    requires { token < length lexemes.now }
    ensures { IsAt (places_in lexemes.now) token result }
{
    lexemes[token].at as u64
}

// The places of the names of ports, which begin behind the module's name and a bracket.
fn ports_at(
    alloc: Global,
    lexemes: &[Lexeme],
    ports: &[WrittenPort],
) -> Result<Vec<u64>, AllocError>
    requires { 3 + length (spell_ports (map port_of ports.now)) < length lexemes.now }
    ensures { IfOk result (λ v. AllZip (IsAt (places_in lexemes.now))
        (port_tokens 3 (map port_of ports.now)) v.items) }
{
    let mut places = Vec::new(alloc);
    let mut next = 3;
    for port in ports {
        let name = next + tokens_before(port);
        places.push(place_of(lexemes, name))?;
        next = name + 2;
    }
    Ok(places)
}

/// A module that these tokens spell, with the places of its name and its ports.
pub(crate) fn located(
    alloc: Global,
    lexemes: &[Lexeme],
    written: &WrittenModule,
    design: Module,
) -> Result<Source, AllocError>
    requires { IsSpelling (tokens_in lexemes.now) (module_of written.now) }
    ensures located { IfOk result (IsLocated (places_in lexemes.now) (module_of written.now)) }
    ensures same { IfOk result (λ s. s.design ≡ design) }
{
    let ports_at = ports_at(alloc, lexemes, &written.ports)?;
    Ok(Source {
        design,
        name_at: place_of(lexemes, 1),
        ports_at: Listed::from_vec(ports_at),
    })
}
