//! What is declared so far, by name.

ghost use Rattle.std.specs.Prelude.{◌≡◌, ◌+◌, ◌^◌, ◌≤◌, map, option_map, MatchResult, OnOk, IfErr, false};
ghost use Rattle.gl_verilog_faults.specs.Demands.{is_among};
ghost use Rattle.gl_verilog_elaborator.specs.Judged as judged;
ghost use Rattle.gl_verilog_elaborator.specs.Elaborated as made;
ghost use Rattle.gl_verilog_elaborator.specs.View.{Gives, is_broken, declared_as, declarations_of, scope_of, known_of};
ghost use Rattle.gl_verilog_tokens.specs.View.{name_of};

use crate::stop::{Rule, Stop};
use gl_verilog::Kind;
use gl_verilog_tokens::Word;
use indexmap::IndexMap;

/// A declaration without its name, and the number of the token of the name.
#[derive(Clone, Copy)]
pub struct Declared {
    /// Its bits, of a memory those of a word.
    pub width: u8,
    /// Whether it has a range.
    pub is_vector: bool,
    /// What it is.
    pub kind: Kind,
    /// The token of its name.
    pub token: usize,
}

/// What is declared so far, in the order of the text.
#[derive(Drop)]
pub struct Scope<'a> {
    /// What each name declares; a name's place is the number of its declaration.
    pub names: IndexMap<&'a [u8], Declared>,
}

/// A declaration without its name, with its number.
#[derive(Clone, Copy)]
pub struct Known {
    /// Its number, from 0.
    pub number: usize,
    /// Its bits, of a memory those of a word.
    pub width: u8,
    /// Whether it has a range.
    pub is_vector: bool,
    /// What it is.
    pub kind: Kind,
}

/// The number of a token further on, where it can be counted.
pub(crate) fn further(token: usize, more: usize) -> Result<usize, Stop>
    ensures { MatchResult result (λ n. n ≡ token + more)
        (λ e. (is_broken e ≡ false) × (2 ^ 64 ≤ token + more)) }
{
    match token.checked_add(more) {
        Some(n) => Ok(n),
        None => Err(Stop::Memory),
    }
}

// What is known of a name.
fn look_up(scope: &Scope, name: &[u8]) -> Option<Known>
    ensures { option_map known_of result ≡ judged.known (declarations_of scope.now) name.now }
{
    match scope.names.get_full(name) {
        Some((number, _, declared)) => Some(Known {
            number,
            width: declared.width,
            is_vector: declared.is_vector,
            kind: declared.kind,
        }),
        None => None,
    }
}

/// What is known of a name at a target or a clock, which is the token with this number.
pub(crate) fn named(scope: &Scope, token: usize, name: Word) -> Result<Known, Stop>
    ensures { Gives known_of (judged.named (declarations_of scope.now) token (name_of name.entry))
        result }
{
    match look_up(scope, name.bytes) {
        Some(known) => Ok(known),
        None => Err(Stop::Broken {
            rule: Rule::Undeclared,
            token,
        }),
    }
}

/// The same of a name in an expression.
pub(crate) fn read(scope: &Scope, token: usize, name: Word) -> Result<Known, Stop>
    ensures { Gives known_of (judged.read (declarations_of scope.now) token (name_of name.entry))
        result }
{
    let known = named(scope, token, name)?;
    if name.bytes == b"clk".as_slice() {
        return Err(Stop::Broken {
            rule: Rule::ClockRead,
            token,
        });
    }
    Ok(known)
}

/// Whether a name has no declaration yet.
pub(crate) fn is_new(scope: &Scope, name: Word) -> bool
    ensures { result ≡ made.is_new (scope_of scope.now) (name_of name.entry) }
{
    !scope.names.contains_key(name.bytes)
}

/// Declares a name behind the others.
pub(crate) fn add<'a>(scope: &mut Scope<'a>, name: Word<'a>, declared: Declared) -> Result<(), Stop>
    requires { is_among (name_of name) (map (λ d. d.name) (declarations_of scope.old)) ≡ false }
    ensures done { OnOk result (scope_of scope.new ≡ made.with_declaration (scope_of scope.old)
        declared.token (declared_as (name.entry.bytes, declared))) }
    ensures stopped { IfErr result (λ e. is_broken e ≡ false) }
{
    scope.names.insert(name.bytes, declared)?;
    Ok(())
}
