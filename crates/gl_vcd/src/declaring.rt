//! Reading the declarations of a dump, from the left.

ghost use Rattle.std.specs.Prelude.{◌≡◌, None, codes, false};
ghost use Rattle.gl_vcd.specs.Reading as spec;
ghost use Rattle.gl_vcd.specs.Lexing.{token_of};
ghost use Rattle.gl_bits.specs.Words.{IsWidth};
ghost use Rattle.gl_vcd.specs.Signals.{number_of_code};
ghost use Rattle.gl_vcd.specs.Standing.{CanDeclare, Declares, DeclaresOrStops, IsIndexed, IsNew, IsNewAt, declaring_of, scope_of, signal_of, signals_of, stage_of, stop_of};

use crate::fault::VcdFault;
use crate::signals::{Signal, Signals, show_none};
use crate::stop::Stop;
use crate::tokens::{Token, number_in};
use std::alloc::Global;

/// What may come next, up to the changes.
#[derive(Clone, Copy, Debug)]
pub enum Stage<'a> {
    /// A section.
    Section,
    /// What is passed over, to its `$end`.
    Passed,
    /// The kind of the scope.
    ScopeKind,
    /// The name of the scope.
    ScopeName,
    /// The end of the scope's section.
    ScopeEnd,
    /// The end of the section that closes the scope.
    UpscopeEnd,
    /// The type of a signal.
    VarType,
    /// The width of a signal.
    VarWidth,
    /// The identifier of a signal of this width.
    VarCode(u8),
    /// The name of a signal of this width and identifier.
    VarName(u8, &'a [u8]),
    /// The range of this signal, or the end of its section.
    VarRange(Signal<'a>),
    /// The end of the section of this signal.
    VarEnd(Signal<'a>),
    /// The end of the last section.
    DefinitionsEnd,
    /// The changes.
    Changes,
}

/// The one scope: it has not come, or is open, or is closed.
#[derive(Clone, Copy, PartialEq, Eq, Debug)]
pub enum Scope {
    /// No scope has come.
    Before,
    /// The scope is open: signals may be declared.
    Open,
    /// The scope is closed: no signal may come any more.
    Closed,
}

/// The signals so far, where the scope stands, and what may come next.
#[derive(Drop)]
pub struct Declaring<'a> {
    /// The signals that were declared, in their order.
    pub signals: Signals<'a>,
    /// How far the one scope has come.
    pub scope: Scope,
    /// What may come next, with what is known of a signal that is begun.
    pub stage: Stage<'a>,
}

// The token cannot stand there.
fn misplaced(token: Token) -> VcdFault
    ensures { result ≡ VcdFault.Syntax token.entry.at }
{
    VcdFault::Syntax {
        at: token.at as u64,
    }
}

// A fault of a token, as why reading stops.
fn as_stop(read: Result<(), VcdFault>) -> Result<(), Stop>
    ensures { result ≡ stop_of read }
{
    match read {
        Ok(()) => Ok(()),
        Err(fault) => Err(Stop::Fault(fault)),
    }
}

// Whether a section is passed over.
fn is_passed(token: Token) -> bool
    ensures { result ≡ spec.is_passed (token_of token.entry) }
{
    let word = token.bytes;
    word == b"$date".as_slice()
        || word == b"$version".as_slice()
        || word == b"$comment".as_slice()
        || word == b"$timescale".as_slice()
}

fn is_end(token: Token) -> bool
    ensures { result ≡ spec.is (token_of token.entry) (codes "$end") }
{
    token.bytes == b"$end".as_slice()
}

impl<'a> Declaring<'a> {
    /// In front of the first token.
    pub fn new(alloc: Global) -> Declaring<'a>
        ensures is { declaring_of result ≡ spec.start }
        ensures can { CanDeclare result }
    {
        Declaring {
            signals: Signals::new(alloc),
            scope: Scope::Before,
            stage: Stage::Section,
        }
    }

    // A token that must be so goes on, and any other cannot stand there.
    fn only(&mut self, fits: bool, token: Token, next: Stage<'a>) -> Result<(), VcdFault>
        requires indexed { IsIndexed self.old.signals }
        requires new { IsNewAt (signals_of self.old.signals) (stage_of next) }
        ensures { let r = declaring_of self.old in
            Declares (spec.only fits (token_of token.entry) (spec.to r (stage_of next.entry))) self.new result }
    {
        if !fits {
            return Err(misplaced(token));
        }
        self.stage = next;
        Ok(())
    }

    // A section begins.
    fn begin(&mut self, token: Token) -> Result<(), VcdFault>
        requires { IsIndexed self.old.signals }
        ensures { let r = declaring_of self.old in
            Declares (spec.section_next r (token_of token.entry)) self.new result }
    {
        let word = token.bytes;
        let scope = self.scope;
        if is_passed(token) {
            self.only(true, token, Stage::Passed)
        } else if word == b"$scope".as_slice() {
            self.only(scope == Scope::Before, token, Stage::ScopeKind)
        } else if word == b"$upscope".as_slice() {
            self.only(scope == Scope::Open, token, Stage::UpscopeEnd)
        } else if word == b"$var".as_slice() {
            self.only(scope == Scope::Open, token, Stage::VarType)
        } else if word == b"$enddefinitions".as_slice() {
            self.end_definitions(token)
        } else {
            Err(misplaced(token))
        }
    }

    // The declarations end: their signals show a result.
    fn end_definitions(&mut self, token: Token) -> Result<(), VcdFault>
        requires { IsIndexed self.old.signals }
        ensures { let r = declaring_of self.old in
            Declares (spec.definitions_end r (token_of token.entry)) self.new result }
    {
        if self.scope == Scope::Open {
            return Err(misplaced(token));
        }
        if show_none(self.signals.list.as_slice()) {
            return Err(VcdFault::NoPort {
                at: token.at as u64,
            });
        }
        self.stage = Stage::DefinitionsEnd;
        Ok(())
    }

    // The scope is opened or closed.
    fn set_scope(&mut self, token: Token, scope: Scope) -> Result<(), VcdFault>
        requires { IsIndexed self.old.signals }
        ensures { let r = declaring_of self.old in
            Declares (spec.scope_next r (scope_of scope) (token_of token.entry)) self.new result }
    {
        if !is_end(token) {
            return Err(misplaced(token));
        }
        self.scope = scope;
        self.stage = Stage::Section;
        Ok(())
    }

    // The width of a signal.
    fn set_width(&mut self, token: Token) -> Result<(), VcdFault>
        requires { IsIndexed self.old.signals }
        ensures { let r = declaring_of self.old in
            Declares (spec.width_next r (token_of token.entry)) self.new result }
    {
        let Some(width) = number_in(token.bytes) else {
            return Err(misplaced(token));
        };
        if width == 0 || width > 128 {
            return Err(VcdFault::TooWide {
                at: token.at as u64,
            });
        }
        self.stage = Stage::VarCode(width as u8);
        Ok(())
    }

    // The identifier of a signal, which no other has.
    fn set_code(&mut self, width: u8, token: Token<'a>) -> Result<(), VcdFault>
        requires indexed { IsIndexed self.old.signals }
        requires width { IsWidth width }
        ensures { let r = declaring_of self.old in
            Declares (spec.code_next r width (token_of token.entry)) self.new result }
    {
        if is_end(token) {
            return Err(misplaced(token));
        }
        if self.signals.number_of_code(token.bytes).is_some() {
            return Err(VcdFault::Twice {
                at: token.at as u64,
            });
        }
        self.stage = Stage::VarName(width, token.bytes);
        Ok(())
    }

    // The name of a signal, which no other has.
    fn set_name(&mut self, width: u8, code: &'a [u8], token: Token<'a>) -> Result<(), VcdFault>
        requires indexed { IsIndexed self.old.signals }
        requires width { IsWidth width }
        requires code { number_of_code (signals_of self.old.signals) code.now ≡ None }
        ensures { let r = declaring_of self.old in
            Declares (spec.name_next r width code.now (token_of token.entry)) self.new result }
    {
        if is_end(token) {
            return Err(misplaced(token));
        }
        if self.signals.number_of_name(token.bytes).is_some() {
            return Err(VcdFault::Twice {
                at: token.at as u64,
            });
        }
        self.stage = Stage::VarRange(Signal {
            code,
            name: token.bytes,
            width,
        });
        Ok(())
    }

    // A signal is declared.
    fn declare(&mut self, signal: Signal<'a>) -> Result<(), Stop>
        requires indexed { IsIndexed self.old.signals }
        requires new { IsNew (signals_of self.old.signals) (signal_of signal) }
        ensures { let r = declaring_of self.old in
            DeclaresOrStops (spec.declared r (signal_of signal.entry)) self.new result }
    {
        self.signals.add(signal)?;
        self.stage = Stage::Section;
        Ok(())
    }

    // The range of a signal, or the end of its section.
    #[tactic(auto, using(crate::proofs::Stops::stops))]
    fn end_name(&mut self, signal: Signal<'a>, token: Token<'a>) -> Result<(), Stop>
        requires indexed { IsIndexed self.old.signals }
        requires new { IsNew (signals_of self.old.signals) (signal_of signal) }
        ensures { let said = spec.range_next (declaring_of self.old) (signal_of signal.entry)
            (token_of token.entry) in
            DeclaresOrStops said self.new result }
    {
        if is_end(token) {
            return self.declare(signal);
        }
        let is_range = token.bytes.first() == Some(&b'[');
        as_stop(self.only(is_range, token, Stage::VarEnd(signal)))
    }

    /// Reads a token of the declarations.
    #[tactic(auto, using(crate::proofs::Stops::stops), unfolding(crate::specs::Reading::next))]
    pub fn take(&mut self, token: Token<'a>) -> Result<(), Stop>
        requires can { CanDeclare self.old }
        requires open { spec.is_between (stage_of self.old.stage) ≡ false }
        ensures { let r = declaring_of self.old in
            DeclaresOrStops (spec.next r (token_of token.entry)) self.new result }
    {
        let word = token.bytes;
        match self.stage {
            Stage::Section => as_stop(self.begin(token)),
            Stage::Passed if is_end(token) => as_stop(self.only(true, token, Stage::Section)),
            Stage::Passed => Ok(()),
            Stage::ScopeKind => {
                let is_module = word == b"module".as_slice();
                as_stop(self.only(is_module, token, Stage::ScopeName))
            }
            Stage::ScopeName => as_stop(self.only(!is_end(token), token, Stage::ScopeEnd)),
            Stage::ScopeEnd => as_stop(self.set_scope(token, Scope::Open)),
            Stage::UpscopeEnd => as_stop(self.set_scope(token, Scope::Closed)),
            Stage::VarType => {
                let is_type = word == b"wire".as_slice() || word == b"reg".as_slice();
                as_stop(self.only(is_type, token, Stage::VarWidth))
            }
            Stage::VarWidth => as_stop(self.set_width(token)),
            Stage::VarCode(width) => as_stop(self.set_code(width, token)),
            Stage::VarName(width, code) => as_stop(self.set_name(width, code, token)),
            Stage::VarRange(signal) => self.end_name(signal, token),
            Stage::VarEnd(signal) if is_end(token) => self.declare(signal),
            Stage::VarEnd(_) => as_stop(Err(misplaced(token))),
            Stage::DefinitionsEnd => as_stop(self.only(is_end(token), token, Stage::Changes)),
            // No token of the changes comes here.
            Stage::Changes => Ok(()),
        }
    }
}
