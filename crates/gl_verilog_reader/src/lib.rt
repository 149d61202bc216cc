//! From the text of a module to the module and where its ports stand, or the text's first fault.
#![tactic(auto)]

ghost use Rattle.std.specs.Prelude.{◌≡◌, ◌<◌, length, IfOk, IfErr, MatchResult};
ghost use Rattle.gl_verilog.specs.Module as spec;
ghost use Rattle.gl_verilog.specs.Text.{HasModule, IsSpelling};
ghost use Rattle.gl_verilog.specs.Written as grammar;
ghost use Rattle.gl_verilog.specs.View as meant;
ghost use Rattle.gl_verilog_elaborator.specs.View.{rule_of};
ghost use Rattle.gl_verilog_faults.specs.Faults.{IsBroken};
ghost use Rattle.gl_verilog_reader.specs.Reading.{fault_as, ByRules, Shows, IsFaultIn, IsJudged};
ghost use Rattle.gl_verilog_reader.specs.Sources.{IsSource};
ghost use Rattle.gl_verilog_tokens.specs.Placed.{places_in};
ghost use Rattle.gl_verilog_tokens.specs.View.{module_of, tokens_in};

pub mod source;

use gl_bits::Memory;
use gl_verilog::Module;
use gl_verilog_elaborator::{Rule, Stop, elaborate};
use gl_verilog_grammar::laws::one_verdict;
use gl_verilog_grammar::read_tokens;
pub use gl_verilog_tokens::VerilogFault;
use gl_verilog_tokens::{Lexeme, WrittenModule, lexemes};
pub use source::Source;
use source::{located, place_of};
use std::alloc::Global;

// The fault of a rule at a place.
fn fault_of(rule: Rule, at: u64) -> VerilogFault
    ensures { result ≡ fault_as (rule_of rule) at }
{
    match rule {
        Rule::Undeclared => VerilogFault::Undeclared { at },
        Rule::TwiceDeclared => VerilogFault::TwiceDeclared { at },
        Rule::TwiceDriven => VerilogFault::TwiceDriven { at },
        Rule::NeverDriven => VerilogFault::NeverDriven { at },
        Rule::WidthsDiffer => VerilogFault::WidthsDiffer { at },
        Rule::Loop => VerilogFault::Loop { at },
        Rule::BadMemory => VerilogFault::BadMemory { at },
        Rule::ClockRead => VerilogFault::ClockRead { at },
        Rule::TooWide => VerilogFault::TooWide { at },
        Rule::BadTarget => VerilogFault::BadTarget { at },
    }
}

// The fault of a rule that is broken, as a token shows.
fn fault_at(lexemes: &[Lexeme], rule: Rule, token: usize) -> VerilogFault
    requires { token < length lexemes.now }
    ensures { (w : grammar.WrittenModule) → IsBroken w (rule_of rule) token
        → ByRules (Shows (places_in lexemes.now) w) result }
{
    fault_of(rule, place_of(lexemes, token))
}

// The module that is meant, or the first rule that is broken, at its token's place.
fn judge(alloc: Global, lexemes: &[Lexeme], written: &WrittenModule) -> Result<Module, VerilogFault>
    requires { IsSpelling (tokens_in lexemes.now) (module_of written.now) }
    ensures { IsJudged (places_in lexemes.now) (module_of written.now) result }
{
    match elaborate(alloc, written) {
        Ok(design) => Ok(design),
        Err(Stop::Memory) => Err(VerilogFault::Memory),
        Err(Stop::Broken { rule, token }) => Err(fault_at(lexemes, rule, token)),
    }
}

/// The module of a text with the places of its name and its ports, where there is one; else the
/// text's first fault, kind and place. Want of memory may come in place of either.
pub fn read_source(alloc: Global, text: &[u8]) -> Result<Source, VerilogFault>
    ensures found { IfOk result (IsSource text.now) }
    ensures fault { IfErr result (IsFaultIn text.now) }
    ensures only { (m : spec.Module) → HasModule text.now m
        → MatchResult result (λ s. meant.module_of s.design ≡ m) (λ e. e ≡ VerilogFault.Memory) }
{
    one_verdict();
    let lexemes = lexemes(alloc, text)?;
    let written = read_tokens(alloc, &lexemes, text.len())?;
    let design = judge(alloc, &lexemes, &written)?;
    Ok(located(alloc, &lexemes, &written, design)?)
}

/// The module of a text, where there is one; else the text's first fault, kind and place. Want of
/// memory may come in place of either.
pub fn read_module(alloc: Global, text: &[u8]) -> Result<Module, VerilogFault>
    ensures found { IfOk result (λ m. HasModule text.now (meant.module_of m)) }
    ensures fault { IfErr result (IsFaultIn text.now) }
    ensures only { (m : spec.Module) → HasModule text.now m
        → MatchResult result (λ d. meant.module_of d ≡ m) (λ e. e ≡ VerilogFault.Memory) }
{
    one_verdict();
    let source = read_source(alloc, text)?;
    Ok(source.design)
}

/// The module of a text that has one.
pub fn read_known_module(alloc: Global, text: &[u8]) -> Result<Module, Memory>
    requires { (m : spec.Module) × HasModule text.now m }
    ensures { IfOk result (λ m. HasModule text.now (meant.module_of m)) }
{
    match read_module(alloc, text) {
        Ok(module) => Ok(module),
        // Nothing but want of memory stands in the way.
        Err(_) => Err(Memory),
    }
}
