//! From tokens to the module as it is written, and that tokens spell one module at most. How bytes
//! become tokens, and what names mean, does not belong here.
#![tactic(auto)]

ghost use Rattle.gl_verilog_tokens.specs.View.{tokens_in};
ghost use Rattle.gl_verilog_grammar.specs.Answers.{IsAnswer, IsOnly};

pub mod closing;
pub mod counting;
pub mod expressions;
pub mod frames;
pub mod header;
pub mod laws;
pub mod matching;
pub mod next;
pub mod reading;
pub mod stacks;
pub mod stage;
pub mod statements;
pub mod trees;

use gl_verilog_tokens::{Lexeme, VerilogFault, WrittenModule};
use std::alloc::Global;

/// The module that these tokens spell as it is written, or the first token that cannot stand there
/// or passes a limit. `end` is the length of the text.
pub fn read_tokens<'a>(
    alloc: Global,
    lexemes: &[Lexeme<'a>],
    end: usize,
) -> Result<WrittenModule<'a>, VerilogFault>
    ensures answer { IsAnswer result lexemes.now end }
    ensures only { IsOnly result (tokens_in lexemes.now) }
{
    reading::written_of(alloc, lexemes, end)
}
