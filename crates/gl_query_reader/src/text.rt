//! From the text of a query, or from its tokens, to its statement.

ghost use Rattle.std.specs.Prelude.{◌≡◌, ℕ, Err, IfOk, IfErr};
ghost use Rattle.gl_query_reader.specs.States.{start};
ghost use Rattle.gl_query_reader.specs.Limits.{none_counted};
ghost use Rattle.gl_query_reader.specs.Reading.{run, answered, with_items, Answers};
ghost use Rattle.gl_query_reader.specs.Trees.{statement_of};
ghost use Rattle.gl_query_reader.specs.Mixed.{mixed_in};
ghost use Rattle.gl_query.specs.Shapes.{query_shape, statement_shape};
ghost use Rattle.gl_query.specs.Sizes.{QueryIsSmall};
ghost use Rattle.gl_query.specs.Trees.{StatementTree, statement_tree};
ghost use Rattle.gl_query.specs.declared.fault.QueryFault.TheVariants.{Syntax, TooDeep, MixedItems};
ghost use Rattle.gl_query_reader.specs.Grammar.{HaveStatement, HaveFault, HaveSyntaxFault, HaveDepthFault, HaveItemsFault, HasStatement, IsOrMemory, IsRegular, IsErrOrMemory, IsFault, IsSyntaxFault, IsDepthFault, IsItemsFault};

use crate::meaning::statement_meaning;
use crate::mixed::mixed_in;
use crate::parsing::{ReadFault, parsed};
use crate::written::WrittenStatement;
use gl_query::laws::trees_are_alike;
use gl_query::{QueryFault, Statement};
use gl_query_tokens::{Lexeme, lexemes};
use std::alloc::Global;

// The fault of reading, as it is answered.
fn fault_of(fault: ReadFault) -> QueryFault
    ensures { answered (Err fault) ≡ Err result }
{
    match fault {
        ReadFault::Syntax(at) => QueryFault::Syntax { at },
        ReadFault::TooDeep(at) => QueryFault::TooDeep { at },
        ReadFault::Memory => QueryFault::Memory,
    }
}

// What a statement that is written means, where its items go together.
fn meaning_of(alloc: Global, written: WrittenStatement) -> Result<Statement, QueryFault>
    ensures { Answers result
        (with_items (mixed_in (statement_of written).query) (statement_of written)) }
{
    if let Some(at) = mixed_in(&written.query) {
        drop(written);
        return Err(QueryFault::MixedItems { at });
    }
    match statement_meaning(alloc, written) {
        Ok(statement) => Ok(statement),
        Err(_) => Err(QueryFault::Memory),
    }
}

// The answer for tokens, exactly.
fn answer(alloc: Global, tokens: Vec<Lexeme>, end: u64) -> Result<Statement, QueryFault>
    ensures { Answers result (answered (run end none_counted start tokens.items)) }
{
    match parsed(alloc, tokens, end) {
        Ok(written) => meaning_of(alloc, written),
        Err(fault) => Err(fault_of(fault)),
    }
}

/// The statement of tokens, which end at this place: the one that they derive by the grammar, where
/// no limit is passed and the items of each select go together.
///
/// The faults are those of `read_query`; where all tokens are no statement but begin one, `Syntax` is
/// at their end.
pub fn read_lexemes(alloc: Global, tokens: Vec<Lexeme>, end: u64) -> Result<Statement, QueryFault>
    ensures found { IfOk result (λ s. HaveStatement tokens.items (statement_tree s)) }
    ensures only { (s : StatementTree) → HaveStatement tokens.items s → IsOrMemory result s }
    ensures small { IfOk result (λ s. QueryIsSmall (query_shape s.query)) }
    ensures fault { IfErr result (λ e. HaveFault tokens.items end e) }
    ensures syntax { (at : ℕ) → HaveSyntaxFault tokens.items end at →
        IsErrOrMemory result (Syntax at) }
    ensures too_deep { (at : ℕ) → HaveDepthFault tokens.items at →
        IsErrOrMemory result (TooDeep at) }
    ensures mixed_items { (at : ℕ) → HaveItemsFault tokens.items at →
        IsErrOrMemory result (MixedItems at) }
{
    answer(alloc, tokens, end)
}

/// The statement of a text: the one that its tokens derive by the grammar, where no limit is passed
/// and the items of each select go together.
///
/// `TooDeep` is at the first token that passes a limit, where the tokens up to it begin a statement;
/// `MixedItems` at the first item that shows that items do not go together; `Syntax` at the first token
/// such that no statement begins with the tokens up to it, or at the text's length where the whole
/// text is no statement but begins one. No other fault is answered.
pub fn read_query(alloc: Global, text: &[u8]) -> Result<Statement, QueryFault>
    ensures found { IfOk result (λ s. HasStatement text.now (statement_tree s)) }
    ensures only { (s : StatementTree) → HasStatement text.now s → IsOrMemory result s }
    ensures regular { IfOk result (λ s. IsRegular (statement_shape s)) }
    ensures fault { IfErr result (λ e. IsFault text.now e) }
    ensures syntax { (at : ℕ) → IsSyntaxFault text.now at → IsErrOrMemory result (Syntax at) }
    ensures too_deep { (at : ℕ) → IsDepthFault text.now at → IsErrOrMemory result (TooDeep at) }
    ensures mixed_items { (at : ℕ) → IsItemsFault text.now at →
        IsErrOrMemory result (MixedItems at) }
{
    trees_are_alike();
    match lexemes(alloc, text) {
        Ok(tokens) => read_lexemes(alloc, tokens, text.len() as u64),
        Err(_) => Err(QueryFault::Memory),
    }
}
