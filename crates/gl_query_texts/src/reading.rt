//! Piece by piece, from the left.

ghost use Rattle.std.specs.Prelude.{◌≡◌, ◌≤◌, ◌-◌, map, reverse, [], vec_len, IfErr, IfOk, OnOk};
ghost use Rattle.std.specs.List.{AllByRecursion};
ghost use Rattle.gl_schema.specs.Schemas.{IsSchema};
ghost use Rattle.gl_query_texts.specs.Lists.{HasStatements, IsCheckedOver, IsFaultOrMemory, tree_of};
ghost use Rattle.gl_query_texts.specs.Pieces.{pieces_behind, pieces_left};
ghost use Rattle.gl_query_texts.specs.Reading.{GoesOn, HaveFirstFaultOrMemory, IsDone, IsWrongOrMemory, names_before};

use crate::accepting::judge_piece;
use crate::pieces::take_piece;
use gl_bits::Listed;
use gl_query::QueryFault;
use gl_query_check::Checked;
use gl_query_tokens::{Lexeme, lexemes};
use gl_schema::Schema;
use std::alloc::Global;

/// The statements of a text, in order, each with the schema over which it was checked.
pub type Statements = Listed<Checked>;

// Reads the first piece of what is left.
fn read_piece(
    alloc: Global,
    schema: &Schema,
    left: &mut Vec<Lexeme>,
    end: u64,
    statements: &mut Statements,
) -> Result<(), QueryFault>
    requires { IsSchema schema.now }
    ensures on { OnOk result (GoesOn schema.now (pieces_behind [] (reverse left.old.items) end)
        (pieces_left (reverse left.new.items) end) statements.old statements.new) }
    ensures shorter { OnOk result (vec_len left.new ≤ vec_len left.old - 1) }
    ensures fault { IfErr result (IsWrongOrMemory schema.now (names_before statements.old)
        (pieces_behind [] (reverse left.old.items) end)) }
{
    let piece = take_piece(alloc, left, end)?;
    let checked = judge_piece(alloc, schema, statements.as_slice(), piece)?;
    statements.push(checked)?;
    Ok(())
}

// Reads piece by piece until nothing is left.
fn read_pieces(
    alloc: Global,
    schema: &Schema,
    left: &mut Vec<Lexeme>,
    end: u64,
    statements: &mut Statements,
) -> Result<(), QueryFault>
    requires of_schema { IsSchema schema.now }
    requires empty { statements.old ≡ [] }
    ensures done { OnOk result
        (IsDone schema.now (pieces_behind [] (reverse left.old.items) end) statements.new) }
    ensures fault { IfErr result
        (HaveFirstFaultOrMemory schema.now (pieces_behind [] (reverse left.old.items) end)) }
{
    loop {
        read_piece(alloc, schema, left, end, statements)?;
        if left.is_empty() {
            return Ok(());
        }
    }
}

/// The statements of a text of several queries over a schema: one to eight, parted by `;`, each with a
/// name of its own behind INTO. A last `;` is allowed.
///
/// Else the first fault from the left: of the first piece of the text that has no statement what reading
/// finds in it, or the first rule of acceptance that its statement breaks, or, of its name, `TwiceNamed`
/// where an earlier statement has it, and `OutOfRange` where there are eight before it. Places are those
/// in the whole text. `Memory` alone may come in place of either.
pub fn read_statements(
    alloc: Global,
    schema: &Schema,
    text: &[u8],
) -> Result<Statements, QueryFault>
    requires { IsSchema schema.now }
    ensures statements { IfOk result (λ v. HasStatements schema.now text.now (map tree_of v)) }
    ensures checked { IfOk result (AllByRecursion (IsCheckedOver schema.now)) }
    ensures fault { IfErr result (IsFaultOrMemory schema.now text.now) }
{
    let Ok(tokens) = lexemes(alloc, text) else {
        return Err(QueryFault::Memory);
    };
    let mut left = tokens;
    left.reverse();
    let mut statements = Listed::new(alloc);
    read_pieces(alloc, schema, &mut left, text.len() as u64, &mut statements)?;
    Ok(statements)
}
