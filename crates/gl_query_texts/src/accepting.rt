//! One piece behind others: its statement, or what is wrong with it.

ghost use Rattle.std.specs.Prelude.{◌≡◌, bytes_eq, IfErr, IfOk};
ghost use Rattle.std.specs.List.{list_any};
ghost use Rattle.gl_schema.specs.Schemas.{IsSchema};
ghost use Rattle.gl_query_texts.specs.Lists.{IsCheckedOver, IsPiece, name_fault, tree_of};
ghost use Rattle.gl_query_texts.specs.Pieces as pieces;
ghost use Rattle.gl_query_texts.specs.Reading.{IsNamed, IsPieceFaultOrMemory, names_before};

use crate::pieces::Piece;
use gl_bits::limits::MOST_STATEMENTS;
use gl_query::laws::first_faults_are_exact;
use gl_query::{Name, QueryFault};
use gl_query_check::{Checked, check};
use gl_query_reader::read_lexemes;
use gl_schema::Schema;
use std::alloc::Global;

// Whether a statement has this name.
fn is_taken(name: &[u8], before: &[Checked]) -> bool
    ensures { result ≡ list_any (bytes_eq name.now) (names_before before.now) }
{
    match before.split_first() {
        None => false,
        Some((first, rest)) => {
            name == first.statement.name.text.as_slice() || is_taken(name, rest)
        }
    }
}

// What is wrong with the name of a statement behind others.
fn name_fault(before: &[Checked], name: &Name) -> Option<QueryFault>
    ensures { result ≡ name_fault (names_before before.now) name.now }
{
    if is_taken(name.text.as_slice(), before) {
        Some(QueryFault::TwiceNamed { at: name.at })
    } else if before.len() < MOST_STATEMENTS {
        None
    } else {
        Some(QueryFault::OutOfRange { at: name.at })
    }
}

// A statement whose name may stand behind others.
fn named(before: &[Checked], checked: Checked) -> Result<Checked, QueryFault>
    ensures { IsNamed (names_before before.now) checked result }
{
    match name_fault(before, &checked.statement.name) {
        None => Ok(checked),
        Some(fault) => {
            drop(checked);
            Err(fault)
        }
    }
}

/// The statement of a piece behind others, where it breaks no rule.
pub fn judge_piece(
    alloc: Global,
    schema: &Schema,
    before: &[Checked],
    piece: Piece,
) -> Result<Checked, QueryFault>
    requires { IsSchema schema.now }
    ensures is { IfOk result (λ c. IsPiece schema.now (names_before before.now)
        (pieces.piece piece.tokens.items piece.end) (tree_of c)) }
    ensures checked { IfOk result (IsCheckedOver schema.now) }
    ensures fault { IfErr result (IsPieceFaultOrMemory schema.now (names_before before.now)
        (pieces.piece piece.tokens.items piece.end)) }
{
    first_faults_are_exact();
    match read_lexemes(alloc, piece.tokens, piece.end) {
        Ok(statement) => match check(alloc, schema, statement) {
            Ok(checked) => named(before, checked),
            Err(fault) => Err(fault),
        },
        Err(fault) => Err(fault),
    }
}
