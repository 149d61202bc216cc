//! From a statement to its canonical text.

ghost use Rattle.std.specs.Prelude.{◌≡◌, ◌++◌, OnOk, OnErr};
ghost use Rattle.gl_query.specs.Shapes.{statement_shape};
ghost use Rattle.gl_query_printer.specs.Printing.{canonical_text};

use crate::queries::canonical_tokens;
use crate::text::put_tokens;
use gl_bits::Memory;
use gl_query::Statement;
use std::alloc::Global;

/// Appends the canonical text of a statement. On want of memory nothing is appended.
pub fn print_statement(
    alloc: Global,
    statement: &Statement,
    into: &mut Vec<u8>,
) -> Result<(), Memory>
    ensures text { OnOk result (into.new.items ≡ into.old.items
        ++ canonical_text (statement_shape statement.now)) }
    ensures unchanged { OnErr result (into.new.items ≡ into.old.items) }
{
    let tokens = canonical_tokens(alloc, statement)?;
    let mut text = Vec::new(alloc);
    put_tokens(&mut text, &tokens)?;
    match into.extend_from_slice(&text) {
        Ok(()) => Ok(()),
        Err(_) => Err(Memory),
    }
}
