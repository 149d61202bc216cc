//! Schemas from their text.

ghost use Rattle.std.specs.Prelude.{◌≡◌, ◌↔◌, ◌⊎◌, ℕ, List, IfOk};
ghost use Rattle.gl_schema.specs.declared.schema.Schema as types;
ghost use Rattle.gl_schema.specs.SchemaText.{IsSchemaText};
ghost use Rattle.gl_schema.specs.SchemaFaults.{Gives, IsFirstFault, schema_of};
ghost use Rattle.gl_schema.specs.declared.fault.SchemaFault.{SchemaFault};
ghost use Rattle.gl_schema.specs.declared.fault.SchemaFault.TheVariants.{Memory};

use crate::fault::SchemaFault;
use crate::lexing::{Standing, finish, take};
use crate::reading::Reading;
use crate::schema::Schema;
use std::alloc::Global;

/// The schema of a text: `stream name ( name kind , .. ) ;`, once or more, and
/// `parameter name kind ;` between them, with comments from `--` to the end of a line. The fault is
/// the first one from the left.
pub fn read_schema(alloc: Global, text: &[u8]) -> Result<Schema, SchemaFault>
    // What is read is the schema of the text.
    ensures found { IfOk result (IsSchemaText text.now) }
    // A text that has a schema is read, unless memory runs out.
    ensures only { (schema : types.Schema) → IsSchemaText text.now schema
        → Gives result (Ok schema) }
    // Which fault it is.
    ensures exact { Gives result (schema_of text.now) }
{
    read(alloc, text)
}

fn read(alloc: Global, text: &[u8]) -> Result<Schema, SchemaFault>
    ensures { Gives result (schema_of text.now) }
{
    let mut reading = Reading::new(alloc);
    let mut standing = Standing::Between;
    for (at, byte) in text.iter().enumerate() {
        (standing, reading) = take(alloc, text, at, *byte, standing, reading)?;
    }
    finish(alloc, text, standing, reading)?.end(text.len() as u64)
}

/// Each text has exactly one reading: a schema, or a first fault, which is never want of memory.
pub fn one_reading()
    ensures schema { (text : List ℕ) (s : types.Schema) → (schema_of text
        ≡ Ok s) ↔ IsSchemaText text s }
    ensures one { (text : List ℕ) (s t : types.Schema)
        → IsSchemaText text s → IsSchemaText text t → s ≡ t }
    ensures either { (text : List ℕ)
        → ((s : types.Schema) × IsSchemaText text s) ⊎ ((e : SchemaFault) × IsFirstFault text e) }
    ensures never_both { (text : List ℕ) (s : types.Schema) (e : SchemaFault)
        → IsSchemaText text s → IsFirstFault text e → ⊥ }
    ensures of_the_text { (text : List ℕ) → IsFirstFault text Memory → ⊥ }
{}
