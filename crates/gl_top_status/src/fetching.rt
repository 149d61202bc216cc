//! Fetching a text of a part, and the schema.

ghost use Rattle.std.specs.Prelude.{◌≡◌, IfOk};
ghost use Rattle.gl_outside.specs.States.{Stays};
ghost use Rattle.gl_top_forms.specs.Forms.{IsNamed};
ghost use Rattle.gl_top_status.specs.Texts as texts;
ghost use Rattle.gl_top_status.specs.Texts.{HasText, LeavesSchema, LeavesText, SchemaPasses};

use crate::Refusal;
use gl_outside::{ReadFault, Shelf, read_all};
use gl_schema::{Schema, read_schema};
use gl_top_forms::{Part, Taken};
use std::alloc::Global;

// A fault of a text of the shelf as a refusal, which names the part: so no `From` can say it.
fn read_refusal(part: Part, fault: ReadFault) -> Refusal
    ensures { result ≡ texts.read_refusal part fault }
{
    match fault {
        ReadFault::Missing => Refusal::Missing(part),
        ReadFault::Failed => Refusal::ReadFault(part),
        ReadFault::TooLong => Refusal::TooLong(part),
        ReadFault::Memory => Refusal::Memory,
    }
}

/// Fetches the text of a part.
///
/// `Missing`, `ReadFault` and `TooLong` name the part; `Memory` alone may come in place of any.
pub fn fetch<S: Shelf>(
    alloc: Global,
    shelf: &mut S,
    words: &Taken<'_>,
    part: Part,
) -> Result<Vec<u8>, Refusal>
    requires named { IsNamed words.now part }
    requires names { (S.state shelf.old).names ≡ words.now }
    ensures stays { Stays (S.state shelf.old) (S.state shelf.new) }
    ensures text { let told = (S.state shelf.old).told in
        IfOk result (λ v. HasText told words.now part (λ text. v.items ≡ text)) }
    ensures leaves { LeavesText words.now part (S.state shelf.old) (S.state shelf.new) result }
{
    match read_all(alloc, shelf, words.name(part)) {
        Ok(text) => Ok(text),
        Err(fault) => Err(read_refusal(part, fault)),
    }
}

/// Fetches the schema's text and reads it.
///
/// `Schema` is the first fault of the text, and comes exactly where it has one; `Memory` alone may come
/// in place of it.
pub fn fetch_schema<S: Shelf>(
    alloc: Global,
    shelf: &mut S,
    words: &Taken<'_>,
) -> Result<Schema, Refusal>
    requires named { IsNamed words.now Part.Schema }
    requires names { (S.state shelf.old).names ≡ words.now }
    ensures stays { Stays (S.state shelf.old) (S.state shelf.new) }
    ensures passes { let told = (S.state shelf.old).told in
        IfOk result (λ schema. SchemaPasses told words.now schema) }
    ensures leaves { LeavesSchema words.now (S.state shelf.old) (S.state shelf.new) result }
{
    let text = fetch(alloc, shelf, words, Part::Schema)?;
    Ok(read_schema(alloc, &text)?)
}

/// Fetches the schema's text and reads it, as `fetch_schema` does, and keeps the text.
pub fn keep_schema<S: Shelf>(
    alloc: Global,
    shelf: &mut S,
    words: &Taken<'_>,
    kept: &mut Vec<u8>,
) -> Result<Schema, Refusal>
    requires named { IsNamed words.now Part.Schema }
    requires names { (S.state shelf.old).names ≡ words.now }
    ensures stays { Stays (S.state shelf.old) (S.state shelf.new) }
    ensures passes { let told = (S.state shelf.old).told in
        IfOk result (λ schema. SchemaPasses told words.now schema) }
    ensures leaves { LeavesSchema words.now (S.state shelf.old) (S.state shelf.new) result }
{
    let text = fetch(alloc, shelf, words, Part::Schema)?;
    match read_schema(alloc, &text) {
        Ok(schema) => {
            *kept = text;
            Ok(schema)
        }
        Err(fault) => {
            *kept = text;
            Err(Refusal::from(fault))
        }
    }
}
