//! From the words of `explain S Q` to a status.

ghost use Rattle.std.specs.Prelude.{◌≡◌, IfOk};
ghost use Rattle.gl_top_forms.specs.declared.command.Command.TheVariants.{Explain};
ghost use Rattle.gl_top_forms.specs.Forms.{IsCommand, IsNamed};
ghost use Rattle.gl_top_status.specs.Refusals.{puts};
ghost use Rattle.gl_top_status.specs.Texts.{SchemaPasses};
ghost use Rattle.gl_top_explain.specs.Ending.{EndsExplain, IsPlanText, LeavesPlan, LeavesQuery};

use crate::explaining::explain_query;
use gl_outside::{Shelf, Sink};
use gl_schema::Schema;
use gl_top_forms::{Part, Taken};
use gl_top_status::{Refusal, Status, fetch, fetch_schema, show, tell};
use std::alloc::Global;

// Fetches the query and explains it.
fn explain_text<S: Shelf>(
    alloc: Global,
    shelf: &mut S,
    words: &Taken<'_>,
    schema: &Schema,
) -> Result<Vec<u8>, Refusal>
    requires named { IsNamed words.now Part.Query }
    requires passes { SchemaPasses (S.state shelf.old).told words.now schema.now }
    requires names { (S.state shelf.old).names ≡ words.now }
    ensures plan { IfOk result (λ v. IsPlanText (S.state shelf.old).told words.now v.items) }
    ensures leaves { LeavesQuery words.now schema.now (S.state shelf.old) (S.state shelf.new)
        result }
{
    let text = fetch(alloc, shelf, words, Part::Query)?;
    explain_query(alloc, schema, &text)
}

// Fetches the schema and the query, and explains it.
fn explain_texts<S: Shelf>(
    alloc: Global,
    shelf: &mut S,
    words: &Taken<'_>,
) -> Result<Vec<u8>, Refusal>
    requires named { IsNamed words.now Part.Query }
    requires names { (S.state shelf.old).names ≡ words.now }
    ensures plan { IfOk result (λ v. IsPlanText (S.state shelf.old).told words.now v.items) }
    ensures leaves { LeavesPlan words.now (S.state shelf.old) (S.state shelf.new) result }
{
    let schema = fetch_schema(alloc, shelf, words)?;
    explain_text(alloc, shelf, words, &schema)
}

/// Does what the words of `explain S Q` say: writes the query in its canonical form and its plan, and
/// answers the status. Where it ends before that is done, it writes one line to `notes`.
pub fn answer_explain<S: Shelf, K: Sink, N: Sink>(
    alloc: Global,
    words: &Taken<'_>,
    shelf: &mut S,
    out: &mut K,
    notes: &mut N,
) -> Status
    requires explains { IsCommand words.now Explain }
    requires names { (S.state shelf.old).names ≡ words.now }
    ensures { EndsExplain words.now (S.state shelf.old) (S.state shelf.new)
        (puts (K.state out.old) (K.state out.new)) (puts (N.state notes.old) (N.state notes.new))
        result }
{
    match explain_texts(alloc, shelf, words) {
        Ok(bytes) => show(&bytes, out, notes),
        Err(refusal) => tell(notes, words, &refusal),
    }
}
