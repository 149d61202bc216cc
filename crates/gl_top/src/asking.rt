//! Why texts are refused.

ghost use Rattle.std.specs.Prelude.{◌≡◌, []};
ghost use Rattle.gl_top_forms.specs.declared.command.Command.TheVariants.{Why, WhyRun};
ghost use Rattle.gl_top_forms.specs.Forms.{IsCommand, IsOfWhy};
ghost use Rattle.gl_top_inputs.specs.Causes.{Change, HasCause};
ghost use Rattle.gl_top.specs.Calls.{call_of, call_over};
ghost use Rattle.gl_top.specs.Shown.{fine_line};
ghost use Rattle.gl_top.specs.Verdicts.{IsAnswer};

use crate::desk::Desk;
use crate::showing::show_text;
use gl_outside::{Shelf, Sink};
use gl_top_forms::Taken;
use gl_top_inputs::{KeptTexts, judge_compile, judge_run};
use gl_top_status::{Refusal, Status, explain};
use gl_top_why::{Refused, explanation};
use std::alloc::Global;

// The line of texts that are not refused.
const FINE: &[u8] = b"nothing is refused\n";

// The line of texts that are not refused.
#[tactic(auto, unfolding(crate::specs::Shown::fine_line))]
fn fine_text() -> &'static [u8]
    ensures { result.now ≡ fine_line }
{
    FINE
}

// Writes the line of a refusal and what explains it. Where memory is short, the line alone.
fn tell_why<S: Shelf, K: Sink, N: Sink>(
    alloc: Global,
    words: &Taken<'_>,
    refusal: &Refusal,
    texts: &KeptTexts,
    desk: &mut Desk<S, K, N>,
) -> Status
    requires asks { IsOfWhy words.now }
    requires empty { desk.old.text.items ≡ [] }
    ensures shelf { S.state desk.new.shelf ≡ S.state desk.old.shelf }
    ensures answer { (c : Change) → HasCause words.now c refusal.now
        → IsAnswer (call_over K.state N.state words.now c desk.old desk.new result) }
{
    let refused = Refused {
        words,
        refusal,
        schema: &texts.schema,
        query: &texts.query,
        tuples: &texts.tuples,
        gaps: texts.gaps,
    };
    let rest = match explanation(alloc, &refused) {
        Ok(text) => text,
        Err(_) => String::new(alloc),
    };
    explain(
        words,
        refusal,
        rest.as_bytes(),
        &mut desk.out,
        &mut desk.notes,
    )
}

/// Judges the texts of `why S Q`, and tells why they are refused.
pub(crate) fn answer_why<S: Shelf, K: Sink, N: Sink>(
    alloc: Global,
    words: &Taken<'_>,
    desk: &mut Desk<S, K, N>,
) -> Status
    requires asks { IsCommand words.now Why }
    requires names { (S.state desk.old.shelf).names ≡ words.now }
    requires empty { desk.old.text.items ≡ [] }
    ensures { IsAnswer (call_of S.state K.state N.state words.now desk.old desk.new result) }
{
    let mut texts = KeptTexts::new(alloc);
    match judge_compile(alloc, &mut desk.shelf, words, &mut texts) {
        Ok(_compiled) => show_text(words, b"", fine_text(), desk),
        Err(refusal) => tell_why(alloc, words, &refusal, &texts, desk),
    }
}

/// Judges the texts of `why S Q T`, and tells why they are refused.
pub(crate) fn answer_why_run<S: Shelf, K: Sink, N: Sink>(
    alloc: Global,
    words: &Taken<'_>,
    desk: &mut Desk<S, K, N>,
) -> Status
    requires asks { IsCommand words.now WhyRun }
    requires names { (S.state desk.old.shelf).names ≡ words.now }
    requires empty { desk.old.text.items ≡ [] }
    ensures { IsAnswer (call_of S.state K.state N.state words.now desk.old desk.new result) }
{
    let mut texts = KeptTexts::new(alloc);
    match judge_run(alloc, &mut desk.shelf, words, &mut texts) {
        Ok(_job) => show_text(words, b"", fine_text(), desk),
        Err(refusal) => tell_why(alloc, words, &refusal, &texts, desk),
    }
}
