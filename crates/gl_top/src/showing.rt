//! The commands that compile and show: one query or several, their text or their figures.

ghost use Rattle.std.specs.Prelude.{◌≡◌, ◌⊎◌, ℕ, List, [], IfOk};
ghost use Rattle.gl_many.specs.Compiles.{statements_in};
ghost use Rattle.gl_outside.specs.States.{IsCalm};
ghost use Rattle.gl_outside.specs.Told.{Told};
ghost use Rattle.gl_top_forms.specs.declared.command.Command.TheVariants as command;
ghost use Rattle.gl_top_forms.specs.Forms.{IsCommand};
ghost use Rattle.gl_top_inputs.specs.Causes.{Change, Leaves};
ghost use Rattle.gl_top_inputs.specs.Passing.{AreCompiledTogether, IsCompiled, QueriesPass, QueryPasses};
ghost use Rattle.gl_top.specs.Calls.{call_of, call_over};
ghost use Rattle.gl_top.specs.Verdicts.{IsAnswer, IsGiven};

use crate::desk::Desk;
use gl_bits::Memory;
use gl_compiler::Compiled;
use gl_many::Many;
use gl_outside::{Shelf, Sink};
use gl_top_forms::Taken;
use gl_top_inputs::{KeptTexts, figures_text, judge_compile, judge_many, many_figures_text};
use gl_top_status::{Refusal, Status, show, tell};
use std::alloc::Global;

/// What was compiled of the texts of a command.
pub(crate) trait Shows: Drop {
    // The words ask for the Verilog text.
    ghost wants_text: { List (List ℕ) → Type 0 };

    // They ask for the figures.
    ghost wants_figures: { List (List ℕ) → Type 0 };

    // The texts that the words name passed, and this is what was compiled of them.
    ghost passes: { Self → (List ℕ → Told) → List (List ℕ) → Type 0 };

    // The Verilog text.
    ghost verilog: { Self → List ℕ };

    /// Judges the texts of the command.
    fn judge<S: Shelf>(alloc: Global, shelf: &mut S, words: &Taken<'_>) -> Result<Self, Refusal>
        requires wants { wants_text words.now ⊎ wants_figures words.now }
        requires names { (S.state shelf.old).names ≡ words.now }
        ensures passes { IfOk result (λ it. passes it (S.state shelf.old).told words.now) }
        ensures leaves { Leaves words.now (S.state shelf.old) (S.state shelf.new) result };

    /// The Verilog text.
    fn text(&self) -> &[u8]
        ensures same { result.now ≡ verilog self.now }
        ensures given { (told : List ℕ → Told) (words : List (List ℕ))
            → passes self.now told words → wants_text words
            → IsGiven told words (verilog self.now) (verilog self.now) };

    /// The lines of the figures.
    fn figures(&self, alloc: Global) -> Result<Vec<u8>, Memory>
        requires { (told : List ℕ → Told) × (words : List (List ℕ))
            × passes self.now told words }
        ensures { IfOk result (λ bytes. (told : List ℕ → Told) (words : List (List ℕ))
            → passes self.now told words → wants_figures words
            → IsGiven told words bytes.items (verilog self.now)) };
}

impl Shows for Compiled {
    ghost wants_text = { λ words. IsCommand words command.Compile };

    ghost wants_figures = { λ words. IsCommand words command.Figures };

    ghost passes = { λ c told words.
        IsCompiled c × QueryPasses told words c.schema c.statement };

    ghost verilog = { λ c. c.text.items };

    fn judge<S: Shelf>(
        alloc: Global,
        shelf: &mut S,
        words: &Taken<'_>,
    ) -> Result<Compiled, Refusal> {
        let mut kept = KeptTexts::new(alloc);
        judge_compile(alloc, shelf, words, &mut kept)
    }

    fn text(&self) -> &[u8] {
        self.text()
    }

    fn figures(&self, alloc: Global) -> Result<Vec<u8>, Memory> {
        let bytes = figures_text(alloc, self)?;
        Ok(bytes)
    }
}

impl Shows for Many {
    ghost wants_text = { λ words. IsCommand words command.Many };

    ghost wants_figures = { λ words. IsCommand words command.ManyFigures };

    ghost passes = { λ m told words.
        AreCompiledTogether m × QueriesPass told words m.schema (statements_in m) };

    ghost verilog = { λ m. m.text.items };

    fn judge<S: Shelf>(alloc: Global, shelf: &mut S, words: &Taken<'_>) -> Result<Many, Refusal> {
        judge_many(alloc, shelf, words)
    }

    fn text(&self) -> &[u8] {
        self.text()
    }

    fn figures(&self, alloc: Global) -> Result<Vec<u8>, Memory> {
        let bytes = many_figures_text(alloc, self)?;
        Ok(bytes)
    }
}

/// Keeps a Verilog text, and writes what is shown of it.
pub(crate) fn show_text<S: Shelf, K: Sink, N: Sink>(
    words: &Taken<'_>,
    verilog: &[u8],
    bytes: &[u8],
    desk: &mut Desk<S, K, N>,
) -> Status
    requires empty { desk.old.text.items ≡ [] }
    ensures shelf { S.state desk.new.shelf ≡ S.state desk.old.shelf }
    ensures answer { (c : Change) → IsGiven c.old.told words.now bytes.now verilog.now
        → IsCalm c.old c.new
        → IsAnswer (call_over K.state N.state words.now c desk.old desk.new result) }
{
    match desk.text.extend_from_slice(verilog) {
        Ok(()) => show(bytes, &mut desk.out, &mut desk.notes),
        Err(_) => tell(&mut desk.notes, words, &Refusal::Memory),
    }
}

/// Judges the texts of a command that compiles, and writes the Verilog text.
pub(crate) fn answer_text<C: Shows, S: Shelf, K: Sink, N: Sink>(
    alloc: Global,
    words: &Taken<'_>,
    desk: &mut Desk<S, K, N>,
) -> Status
    requires wants { C.wants_text words.now }
    requires names { (S.state desk.old.shelf).names ≡ words.now }
    requires empty { desk.old.text.items ≡ [] }
    ensures { IsAnswer (call_of S.state K.state N.state words.now desk.old desk.new result) }
{
    match C::judge(alloc, &mut desk.shelf, words) {
        Ok(compiled) => {
            let verilog = compiled.text();
            show_text(words, verilog, verilog, desk)
        }
        Err(refusal) => tell(&mut desk.notes, words, &refusal),
    }
}

// Writes the figures of what was compiled.
fn show_figures<C: Shows, S: Shelf, K: Sink, N: Sink>(
    alloc: Global,
    words: &Taken<'_>,
    compiled: &C,
    desk: &mut Desk<S, K, N>,
) -> Status
    requires wants { C.wants_figures words.now }
    requires passes { (told : List ℕ → Told) × C.passes compiled.now told words.now }
    requires empty { desk.old.text.items ≡ [] }
    ensures shelf { S.state desk.new.shelf ≡ S.state desk.old.shelf }
    ensures answer { (c : Change) → C.passes compiled.now c.old.told words.now → IsCalm c.old c.new
        → IsAnswer (call_over K.state N.state words.now c desk.old desk.new result) }
{
    match compiled.figures(alloc) {
        Ok(bytes) => show_text(words, compiled.text(), &bytes, desk),
        Err(_) => tell(&mut desk.notes, words, &Refusal::Memory),
    }
}

/// Judges the texts of a command that compiles, and writes the figures.
pub(crate) fn answer_figures<C: Shows, S: Shelf, K: Sink, N: Sink>(
    alloc: Global,
    words: &Taken<'_>,
    desk: &mut Desk<S, K, N>,
) -> Status
    requires wants { C.wants_figures words.now }
    requires names { (S.state desk.old.shelf).names ≡ words.now }
    requires empty { desk.old.text.items ≡ [] }
    ensures { IsAnswer (call_of S.state K.state N.state words.now desk.old desk.new result) }
{
    match C::judge(alloc, &mut desk.shelf, words) {
        Ok(compiled) => show_figures(alloc, words, &compiled, desk),
        Err(refusal) => tell(&mut desk.notes, words, &refusal),
    }
}
