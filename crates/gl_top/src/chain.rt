//! The chain of the commands that run what they compile: judge, keep the text, run, and tell.

ghost use Rattle.std.specs.Prelude.{◌≡◌, ℕ, List, [], IfOk};
ghost use Rattle.gl_outside.specs.States.{IsCalm};
ghost use Rattle.gl_outside.specs.Told.{Told};
ghost use Rattle.gl_top_inputs.specs.Causes.{Change, Leaves};
ghost use Rattle.gl_top.specs.Calls.{call_of, call_over};
ghost use Rattle.gl_top.specs.Verdicts.{IsAnswer, IsRun};

use crate::desk::Desk;
use gl_compiler::Outcome;
use gl_outside::{Shelf, Sink};
use gl_top_forms::Taken;
use gl_top_status::{Refusal, Status, tell, tell_write_fault};
use std::alloc::Global;

/// What was compiled to be run, over what, and what is written of its run.
pub(crate) trait Runs: Drop {
    // The words are the command.
    ghost wants: { List (List ℕ) → Type 0 };

    // The texts that the words name passed, and this is what they gave.
    ghost passes: { Self → (List ℕ → Told) → List (List ℕ) → Type 0 };

    // The Verilog text.
    ghost verilog: { Self → List ℕ };

    /// Judges the texts of the command.
    fn judge<S: Shelf>(alloc: Global, shelf: &mut S, words: &Taken<'_>) -> Result<Self, Refusal>
        requires wants { wants words.now }
        requires names { (S.state shelf.old).names ≡ words.now }
        ensures passes { IfOk result (λ it. passes it (S.state shelf.old).told words.now) }
        ensures leaves { Leaves words.now (S.state shelf.old) (S.state shelf.new) result };

    /// The Verilog text.
    fn text(&self) -> &[u8]
        ensures { result.now ≡ verilog self.now };

    /// Runs the text from the start that the words say, and writes what the command shows of it.
    fn write<K: Sink>(&self, alloc: Global, words: &Taken<'_>, out: &mut K) -> Outcome
        requires wants { wants words.now }
        requires passes { (told : List ℕ → Told) × passes self.now told words.now }
        ensures { (told : List ℕ → Told) → passes self.now told words.now
            → IsRun told words.now (verilog self.now) (K.state out.old) (K.state out.new) result };
}

// Runs the text that was kept, and notes how that failed.
fn finish<R: Runs, S: Shelf, K: Sink, N: Sink>(
    alloc: Global,
    words: &Taken<'_>,
    job: &R,
    desk: &mut Desk<S, K, N>,
) -> Status
    requires wants { R.wants words.now }
    requires passes { (told : List ℕ → Told) × R.passes job.now told words.now }
    requires kept { desk.old.text.items ≡ R.verilog job.now }
    ensures shelf { S.state desk.new.shelf ≡ S.state desk.old.shelf }
    ensures answer { (c : Change) → R.passes job.now c.old.told words.now → IsCalm c.old c.new
        → IsAnswer (call_over K.state N.state words.now c desk.old desk.new result) }
{
    match job.write(alloc, words, &mut desk.out) {
        Outcome::Done => Status::Done,
        Outcome::WriteFault => tell_write_fault(&mut desk.notes),
        Outcome::Memory => tell(&mut desk.notes, words, &Refusal::Memory),
    }
}

// Keeps the text, and runs it.
fn keep_and_finish<R: Runs, S: Shelf, K: Sink, N: Sink>(
    alloc: Global,
    words: &Taken<'_>,
    job: &R,
    desk: &mut Desk<S, K, N>,
) -> Status
    requires wants { R.wants words.now }
    requires passes { (told : List ℕ → Told) × R.passes job.now told words.now }
    requires empty { desk.old.text.items ≡ [] }
    ensures shelf { S.state desk.new.shelf ≡ S.state desk.old.shelf }
    ensures answer { (c : Change) → R.passes job.now c.old.told words.now → IsCalm c.old c.new
        → IsAnswer (call_over K.state N.state words.now c desk.old desk.new result) }
{
    match desk.text.extend_from_slice(job.text()) {
        Ok(()) => finish(alloc, words, job, desk),
        Err(_) => tell(&mut desk.notes, words, &Refusal::Memory),
    }
}

/// Judges the texts of a command that runs, and runs what was compiled of them.
pub(crate) fn answer_run<R: Runs, S: Shelf, K: Sink, N: Sink>(
    alloc: Global,
    words: &Taken<'_>,
    desk: &mut Desk<S, K, N>,
) -> Status
    requires wants { R.wants words.now }
    requires names { (S.state desk.old.shelf).names ≡ words.now }
    requires empty { desk.old.text.items ≡ [] }
    ensures { IsAnswer (call_of S.state K.state N.state words.now desk.old desk.new result) }
{
    match R::judge(alloc, &mut desk.shelf, words) {
        Ok(job) => keep_and_finish(alloc, words, &job, desk),
        Err(refusal) => tell(&mut desk.notes, words, &refusal),
    }
}
