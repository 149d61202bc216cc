//! What a load comes to.

ghost use Rattle.std.specs.Prelude.{◌≡◌, ◌≤◌, []};
ghost use Rattle.gl_outside.specs.States.{IsCalm};
ghost use Rattle.gl_top_forms.specs.declared.command.Command.TheVariants.{Load};
ghost use Rattle.gl_top_forms.specs.Forms.{IsCommand, IsLoadOf};
ghost use Rattle.gl_top_inputs.specs.Causes.{Change};
ghost use Rattle.gl_top.specs.Calls.{call_of, call_over};
ghost use Rattle.gl_top.specs.Verdicts.{IsAnswer};

use crate::desk::Desk;
use crate::showing::show_text;
use gl_load::load;
use gl_outside::{Shelf, Sink};
use gl_top_forms::Taken;
use gl_top_status::{Refusal, Status, tell};
use std::alloc::Global;

// Loads `count` tuples, keeps the text that was run, and writes what is told of it.
fn load_many<S: Shelf, K: Sink, N: Sink>(
    alloc: Global,
    words: &Taken<'_>,
    count: u32,
    desk: &mut Desk<S, K, N>,
) -> Status
    requires many { IsLoadOf words.now count }
    requires some { 1 ≤ count }
    requires empty { desk.old.text.items ≡ [] }
    ensures shelf { S.state desk.new.shelf ≡ S.state desk.old.shelf }
    ensures answer { (c : Change) → IsCalm c.old c.new
        → IsAnswer (call_over K.state N.state words.now c desk.old desk.new result) }
{
    match load(alloc, count) {
        Ok(loaded) => {
            let verilog = loaded.compiled.text();
            show_text(words, verilog, &loaded.summary, desk)
        }
        Err(_) => tell(&mut desk.notes, words, &Refusal::Memory),
    }
}

/// Loads as many tuples as the words say.
pub(crate) fn answer_load<S: Shelf, K: Sink, N: Sink>(
    alloc: Global,
    words: &Taken<'_>,
    desk: &mut Desk<S, K, N>,
) -> Status
    requires loads { IsCommand words.now Load }
    requires empty { desk.old.text.items ≡ [] }
    ensures { IsAnswer (call_of S.state K.state N.state words.now desk.old desk.new result) }
{
    match words.load() {
        Some(count) => load_many(alloc, words, count, desk),
        None => unreachable!(),
    }
}
