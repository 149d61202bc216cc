//! Showing what a dump tells.

ghost use Rattle.std.specs.Prelude.{◌≡◌, []};
ghost use Rattle.gl_outside.specs.States.{IsCalm};
ghost use Rattle.gl_top_forms.specs.declared.command.Command.TheVariants.{Undump};
ghost use Rattle.gl_top_forms.specs.Forms.{IsCommand};
ghost use Rattle.gl_top_inputs.specs.Causes.{Change};
ghost use Rattle.gl_top_status.specs.Texts.{HasText};
ghost use Rattle.gl_top.specs.Calls.{call_of, call_over};
ghost use Rattle.gl_top.specs.Verdicts.{IsAnswer};

use crate::desk::Desk;
use gl_outside::{Shelf, Sink};
use gl_top_forms::{Part, Taken};
use gl_top_status::{Refusal, Status, fetch, tell, tell_write_fault};
use gl_vcd as vcd;
use std::alloc::Global;

// Writes the lines that a dump shows, and notes how that failed.
fn show_dump<S: Shelf, K: Sink, N: Sink>(
    alloc: Global,
    words: &Taken<'_>,
    dump: &[u8],
    desk: &mut Desk<S, K, N>,
) -> Status
    requires undumps { IsCommand words.now Undump }
    requires empty { desk.old.text.items ≡ [] }
    ensures shelf { S.state desk.new.shelf ≡ S.state desk.old.shelf }
    ensures answer { (c : Change)
        → HasText c.old.told words.now Part.Dump (λ text. dump.now ≡ text)
        → IsCalm c.old c.new
        → IsAnswer (call_over K.state N.state words.now c desk.old desk.new result) }
{
    match vcd::undump(alloc, dump, &mut desk.out) {
        vcd::Undump::Done => Status::Done,
        vcd::Undump::Fault(fault) => tell(&mut desk.notes, words, &Refusal::Dump(fault)),
        vcd::Undump::WriteFault => tell_write_fault(&mut desk.notes),
        vcd::Undump::Memory => tell(&mut desk.notes, words, &Refusal::Memory),
    }
}

/// Fetches the text of `undump D`, and writes the lines that it shows.
pub(crate) fn answer_undump<S: Shelf, K: Sink, N: Sink>(
    alloc: Global,
    words: &Taken<'_>,
    desk: &mut Desk<S, K, N>,
) -> Status
    requires undumps { IsCommand words.now Undump }
    requires names { (S.state desk.old.shelf).names ≡ words.now }
    requires empty { desk.old.text.items ≡ [] }
    ensures { IsAnswer (call_of S.state K.state N.state words.now desk.old desk.new result) }
{
    match fetch(alloc, &mut desk.shelf, words, Part::Dump) {
        Ok(dump) => show_dump(alloc, words, &dump, desk),
        Err(refusal) => tell(&mut desk.notes, words, &refusal),
    }
}
