//! How the commands are called.

ghost use Rattle.std.specs.Prelude.{◌≡◌, []};
ghost use Rattle.gl_top_forms.specs.Forms.{IsOfHelp};
ghost use Rattle.gl_top.specs.Calls.{call_of};
ghost use Rattle.gl_top.specs.Verdicts.{IsAnswer};

use crate::desk::Desk;
use crate::showing::show_text;
use gl_outside::{Shelf, Sink};
use gl_top_forms::{Taken, help_text};
use gl_top_status::{Refusal, Status, tell};
use std::alloc::Global;

/// Writes the lines of the command that help is asked on, or of all.
pub(crate) fn answer_help<S: Shelf, K: Sink, N: Sink>(
    alloc: Global,
    words: &Taken<'_>,
    desk: &mut Desk<S, K, N>,
) -> Status
    requires helps { IsOfHelp words.now }
    requires empty { desk.old.text.items ≡ [] }
    ensures { IsAnswer (call_of S.state K.state N.state words.now desk.old desk.new result) }
{
    match help_text(alloc, words.topic()) {
        Ok(bytes) => show_text(words, b"", &bytes, desk),
        Err(_) => tell(&mut desk.notes, words, &Refusal::Memory),
    }
}
