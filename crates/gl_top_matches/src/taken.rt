//! The words of a command, taken apart.

ghost use Rattle.std.specs.Prelude.{◌≡◌, [], IfOk, unwrap_or};
ghost use Rattle.clap.specs.Words.{first_value, found_of};
ghost use Rattle.gl_top_forms.specs.Forms.{IsCommand};

use crate::commands::matches_of;
use clap::ArgMatches;
use gl_outside::{Memory, Words};
use gl_top_forms::{Command, Taken};
use std::alloc::Global;

// The text that clap has for a name; no byte where it has none.
fn text_of<'a>(matches: &ArgMatches<'a>, id: &str) -> &'a str
    ensures { result.now ≡ unwrap_or (first_value (found_of matches.now) id.now) [] }
{
    match matches.get_str(id) {
        Some(text) => text,
        None => "",
    }
}

/// Takes the words of a command apart.
///
/// Want of memory is the one refusal: clap takes all words that the forms accept.
pub fn take<'a>(alloc: Global, words: &'a Words, command: Command) -> Result<Taken<'a>, Memory>
    requires { IsCommand words.now command }
    ensures { IfOk result (λ taken. taken ≡ words.now) }
{
    let matches = matches_of(alloc, words, command)?;
    Ok(Taken::new(
        words,
        text_of(&matches, "first"),
        text_of(&matches, "second"),
        text_of(&matches, "third"),
        matches.get_str("value"),
    ))
}
