//! From words to a status.

ghost use Rattle.std.specs.Prelude.{◌≡◌, ◌≢◌, []};
ghost use Rattle.gl_outside.specs.States.{Took};
ghost use Rattle.gl_top_forms.specs.Forms.{IsCommand, IsOfWhy};
ghost use Rattle.gl_top.specs.Calls.{call_of};
ghost use Rattle.gl_top.specs.Verdicts.{IsAnswer, IsComplete, Says, TellsFaults, TellsForm, TellsRefusal};

use crate::asking::{answer_why, answer_why_run};
use crate::chain::answer_run;
use crate::desk::Desk;
use crate::helping::answer_help;
use crate::loading::answer_load;
use crate::showing::{answer_figures, answer_text, show_text};
use crate::tracing::answer_sim;
use crate::undumping::answer_undump;
use crate::version::version_text;
use crate::writing::{Dump, Lines, NamedLines};
use gl_compiler::Compiled;
use gl_many::Many;
use gl_outside::{Shelf, Sink, Words};
use gl_top_explain::answer_explain;
use gl_top_forms::{Command, Taken, command_of};
use gl_top_inputs::below::laws_below;
use gl_top_matches::take;
use gl_top_status::{Refusal, Status, tell_words};
use std::alloc::Global;

// Does what the words of a command say, and notes how that failed.
fn answer_command<S: Shelf, K: Sink, N: Sink>(
    alloc: Global,
    command: Command,
    words: &Taken<'_>,
    desk: &mut Desk<S, K, N>,
) -> Status
    requires command { IsCommand words.now command }
    requires names { (S.state desk.old.shelf).names ≡ words.now }
    requires empty { desk.old.text.items ≡ [] }
    ensures { IsAnswer (call_of S.state K.state N.state words.now desk.old desk.new result) }
{
    match command {
        Command::Compile => answer_text::<Compiled, S, K, N>(alloc, words, desk),
        Command::Figures => answer_figures::<Compiled, S, K, N>(alloc, words, desk),
        Command::Explain => answer_explain(
            alloc,
            words,
            &mut desk.shelf,
            &mut desk.out,
            &mut desk.notes,
        ),
        Command::Run => answer_run::<Lines, S, K, N>(alloc, words, desk),
        Command::Sim => answer_sim(alloc, words, desk),
        Command::Load => answer_load(alloc, words, desk),
        Command::Vcd => answer_run::<Dump, S, K, N>(alloc, words, desk),
        Command::Undump => answer_undump(alloc, words, desk),
        Command::Many => answer_text::<Many, S, K, N>(alloc, words, desk),
        Command::ManyFigures => answer_figures::<Many, S, K, N>(alloc, words, desk),
        Command::ManyRun => answer_run::<NamedLines, S, K, N>(alloc, words, desk),
        Command::WhyRun => answer_why_run(alloc, words, desk),
        Command::Why => answer_why(alloc, words, desk),
        Command::HelpOf => answer_help(alloc, words, desk),
        Command::Help => answer_help(alloc, words, desk),
        Command::DashedHelp => answer_help(alloc, words, desk),
        Command::Version => show_text(words, b"", version_text(), desk),
    }
}

// Does what the words say, and notes how that failed.
fn answer<S: Shelf, K: Sink, N: Sink>(
    alloc: Global,
    words: &Words,
    desk: &mut Desk<S, K, N>,
) -> Status
    requires names { (S.state desk.old.shelf).names ≡ words.now }
    requires empty { desk.old.text.items ≡ [] }
    ensures { IsAnswer (call_of S.state K.state N.state words.now desk.old desk.new result) }
{
    match command_of(words) {
        Some(command) => match take(alloc, words, command) {
            Ok(taken) => answer_command(alloc, command, &taken, desk),
            Err(_) => tell_words(&mut desk.notes, words, &Refusal::Memory),
        },
        None => tell_words(&mut desk.notes, words, &Refusal::Usage),
    }
}

/// Does what the words say. `compile S Q` compiles the query of the text Q over the schema of the
/// text S, and writes the Verilog text to the desk's output; `figures S Q` writes its latency, gap and copies, and
/// the bits of its registers and memories; `run S Q T` writes what that text does over the tuple file
/// T, from registers and words of 0 or as `--start N` says. `load N` compiles a query of its own, runs
/// its text over N tuples, and tells what came out; `vcd S Q T` runs as `run` does, and writes the
/// values of all ports but the clock as a value change dump. `many S Q` compiles the queries of the text
/// Q, one to eight, to the text of one module, and writes it; `manyfigures S Q` writes the latency of each
/// and the gap of all; `manyrun S Q T` writes what that text does over T, each line with the name of its
/// query, from a start as `run` has it. These leave the text on the desk.
/// `undump D` reads such a dump of any origin back, and writes the lines of the result that it shows,
/// with all values in decimal. `--version` writes the version of the program, `help` and `--help` how each
/// command is called and what it writes, and `help COMMAND` that of one. `explain S Q`
/// writes the query in its canonical form and its plan. `sim S V T --extra N` writes what the Verilog
/// text V does over T, from registers and words of 0, with all values in decimal, up to the end, for
/// which it waits N cycles behind the last beat's; these leave no text.
/// `why S Q` and `why S Q T` write why `figures` and `run` refuse these texts: the line that they would
/// note, and what explains it, with their status; and a line where nothing is refused.
/// Where it ends before its work is done, and where no end came, it writes one line to the notes, and
/// of words of no form a second line, which names the wrong word.
///
/// The texts are fetched in the order in which they are named, and each is judged before the next is
/// fetched. With every status but `Done`, `WriteFault` and `NoEnd` nothing is written to the output, but by
/// `why`.
pub fn run<S: Shelf, K: Sink, N: Sink>(
    alloc: Global,
    words: &Words,
    desk: &mut Desk<S, K, N>,
) -> Status
    requires names { (S.state desk.old.shelf).names ≡ words.now }
    requires empty { desk.old.text.items ≡ [] }
    // How it ends and why, what was written, what was noted, and what text is left.
    ensures answer { IsAnswer
        (call_of S.state K.state N.state words.now desk.old desk.new result) }
    // What each status says.
    ensures says { Says (call_of S.state K.state N.state words.now desk.old desk.new result) }
    // With the status of a refusal that holds, what is noted is its line, or, by `why`, what is written
    // begins with it.
    ensures told { TellsRefusal
        (call_of S.state K.state N.state words.now desk.old desk.new result) }
    // Nothing is written but by what was asked for; `why` writes of a refusal.
    ensures untouched { result ≢ Status.Done → result ≢ Status.WriteFault
        → result ≢ Status.NoEnd → (IsOfWhy words.now → ⊥)
        → Took (K.state desk.old.out) (K.state desk.new.out) [] }
    // Words of no form, and texts that are refused, are told as such, unless something fails first.
    ensures formless { TellsForm
        (call_of S.state K.state N.state words.now desk.old desk.new result) }
    ensures exact { TellsFaults
        (call_of S.state K.state N.state words.now desk.old desk.new result) }
    // Where the texts pass and no count of faults rises, the work is done, unless memory runs out, or
    // a simulation has no end in time.
    ensures complete { IsComplete
        (call_of S.state K.state N.state words.now desk.old desk.new result) }
{
    laws_below();
    answer(alloc, words, desk)
}
