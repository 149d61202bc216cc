//! What help writes: how each command is called, and what it writes.

ghost use Rattle.std.specs.Prelude.{◌≡◌, ◌++◌, IfOk, OnOk};
ghost use Rattle.std.specs.List.{flat_map};
ghost use Rattle.gl_top_forms.specs.Help as spec;

use crate::command::Command;
use gl_bits::Memory;
use std::alloc::Global;

// The commands that help tells of where it is asked on none.
const TOLD: [Command; 14] = [
    Command::Compile,
    Command::Figures,
    Command::Explain,
    Command::Run,
    Command::Sim,
    Command::Load,
    Command::Vcd,
    Command::Undump,
    Command::Many,
    Command::ManyFigures,
    Command::ManyRun,
    Command::WhyRun,
    Command::HelpOf,
    Command::Version,
];

// What the letters stand for.
#[tactic(auto, unfolding(crate::specs::Help::letter_line))]
fn letter_line() -> &'static [u8]
    ensures { result.now ≡ spec.letter_line }
{
    b"S is a schema, Q a query, T a tuple file, V a Verilog text, D a dump: names of files. N is a number.\n"
}

// The two lines of a command.
#[tactic(auto, unfolding(crate::specs::Help::help_lines))]
fn help_lines(command: Command) -> &'static [u8]
    ensures { result.now ≡ spec.help_lines command }
{
    match command {
        Command::Compile => b"compile S Q\n    the Verilog text of the query Q over the schema S\n",
        Command::Figures => {
            b"figures S Q\n    latency and gaps in cycles, copies, bits of registers and of memories\n"
        }
        Command::Explain => b"explain S Q\n    the query in its canonical form, and its plan\n",
        Command::Run => {
            b"run S Q T [--start N]\n    what the Verilog text does over the tuple file T, line by line\n"
        }
        Command::Sim => {
            b"sim S V T --extra N\n    what the Verilog text V does over T, up to N cycles behind it\n"
        }
        Command::Load => b"load N\n    what a fixed query makes of N tuples, 1 to 1000000\n",
        Command::Vcd => b"vcd S Q T [--start N]\n    the run over T as a value change dump\n",
        Command::Undump => b"undump D\n    the lines of the result that the dump D shows\n",
        Command::Many => b"many S Q\n    one Verilog text for up to eight queries, parted by ;\n",
        Command::ManyFigures => {
            b"manyfigures S Q\n    the latency of each of these queries, and the gap of all\n"
        }
        Command::ManyRun => {
            b"manyrun S Q T [--start N]\n    what that text does over T, each line with its query's name\n"
        }
        Command::WhyRun | Command::Why => {
            b"why S Q [T]\n    why these texts are refused, where, and what to write in its place\n"
        }
        Command::HelpOf => b"help [COMMAND]\n    these lines, or those of one command\n",
        Command::Help => b"help\n    these lines\n",
        Command::DashedHelp => b"--help\n    these lines\n",
        Command::Version => b"--version\n    the version of the program\n",
    }
}

// Appends bytes.
fn put(text: &mut Vec<u8>, bytes: &[u8]) -> Result<(), Memory>
    ensures { OnOk result (text.new.items ≡ text.old.items ++ bytes.now) }
{
    match text.extend_from_slice(bytes) {
        Ok(()) => Ok(()),
        Err(_) => Err(Memory),
    }
}

// Appends the lines of some commands.
fn put_lines(text: &mut Vec<u8>, commands: &[Command]) -> Result<(), Memory>
    ensures { OnOk result (text.new.items
        ≡ text.old.items ++ flat_map spec.help_lines commands.now) }
{
    let Some((command, others)) = commands.split_first() else {
        return Ok(());
    };
    put(text, help_lines(*command))?;
    put_lines(text, others)
}

// The lines of some commands, and what the letters stand for.
fn lines_of(alloc: Global, commands: &[Command]) -> Result<Vec<u8>, Memory>
    ensures { IfOk result (λ v. v.items
        ≡ flat_map spec.help_lines commands.now ++ spec.letter_line) }
{
    let mut text = Vec::new(alloc);
    put_lines(&mut text, commands)?;
    put(&mut text, letter_line())?;
    Ok(text)
}

/// The lines of the command that help is asked on, or of all.
#[tactic(auto, unfolding(crate::specs::Help::help_text))]
pub fn help_text(alloc: Global, topic: Option<Command>) -> Result<Vec<u8>, Memory>
    ensures { IfOk result (λ v. v.items ≡ spec.help_text topic) }
{
    match topic {
        Some(command) => lines_of(alloc, &[command]),
        None => lines_of(alloc, &TOLD),
    }
}
