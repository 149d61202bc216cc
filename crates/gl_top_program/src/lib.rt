//! The program over the ends that the system gives it.
//!
//! Here belongs what ties the words of the command line, the real files, the standard streams and
//! the code that the process ends with to `gl_top::run`. What is done stands there.
#![tactic(auto)]

pub mod arguments;

ghost use Rattle.std.specs.Prelude.{◌≡◌, [], IfOk};
ghost use Rattle.std.specs.Process.{exit_status};
ghost use Rattle.gl_top.specs.Calls.{call_of};
ghost use Rattle.gl_top_status.specs.Statuses.{code_of};
ghost use Rattle.gl_top_status.specs.declared.status.Status.{Status};
ghost use Rattle.gl_top_program.specs.Exits.{EndsAs};

pub use arguments::words_in;
use gl_outside::{FileShelf, Memory, Shelf, Sink, StreamSink, Words};
use gl_top::{Desk, run};
use gl_top_forms::copied;
use gl_top_status::{Status, exit_code};
use std::alloc::Global;
use std::env;
use std::process::ExitCode;

/// Does what the words say, over any desk. The process is to end with the number of the status that
/// `run` answers.
pub fn run_over<S: Shelf, K: Sink, N: Sink>(
    alloc: Global,
    words: &Words,
    desk: &mut Desk<S, K, N>,
) -> ExitCode
    requires names { (S.state desk.old.shelf).names ≡ words.now }
    requires empty { desk.old.text.items ≡ [] }
    ensures { EndsAs (call_of S.state K.state N.state words.now desk.old desk.new)
        (exit_status result) }
{
    exit_code(run(alloc, words, desk))
}

// Makes the real ends: results go to standard output, and the notes to standard error.
fn ended(rt: HostRuntime) -> Result<ExitCode, Memory>
    ensures { IfOk result (λ code. (status : Status) × (exit_status code ≡ code_of status)) }
{
    let alloc = rt.alloc();
    let words = words_in(alloc, env::args(&rt))?;
    let shelf = FileShelf::new(rt, copied(alloc, &words)?);
    let out = StreamSink::new(rt.stdout());
    let notes = StreamSink::new(rt.stderr());
    let mut desk = Desk {
        shelf,
        out,
        notes,
        text: Vec::new(alloc),
    };
    let code = run_over(alloc, &words, &mut desk);
    // A desk is taken apart, and its parts are let go.
    let Desk {
        shelf: _shelf,
        out: _out,
        notes: _notes,
        text: _text,
    } = desk;
    Ok(code)
}

/// The whole program. The process ends with the number of a status: of which one `run_over` says.
pub fn program(rt: HostRuntime) -> ExitCode
    ensures { (status : Status) × (exit_status result ≡ code_of status) }
{
    match ended(rt) {
        Ok(code) => code,
        Err(Memory) => exit_code(Status::Memory),
    }
}
