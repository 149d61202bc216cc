//! The line that tells why the program ends as it does. Words of no form have two.

ghost use Rattle.std.specs.Prelude.{◌≡◌, ◌++◌, decimal};
ghost use Rattle.gl_outside.specs.States.{Wrote};
ghost use Rattle.gl_top_forms.specs.Forms as forms;
ghost use Rattle.gl_top_forms.specs.Wrong.{wrong_line};
ghost use Rattle.gl_top_status.specs.Refusals as told;
ghost use Rattle.gl_top_status.specs.Refusals.{line, dump_line, kind_line, limit_line, no_end_line, note_of, verilog_line, usage_line, usage_lines, memory_line, write_line, puts, Notes};
ghost use Rattle.gl_top_status.specs.Written.{IsTold, IsWritten};

use crate::faults::{
    dump_kind, dump_place, query_kind, query_place, schema_kind, schema_place, tuples_kind,
    tuples_record, verilog_kind, verilog_place,
};
use crate::refusal::{Refusal, status_of};
use crate::status::Status;
use gl_figures::Limit;
use gl_outside::{Sink, Words, WriteFault, write_all_of};
use gl_top_forms::{Part, Taken, name_of, wrong_of, wrong_word};
use gl_vcd::VcdFault;
use gl_verilog_tokens::VerilogFault;
use itoa::Buffer;

// The line of all forms.
const USAGE: &[u8] =
    b"usage: glacier compile S Q, figures S Q, explain S Q, run S Q T [--start N], \
sim S V T --extra N, load N, vcd S Q T [--start N], undump D, \
many S Q, manyfigures S Q, manyrun S Q T [--start N], why S Q [T], help [COMMAND], --version\n";

// Writes a line of a head and what it tells of.
#[tactic(auto, using(gl_outside::proofs::Takes::pieces))]
fn put_line<N: Sink>(notes: &mut N, head: &[u8], rest: &[u8]) -> Result<(), WriteFault>
    ensures { Wrote (N.state notes.old) (N.state notes.new) (line head.now rest.now) result }
{
    write_all_of(notes, head)?;
    write_all_of(notes, rest)?;
    write_all_of(notes, b"\n")
}

// Writes a line of a head and the name of a text.
fn put_name<N: Sink>(
    notes: &mut N,
    head: &[u8],
    words: &Words,
    part: Part,
) -> Result<(), WriteFault>
    ensures { let bytes = line head.now (forms.name_of words.now part) in
        Wrote (N.state notes.old) (N.state notes.new) bytes result }
{
    put_line(notes, head, name_of(words, part).as_bytes())
}

// Writes a line of a text and a number.
fn put_number<N: Sink>(notes: &mut N, head: &[u8], number: u64) -> Result<(), WriteFault>
    ensures { let bytes = line head.now (decimal number) in
        Wrote (N.state notes.old) (N.state notes.new) bytes result }
{
    let mut buffer = Buffer::new();
    put_line(notes, head, buffer.format(number).as_bytes())
}

// Writes a line of a kind and a number.
#[tactic(auto, using(gl_outside::proofs::Takes::pieces))]
fn put_kind<N: Sink>(
    notes: &mut N,
    head: &[u8],
    kind: &[u8],
    middle: &[u8],
    number: u64,
) -> Result<(), WriteFault>
    ensures { let bytes = kind_line head.now kind.now middle.now number in
        Wrote (N.state notes.old) (N.state notes.new) bytes result }
{
    write_all_of(notes, head)?;
    write_all_of(notes, kind)?;
    put_number(notes, middle, number)
}

// The line of all forms.
#[tactic(auto, unfolding(crate::specs::Refusals::usage_line))]
fn usage() -> &'static [u8]
    ensures { result.now ≡ usage_line }
{
    USAGE
}

// Writes the line of the word that is wrong.
#[tactic(auto, unfolding(gl_top_forms::specs::Wrong::wrong_line))]
fn put_wrong<N: Sink>(notes: &mut N, words: &Words) -> Result<(), WriteFault>
    ensures { Wrote (N.state notes.old) (N.state notes.new) (wrong_line words.now) result }
{
    let wrong = wrong_of(words);
    put_line(notes, wrong.head(), wrong_word(words, wrong))
}

// Writes the lines of words of no form: that of all forms, and that of the word that is wrong.
#[tactic(auto, using(gl_outside::proofs::Takes::pieces))]
fn put_usage<N: Sink>(notes: &mut N, words: &Words) -> Result<(), WriteFault>
    ensures { Wrote (N.state notes.old) (N.state notes.new) (usage_lines words.now) result }
{
    write_all_of(notes, usage())?;
    put_wrong(notes, words)
}

// Writes the line of want of memory.
#[tactic(auto, unfolding(crate::specs::Refusals::memory_line))]
fn put_memory<N: Sink>(notes: &mut N) -> Result<(), WriteFault>
    ensures { Wrote (N.state notes.old) (N.state notes.new) memory_line result }
{
    write_all_of(notes, b"out of memory\n")
}

// Writes the line of an output that could not be written.
#[tactic(auto, unfolding(crate::specs::Refusals::write_line))]
fn put_write_fault<N: Sink>(notes: &mut N) -> Result<(), WriteFault>
    ensures { Wrote (N.state notes.old) (N.state notes.new) write_line result }
{
    write_all_of(notes, b"write fault\n")
}

// Writes the line of a simulation whose end did not come: the last cycle that was run.
#[tactic(auto, unfolding(crate::specs::Refusals::no_end_line))]
fn put_no_end<N: Sink>(notes: &mut N, cycle: u64) -> Result<(), WriteFault>
    ensures { Wrote (N.state notes.old) (N.state notes.new) (no_end_line cycle) result }
{
    put_number(notes, b"no end by cycle ", cycle)
}

// Writes the line of a limit that a plan passes.
fn put_limit<N: Sink>(notes: &mut N, limit: Limit) -> Result<(), WriteFault>
    ensures { Wrote (N.state notes.old) (N.state notes.new) (limit_line limit) result }
{
    match limit {
        Limit::Latency { .. } => write_all_of(notes, b"limit: Latency\n"),
        Limit::Nodes { weight } => put_number(notes, b"limit: Nodes ", weight),
    }
}

// Writes the line of a Verilog text that is refused.
fn put_verilog<N: Sink>(notes: &mut N, fault: &VerilogFault) -> Result<(), WriteFault>
    ensures { let bytes = verilog_line fault.now in
        Wrote (N.state notes.old) (N.state notes.new) bytes result }
{
    put_kind(
        notes,
        b"verilog: ",
        verilog_kind(fault),
        b" at ",
        verilog_place(fault),
    )
}

// Writes the line of a value change dump that is refused.
fn put_dump<N: Sink>(notes: &mut N, fault: &VcdFault) -> Result<(), WriteFault>
    ensures { let bytes = dump_line fault.now in
        Wrote (N.state notes.old) (N.state notes.new) bytes result }
{
    put_kind(
        notes,
        b"dump: ",
        dump_kind(fault),
        b" at ",
        dump_place(fault),
    )
}

// Writes the line of a refusal.
fn put_note<N: Sink>(notes: &mut N, words: &Words, refusal: &Refusal) -> Result<(), WriteFault>
    ensures { Wrote (N.state notes.old) (N.state notes.new) (note_of words.now refusal.now) result }
{
    match refusal {
        Refusal::Usage => put_usage(notes, words),
        Refusal::Missing(part) => put_name(notes, b"missing: ", words, *part),
        Refusal::ReadFault(part) => put_name(notes, b"read fault: ", words, *part),
        Refusal::TooLong(part) => put_name(notes, b"limit: Text ", words, *part),
        Refusal::Schema(fault) => put_kind(
            notes,
            b"schema: ",
            schema_kind(fault),
            b" at ",
            schema_place(fault),
        ),
        Refusal::Query(fault) => put_kind(
            notes,
            b"query: ",
            query_kind(fault),
            b" at ",
            query_place(fault),
        ),
        Refusal::Limit(limit) => put_limit(notes, *limit),
        Refusal::Verilog(fault) => put_verilog(notes, fault),
        Refusal::Tuples(fault) => put_kind(
            notes,
            b"tuples: ",
            tuples_kind(fault),
            b" at record ",
            tuples_record(fault),
        ),
        Refusal::Dump(fault) => put_dump(notes, fault),
        Refusal::Memory => put_memory(notes),
    }
}

/// Writes the line of a refusal of these words, and answers its status: that of a failed write, if the
/// line could not be written.
pub fn tell_words<N: Sink>(notes: &mut N, words: &Words, refusal: &Refusal) -> Status
    ensures { let made = puts (N.state notes.old) (N.state notes.new) in
        Notes (told.status_of refusal.now) (note_of words.now refusal.now) made result }
{
    match put_note(notes, words, refusal) {
        Ok(()) => status_of(refusal),
        Err(_) => Status::WriteFault,
    }
}

/// Writes the line of a refusal of words that were taken apart, as `tell_words` does.
pub fn tell<N: Sink>(notes: &mut N, words: &Taken<'_>, refusal: &Refusal) -> Status
    ensures { let made = puts (N.state notes.old) (N.state notes.new) in
        Notes (told.status_of refusal.now) (note_of words.now refusal.now) made result }
{
    tell_words(notes, words.words(), refusal)
}

// Writes the line of a refusal, and what explains it.
#[tactic(auto, using(gl_outside::proofs::Takes::pieces))]
fn put_explained<K: Sink>(
    out: &mut K,
    words: &Words,
    refusal: &Refusal,
    rest: &[u8],
) -> Result<(), WriteFault>
    ensures { let bytes = note_of words.now refusal.now ++ rest.now in
        Wrote (K.state out.old) (K.state out.new) bytes result }
{
    put_note(out, words, refusal)?;
    write_all_of(out, rest)
}

/// Writes the line of a refusal to the output, and what explains it, and answers its status; where the
/// output fails, that is noted.
pub fn explain<K: Sink, N: Sink>(
    words: &Taken<'_>,
    refusal: &Refusal,
    rest: &[u8],
    out: &mut K,
    notes: &mut N,
) -> Status
    ensures { IsTold (told.status_of refusal.now) (note_of words.now refusal.now)
        (puts (K.state out.old) (K.state out.new)) (puts (N.state notes.old) (N.state notes.new))
        result }
{
    match put_explained(out, words.words(), refusal, rest) {
        Ok(()) => status_of(refusal),
        Err(_) => tell_write_fault(notes),
    }
}

/// Writes the line of an output that could not be written.
pub fn tell_write_fault<N: Sink>(notes: &mut N) -> Status
    ensures { let made = puts (N.state notes.old) (N.state notes.new) in
        Notes Status.WriteFault write_line made result }
{
    match put_write_fault(notes) {
        Ok(()) => Status::WriteFault,
        Err(_) => Status::WriteFault,
    }
}

/// Writes the line of a simulation whose end did not come.
pub fn tell_no_end<N: Sink>(notes: &mut N, cycle: u64) -> Status
    ensures { let made = puts (N.state notes.old) (N.state notes.new) in
        Notes Status.NoEnd (no_end_line cycle) made result }
{
    match put_no_end(notes, cycle) {
        Ok(()) => Status::NoEnd,
        Err(_) => Status::WriteFault,
    }
}

/// Writes what a command shows, and answers the status; where the output fails, that is noted.
pub fn show<K: Sink, N: Sink>(bytes: &[u8], out: &mut K, notes: &mut N) -> Status
    ensures { IsWritten bytes.now (puts (K.state out.old) (K.state out.new))
        (puts (N.state notes.old) (N.state notes.new)) result }
{
    match write_all_of(out, bytes) {
        Ok(()) => Status::Done,
        Err(_) => tell_write_fault(notes),
    }
}
