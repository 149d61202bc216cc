//! Words, texts and the outside: `stdin` has the rows, `stdout` what each comes to.
//!
//! A line that begins with `--` is a remark. Every other line is a row, which is printed with what
//! it comes to below it; its first word says which kind of row it is, and the module of that kind
//! what stands behind it (`texts`, `words`, `totals`, `shelves`, `sinks`, `files`). In a text `%0A`
//! is the byte 10, and so are all bytes that a line cannot have (RFC 3986, 2.1).
#![tactic(auto)]

mod files;
mod pieces;
mod shelves;
mod sinks;
mod texts;
mod totals;
mod words;
mod worked;

use crate::pieces::word_before;
use crate::shelves::Shelves;
use gl_outside::MemorySink;
use std::io;

fn print_told(
    rt: &HostRuntime,
    shelves: &mut Shelves,
    sink: &mut MemorySink,
    kind: &str,
    text: &str,
) -> io::Result<()> {
    match kind {
        "schema" | "tuples" | "behind" | "gap" | "line" => texts::print_text(rt, kind, text),
        "word" | "kind" | "name" => words::print_single(rt, kind, text),
        "total" | "weigh" | "windows" | "groups" => totals::print_listed(rt, kind, text),
        "words" | "endless" => shelves::print_alone(rt, kind, text),
        "shelf" | "hold" | "many" | "fail" | "fetch" | "read" | "never" => {
            shelves::print_shelf(rt, shelves, kind, text)
        }
        "sink" | "refuse" | "put" | "taken" => sinks::print_sink(rt, sink, kind, text),
        "nowhere" | "slice" | "narrow" | "unflushed" => sinks::print_writer(rt, kind, text),
        "file" | "directory" => files::print_file(rt, kind, text),
        _ => println!(rt; "no row"),
    }
}

fn print_row(
    rt: &HostRuntime,
    shelves: &mut Shelves,
    sink: &mut MemorySink,
    line: &str,
) -> io::Result<()> {
    let (kind, text) = word_before(line);
    if kind == "--" {
        return Ok(());
    }
    println!(rt; "{line}")?;
    print_told(rt, shelves, sink, kind, text)
}

fn print_rows(rt: &HostRuntime, shelves: &mut Shelves, sink: &mut MemorySink) -> io::Result<()> {
    for line in rt.lines(rt.alloc()) {
        let line = line?;
        print_row(rt, shelves, sink, line.as_str())?;
    }
    Ok(())
}

fn main(rt: HostRuntime) -> io::Result<()> {
    worked::definitions();
    let Ok(mut shelves) = Shelves::new(rt.alloc()) else {
        return println!(rt; "out of memory");
    };
    let Ok(mut sink) = MemorySink::new(rt.alloc(), 0) else {
        return println!(rt; "out of memory");
    };
    print_rows(&rt, &mut shelves, &mut sink)
}
