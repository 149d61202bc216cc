//! The whole program over memory, from bytes to bytes: `stdin` has its rows, `stdout` what each
//! comes to.
//!
//! A line `schema TEXT`, `verilog TEXT` or `tuples TEXT` sets a text (a space in `tuples` parts two
//! records), `without schema`, `without verilog` and `without tuples` take it away, and `fail F P N`
//! has the fetch, the put and the note of these numbers fail (0 for none). A line `query TEXT` runs
//! `run S Q T`, and a line `explain TEXT` runs `explain S Q`: the query is printed, and then the
//! status, what was written and what was noted, parted by `|`. A line `root TEXT` runs `explain S Q`
//! too, and prints the line of the root's node alone. Lines `compile TEXT`, `figures TEXT`, `start
//! TEXT` and `option WORD TEXT` run `compile S Q`, `figures S Q`, `run --start 12345 S Q T` and `run S
//! Q T WORD`. A line `sim WORD WORD` runs `sim S V T`, and a line `load WORD WORD` runs `load`, with
//! these words, of which either may be missing. A line `vcd TEXT` runs `vcd S Q T`, and a line `undump
//! TEXT` reads this text as a dump. Lines `many TEXT`, `manyfigures TEXT` and `manyrun TEXT` run `many S
//! Q`, `manyfigures S Q` and `manyrun S Q T`. A line `over TEXT` sets the query of the lines `words
//! WORD|WORD|..`, which run these words, of which each may be empty. Behind a line `show text` the text
//! that is left is printed too, until a line `show no text`. A line `fronts NAME TEXT` runs `run S Q T`,
//! or `sim S V T --extra 5` for `verilog`, over each front of the text that is shorter than it, in the
//! place of the text of that name, and prints each length from which on the status or the kind of
//! the note is another one. Every other line is a remark.
#![tactic(auto)]

ghost use Rattle.std.specs.Prelude.{◌≡◌, IfOk};

use gl_outside::{Memory, MemoryShelf, MemorySink, Words};
use gl_top::{Desk, run};
use gl_top_forms::copied;
use std::alloc::Global;
use std::io;

// Bytes that a sink takes at most.
const ROOM: usize = 100_000;

// The texts of the schema, of the module, of the tuple file and of the query that a line does not give,
// the numbers of the calls that fail, and whether the text that is left is shown.
#[derive(Drop)]
struct Row {
    schema: Option<String>,
    verilog: Option<String>,
    tuples: Option<String>,
    query: Option<String>,
    failing: Failing,
    shows_text: bool,
}

// The numbers of the fetch, of the put and of the note that fail, 0 for none.
#[derive(Clone, Copy)]
struct Failing {
    fetch: u64,
    put: u64,
    note: u64,
}

// The words of two texts, one after the other.
fn words_of(alloc: Global, front: &str, more: &str) -> Result<Words, Memory> {
    let mut words = Words::new(alloc);
    for word in front.split_whitespace() {
        words.push(word)?;
    }
    for word in more.split_whitespace() {
        words.push(word)?;
    }
    Ok(words)
}

// The words that a line of this kind runs, before those of its own; none for a remark.
fn words_before(kind: &str) -> &'static str {
    match kind {
        "query" | "option" => "run S Q T",
        "start" => "run --start 12345 S Q T",
        "explain" | "root" => "explain S Q",
        "compile" => "compile S Q",
        "figures" => "figures S Q",
        "sim" => "sim S V T",
        "load" => "load",
        "vcd" => "vcd S Q T",
        "undump" => "undump Q",
        "many" => "many S Q",
        "manyfigures" => "manyfigures S Q",
        "manyrun" => "manyrun S Q T",
        _ => "",
    }
}

// The words of its own of a line of this kind, and the query.
fn parts_of<'a>(kind: &str, text: &'a str) -> (&'a str, &'a str) {
    match kind {
        "option" => text.split_once(' ').unwrap_or((text, "")),
        "sim" | "load" => (text, ""),
        _ => ("", text),
    }
}

// Holds a text, if it is there.
fn hold(shelf: &mut MemoryShelf, name: &str, text: &Option<String>) -> Result<(), Memory>
    ensures { shelf.new.held.names ≡ shelf.old.held.names }
{
    match text {
        Some(text) => shelf.hold(name, text.as_bytes()),
        None => Ok(()),
    }
}

// A shelf of these names with the texts that are there.
fn shelf_with(alloc: Global, names: Words, row: &Row, query: &str) -> Result<MemoryShelf, Memory>
    ensures { IfOk result (λ shelf. shelf.held.names ≡ names) }
{
    let mut shelf = MemoryShelf::new(alloc, names);
    hold(&mut shelf, "S", &row.schema)?;
    hold(&mut shelf, "V", &row.verilog)?;
    shelf.hold("Q", query.as_bytes())?;
    hold(&mut shelf, "T", &row.tuples)?;
    shelf.fail(row.failing.fetch)?;
    Ok(shelf)
}

// A sink one of whose calls may fail.
fn sink_with(alloc: Global, failing: u64) -> Result<MemorySink, Memory> {
    let mut sink = MemorySink::new(alloc, ROOM)?;
    sink.fail(failing)?;
    Ok(sink)
}

// What a query comes to: its status, the two sinks, and the text that is left.
#[derive(Drop)]
struct Told {
    code: u8,
    out: MemorySink,
    notes: MemorySink,
    text: Vec<u8>,
}

// What the words come to over these texts and this query.
fn told_by(alloc: Global, words: &Words, row: &Row, query: &str) -> Result<Told, Memory> {
    let shelf = shelf_with(alloc, copied(alloc, words)?, row, query)?;
    let out = sink_with(alloc, row.failing.put)?;
    let notes = sink_with(alloc, row.failing.note)?;
    let mut desk = Desk {
        shelf,
        out,
        notes,
        text: Vec::new(alloc),
    };
    let status = run(alloc, words, &mut desk);
    let Desk {
        shelf: _,
        out,
        notes,
        text,
    } = desk;
    Ok(Told {
        code: status.code(),
        out,
        notes,
        text,
    })
}

// What a line of this kind comes to.
fn told_of(alloc: Global, row: &Row, kind: &str, text: &str) -> Result<Told, Memory> {
    let (more, query) = parts_of(kind, text);
    let words = words_of(alloc, words_before(kind), more)?;
    told_by(alloc, &words, row, query)
}

// What the words of a line come to, which `|` parts.
fn told_in(alloc: Global, row: &Row, text: &str) -> Result<Told, Memory> {
    let mut words = Words::new(alloc);
    for word in text.split('|') {
        words.push(word)?;
    }
    let query = match &row.query {
        Some(query) => query.as_str(),
        None => "",
    };
    told_by(alloc, &words, row, query)
}

// The number in the place of a word; 0 where there is none.
fn number_at(text: &str, place: usize) -> u64 {
    match text.split_whitespace().nth(place) {
        Some(word) => word.parse::<u64>().unwrap_or(0),
        None => 0,
    }
}

fn failing_of(text: &str) -> Failing {
    Failing {
        fetch: number_at(text, 0),
        put: number_at(text, 1),
        note: number_at(text, 2),
    }
}

// Sets the text of a name; a space in `tuples` parts two records.
fn set(alloc: Global, row: &mut Row, name: &str, text: &str) -> io::Result<()> {
    match name {
        "schema" => row.schema = Some(text.to_string(alloc)?),
        "verilog" => row.verilog = Some(text.to_string(alloc)?),
        "tuples" => row.tuples = Some(text.replace(alloc, ' ', "\n")?),
        _ => row.query = Some(text.to_string(alloc)?),
    }
    Ok(())
}

// What the words that read the text of a name come to.
fn told_over(alloc: Global, row: &Row, name: &str) -> Result<Told, Memory> {
    if name == "verilog" {
        return told_of(alloc, row, "sim", "--extra 5");
    }
    let query = match &row.query {
        Some(query) => query.as_str(),
        None => "",
    };
    told_of(alloc, row, "query", query)
}

// The kind of a note, without its place.
fn kind_of(noted: &str) -> &str {
    match noted.split_once(" at ") {
        Some((kind, _)) => kind,
        None => noted.trim_end(),
    }
}

// Prints what each front of a text comes to in the place of the text of a name, from each length on
// that changes it.
fn print_fronts(rt: &HostRuntime, row: &mut Row, name: &str, text: &str) -> io::Result<()> {
    println!(rt; "{text}")?;
    let mut code = u8::MAX;
    let mut kind = String::new(rt.alloc());
    for len in 0..text.len() {
        let front = str::from_utf8(&text.as_bytes()[..len]).unwrap_or("?");
        set(rt.alloc(), row, name, front)?;
        let Ok(told) = told_over(rt.alloc(), row, name) else {
            return println!(rt; "out of memory");
        };
        let now = kind_of(str::from_utf8(told.notes.bytes()).unwrap_or("?"));
        if told.code != code || now != kind.as_str() {
            println!(rt; "from {len}: {}|{now}", told.code)?;
            code = told.code;
            kind = now.to_string(rt.alloc())?;
        }
    }
    set(rt.alloc(), row, name, text)
}

// Takes a text away.
fn without(row: &mut Row, name: &str) {
    match name {
        "schema" => row.schema = None,
        "verilog" => row.verilog = None,
        _ => row.tuples = None,
    }
}

// The line of the root's node in what is explained: the one before the line that names the root.
fn root_line(text: &str) -> &str {
    let (nodes, _) = text.split_once("\nroot ").unwrap_or(("", ""));
    nodes.rsplit('\n').next().unwrap_or("")
}

fn print_told(
    rt: &HostRuntime,
    query: &str,
    told: Result<Told, Memory>,
    root: bool,
    shows_text: bool,
) -> io::Result<()> {
    let Ok(told) = told else {
        return println!(rt; "out of memory");
    };
    let code = told.code;
    let written = str::from_utf8(told.out.bytes()).unwrap_or("?");
    let noted = str::from_utf8(told.notes.bytes()).unwrap_or("?");
    let written = if root { root_line(written) } else { written };
    println!(rt; "{query}")?;
    println!(rt; "{code}|{written}|{noted}")?;
    if shows_text {
        let text = str::from_utf8(&told.text).unwrap_or("?");
        println!(rt; "text|{text}")?;
    }
    Ok(())
}

fn main(rt: HostRuntime) -> io::Result<()> {
    let mut row = Row {
        schema: None,
        verilog: None,
        tuples: None,
        query: None,
        failing: failing_of(""),
        shows_text: false,
    };
    for line in rt.lines(rt.alloc()) {
        let line = line?;
        let (kind, text) = line.split_once(' ').unwrap_or((line.as_str(), ""));
        match kind {
            "schema" | "verilog" | "tuples" | "over" => set(rt.alloc(), &mut row, kind, text)?,
            "fronts" => {
                let (name, text) = text.split_once(' ').unwrap_or((text, ""));
                print_fronts(&rt, &mut row, name, text)?
            }
            "without" => without(&mut row, text),
            "fail" => row.failing = failing_of(text),
            "show" => row.shows_text = text == "text",
            "words" => {
                let told = told_in(rt.alloc(), &row, text);
                print_told(&rt, text, told, false, row.shows_text)?
            }
            _ if words_before(kind).is_empty() => (),
            _ => {
                let told = told_of(rt.alloc(), &row, kind, text);
                print_told(&rt, text, told, kind == "root", row.shows_text)?
            }
        }
    }
    Ok(())
}
