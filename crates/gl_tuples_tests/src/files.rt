//! Rows of real files.
//!
//! A row `file write NUMBER` writes a text of so many bytes, which differ, to a file of its own, `file
//! read` prints what is read of it, `file closed TEXT` writes to it where it is open for reading
//! alone, and `file remove` takes it away. A row `directory` reads what is no file.

ghost use Rattle.std.specs.Prelude.{IfOk, Contains};

use crate::pieces::{number_before, word_before};
use crate::shelves::{many_bytes, print_read};
use gl_outside::{FileShelf, Memory, ReadFault, StreamSink, Words, read_all, write_all_of};
use std::alloc::Global;
use std::{env, fs, io, process};

// The list of this one name.
fn names_of(alloc: Global, name: &str) -> Result<Words, Memory>
    ensures { IfOk result (λ words. Contains words name.now) }
{
    let mut names = Words::new(alloc);
    names.push(name)?;
    Ok(names)
}

// Reads the file of this path.
fn read_file(rt: &HostRuntime, path: &str) -> Result<Vec<u8>, ReadFault> {
    match names_of(rt.alloc(), path) {
        Ok(names) => read_all(rt.alloc(), &mut FileShelf::new(rt, names), path),
        Err(Memory) => Err(ReadFault::Memory),
    }
}

// A path that no other process has.
fn own_path(rt: &HostRuntime) -> io::Result<String> {
    let directory = env::temp_dir(rt)?;
    let number = process::id(rt.process());
    Ok(format!(in rt.alloc(); "{}/gl_base_tests_{number}", directory.display())?)
}

// Writes the bytes to a file, and prints whether all were taken.
fn print_written(rt: &HostRuntime, file: fs::File, bytes: &[u8]) -> io::Result<()> {
    match write_all_of(&mut StreamSink::new(file), bytes) {
        Ok(()) => println!(rt; "done"),
        Err(_) => println!(rt; "fault"),
    }
}

fn print_write(rt: &HostRuntime, path: &str, size: usize) -> io::Result<()> {
    match many_bytes(rt.alloc(), size) {
        Ok(bytes) => print_written(rt, fs::create(rt, path)?, bytes.as_slice()),
        Err(Memory) => println!(rt; "out of memory"),
    }
}

fn print_removed(rt: &HostRuntime, path: &str) -> io::Result<()> {
    fs::remove_file(rt, path)?;
    println!(rt; "removed")
}

/// Prints what such a row comes to.
pub fn print_file(rt: &HostRuntime, kind: &str, text: &str) -> io::Result<()> {
    let path = own_path(rt)?;
    let (what, rest) = word_before(text);
    match what {
        "write" => print_write(rt, path.as_str(), number_before(rest).0 as usize),
        "closed" => print_written(rt, fs::open(rt, path.as_str())?, rest.as_bytes()),
        "remove" => print_removed(rt, path.as_str()),
        _ if kind == "directory" => print_read(rt, read_file(rt, "/")),
        _ => print_read(rt, read_file(rt, path.as_str())),
    }
}
