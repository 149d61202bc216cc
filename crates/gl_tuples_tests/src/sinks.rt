//! Rows of sinks and writers.
//!
//! A row `sink ROOM` makes a sink in memory with room for so many bytes. `refuse NUMBER` has that put
//! fail, `put TEXT` prints whether the whole text was taken, and `taken` prints all that was. Rows of
//! their own print whether a text was taken: `nowhere TEXT` by the sink that never fails, `slice WORD
//! ..` word by word by std's writer over three bytes, and what these then are, `narrow MOST ROOM TEXT`
//! by a writer that takes at most so many bytes a call and has room for so many in all, and what it
//! took, and `unflushed TEXT` by one whose flush fails, with the answer of a single put before.

use crate::pieces::{bytes_of, number_before};
use crate::shelves::print_done;
use gl_outside::*;
use std::alloc::Global;
use std::io;

// A writer that takes at most `most` bytes a call, up to a number in all.
#[derive(Drop)]
struct Narrow {
    most: usize,
    room: usize,
    taken: Vec<u8>,
}

impl io::Write for Narrow {
    fn write(&mut self, bytes: &[u8]) -> io::Result<usize> {
        let count = bytes.len().min(self.most).min(self.room);
        if count == 0 {
            return Err(io::Error::from(io::ErrorKind::StorageFull));
        }
        self.taken.extend_from_slice(&bytes[..count])?;
        self.room -= count;
        Ok(count)
    }

    fn flush(&mut self) -> io::Result<()> {
        Ok(())
    }
}

// A writer that takes every byte, and whose flush fails.
#[derive(Drop)]
struct Unflushed;

impl io::Write for Unflushed {
    fn write(&mut self, bytes: &[u8]) -> io::Result<usize> {
        Ok(bytes.len())
    }

    fn flush(&mut self) -> io::Result<()> {
        Err(io::Error::from(io::ErrorKind::StorageFull))
    }
}

// How writing ended, as it is printed.
fn told(done: Result<(), WriteFault>) -> &'static str {
    match done {
        Ok(()) => "done",
        Err(WriteFault) => "fault",
    }
}

// Makes the sink anew.
fn renew(alloc: Global, sink: &mut MemorySink, room: usize) -> Result<(), Memory> {
    *sink = MemorySink::new(alloc, room)?;
    Ok(())
}

fn print_put(rt: &HostRuntime, sink: &mut MemorySink, text: &str) -> io::Result<()> {
    match bytes_of(rt.alloc(), text) {
        Ok(bytes) => println!(rt; "{}", told(write_all_of(sink, bytes.as_slice()))),
        Err(_) => println!(rt; "out of memory"),
    }
}

/// Prints what a row of the sink in memory comes to.
pub fn print_sink(
    rt: &HostRuntime,
    sink: &mut MemorySink,
    kind: &str,
    text: &str,
) -> io::Result<()> {
    match kind {
        "sink" => {
            let room = number_before(text).0 as usize;
            print_done(rt, renew(rt.alloc(), sink, room))
        }
        "refuse" => print_done(rt, sink.fail(number_before(text).0)),
        "put" => print_put(rt, sink, text),
        _ => println!(rt; "{:?}", str::from_utf8(sink.bytes()).unwrap_or("?")),
    }
}

fn print_slice(rt: &HostRuntime, words: &str) -> io::Result<()> {
    let mut room = [b'-'; 3];
    let mut sink = StreamSink::new(&mut room[..]);
    for word in words.split(' ') {
        print!(rt; "{} ", told(write_all_of(&mut sink, word.as_bytes())))?;
    }
    println!(rt; "{}", str::from_utf8(&room).unwrap_or("?"))
}

fn print_narrow(rt: &HostRuntime, most: usize, room: usize, bytes: &[u8]) -> io::Result<()> {
    let taken = Vec::new(rt.alloc());
    let mut writer = Narrow { most, room, taken };
    let done = write_all_of(&mut StreamSink::new(&mut writer), bytes);
    let taken = str::from_utf8(writer.taken.as_slice()).unwrap_or("?");
    println!(rt; "{} {taken}", told(done))
}

fn print_unflushed(rt: &HostRuntime, bytes: &[u8]) -> io::Result<()> {
    let mut sink = StreamSink::new(Unflushed);
    if bytes.is_empty() {
        return println!(rt; "no put");
    }
    let put = sink.put(bytes);
    println!(rt; "{put:?} {}", told(write_all_of(&mut sink, bytes)))
}

/// Prints what a row of its own comes to.
pub fn print_writer(rt: &HostRuntime, kind: &str, text: &str) -> io::Result<()> {
    let (most, rest) = number_before(text);
    let (room, narrow) = number_before(rest);
    let Ok(bytes) = bytes_of(rt.alloc(), if kind == "narrow" { narrow } else { text }) else {
        return println!(rt; "out of memory");
    };
    match kind {
        "slice" => print_slice(rt, text),
        "narrow" => print_narrow(rt, most as usize, room as usize, bytes.as_slice()),
        "unflushed" => print_unflushed(rt, bytes.as_slice()),
        _ => println!(rt;
            "{}",
            told(write_all_of(&mut NeverFailsSink, bytes.as_slice()))
        ),
    }
}
