//! Rows of shelves.
//!
//! A row `shelf` makes two shelves for the names Q and T, one that may fail and one that never does.
//! `hold NAME TEXT` adds a text to both, `many NAME NUMBER` one of so many bytes, which differ, and
//! `fail NUMBER` has that fetch fail. `fetch NAME AT SIZE` prints the answer of a fetch with room
//! for so many bytes, and what then stands there; `read NAME` prints the whole text, and `never NAME`
//! that of the shelf that never fails. A row `words WORD ..` prints the words of a list by their
//! places and the place behind them, and a row `endless` reads a text that has no end.

ghost use Rattle.std.specs.Prelude.{◌≡◌, ◌∷◌, [], IfOk, Contains, None, codes};
ghost use Rattle.gl_outside.specs.Told.{Untold};

use crate::pieces::{bytes_of, number_before, word_before};
use gl_outside::*;
use std::alloc::Global;
use std::io;

// The most bytes of a fetch of a row, and of a text that is printed.
const ROOM: usize = 16;

/// Two shelves for the names Q and T, and the room for what is fetched.
#[derive(Drop)]
pub struct Shelves {
    failing: MemoryShelf,
    never: NeverFailsShelf,
    room: [u8; ROOM],
    ghost failing_names: { failing.held.names ≡ codes "Q" ∷ codes "T" ∷ [] },
    ghost never_names: { never.names ≡ codes "Q" ∷ codes "T" ∷ [] },
}

// The names Q and T.
fn two_names(alloc: Global) -> Result<Words, Memory>
    ensures { IfOk result (λ words. words ≡ codes "Q" ∷ codes "T" ∷ []) }
{
    let mut names = Words::new(alloc);
    names.push("Q")?;
    names.push("T")?;
    Ok(names)
}

// The name Q, or else T.
fn name_of(text: &str) -> &'static str
    ensures { Contains (codes "Q" ∷ codes "T" ∷ []) result.now }
{
    if text == "Q" { "Q" } else { "T" }
}

impl Shelves {
    /// Shelves without texts.
    pub fn new(alloc: Global) -> Result<Shelves, Memory> {
        Ok(Shelves {
            failing: MemoryShelf::new(alloc, two_names(alloc)?),
            never: NeverFailsShelf::new(alloc, two_names(alloc)?),
            room: [b'-'; ROOM],
        })
    }

    // Adds a text to both.
    fn hold(&mut self, name: &str, bytes: &[u8]) -> Result<(), Memory> {
        self.failing.hold(name, bytes)?;
        self.never.hold(name, bytes)
    }

    // Has the fetch of this number fail.
    fn fail(&mut self, call: u64) -> Result<(), Memory> {
        self.failing.fail(call)
    }

    fn fetch(&mut self, name: &str, at: u64, size: usize) -> Option<Fetch> {
        if size == 0 || size > ROOM || at > TEXT_LIMIT {
            return None;
        }
        let room = &mut self.room[..];
        Some(self.failing.fetch(name_of(name), at, &mut room[..size]))
    }

    fn read(&mut self, alloc: Global, name: &str) -> Result<Vec<u8>, ReadFault> {
        read_all(alloc, &mut self.failing, name_of(name))
    }

    fn read_never(&mut self, alloc: Global, name: &str) -> Result<Vec<u8>, ReadFault> {
        read_all(alloc, &mut self.never, name_of(name))
    }
}

// The byte at a place of a text of many bytes: one piece of it is not like another.
fn byte_at(place: usize) -> u8 {
    (place % 251) as u8
}

/// A text of `size` bytes, which differ.
pub fn many_bytes(alloc: Global, size: usize) -> Result<Vec<u8>, Memory> {
    let mut bytes = Vec::new(alloc);
    for place in 0..size {
        if bytes.push(byte_at(place)).is_err() {
            return Err(Memory);
        }
    }
    Ok(bytes)
}

// Whether these are the bytes of such a text.
fn are_many(bytes: &[u8]) -> bool {
    for (place, byte) in bytes.iter().enumerate() {
        if *byte != byte_at(place) {
            return false;
        }
    }
    true
}

/// Prints a text that was read, or why it was not. Of a long text it tells how many bytes it has,
/// and whether they are those of `many_bytes`.
pub fn print_read(rt: &HostRuntime, read: Result<Vec<u8>, ReadFault>) -> io::Result<()> {
    match read {
        Ok(bytes) if bytes.len() <= ROOM => {
            println!(rt; "{:?}", str::from_utf8(bytes.as_slice()).unwrap_or("?"))
        }
        Ok(bytes) if are_many(bytes.as_slice()) => println!(rt;
            "{} bytes as they were",
            bytes.len()
        ),
        Ok(bytes) => println!(rt; "{} other bytes", bytes.len()),
        Err(fault) => println!(rt; "{fault}"),
    }
}

/// Prints whether there was memory.
pub fn print_done(rt: &HostRuntime, done: Result<(), Memory>) -> io::Result<()> {
    match done {
        Ok(()) => println!(rt; "done"),
        Err(Memory) => println!(rt; "out of memory"),
    }
}

fn print_fetch(rt: &HostRuntime, shelves: &mut Shelves, text: &str) -> io::Result<()> {
    let (name, rest) = word_before(text);
    let (at, rest) = number_before(rest);
    let size = number_before(rest).0 as usize;
    match shelves.fetch(name, at, size) {
        Some(Fetch::Got(count)) => {
            let room = str::from_utf8(&shelves.room[..size.min(ROOM)]).unwrap_or("?");
            println!(rt; "Got({count}) {room}")
        }
        Some(fetch) => println!(rt; "{fetch:?}"),
        None => println!(rt; "no fetch"),
    }
}

// Adds the text of a row.
fn hold(alloc: Global, shelves: &mut Shelves, kind: &str, text: &str) -> Result<(), Memory> {
    let (name, rest) = word_before(text);
    if kind == "many" {
        let bytes = many_bytes(alloc, number_before(rest).0 as usize)?;
        return shelves.hold(name, bytes.as_slice());
    }
    let bytes = bytes_of(alloc, rest)?;
    shelves.hold(name, bytes.as_slice())
}

// Makes the shelves anew.
fn renew(alloc: Global, shelves: &mut Shelves) -> Result<(), Memory> {
    *shelves = Shelves::new(alloc)?;
    Ok(())
}

/// Prints what a row of the two shelves comes to.
pub fn print_shelf(
    rt: &HostRuntime,
    shelves: &mut Shelves,
    kind: &str,
    text: &str,
) -> io::Result<()> {
    match kind {
        "shelf" => print_done(rt, renew(rt.alloc(), shelves)),
        "fail" => print_done(rt, shelves.fail(number_before(text).0)),
        "fetch" => print_fetch(rt, shelves, text),
        "read" => print_read(rt, shelves.read(rt.alloc(), text)),
        "never" => print_read(rt, shelves.read_never(rt.alloc(), text)),
        _ => print_done(rt, hold(rt.alloc(), shelves, kind, text)),
    }
}

// A shelf with one text, which has no end and is not kept.
struct Endless;

impl Shelf for Endless {
    ghost state = { λ _. record {
      names = codes "T" ∷ [];
      told = λ _. Untold;
      misses = 0;
      faults = 0;
      last = None;
    } };

    fn fetch(&mut self, _name: &str, _at: u64, into: &mut [u8]) -> Fetch {
        Fetch::Got(into.len())
    }
}

fn read_endless(alloc: Global) -> Result<Vec<u8>, ReadFault> {
    let mut shelf = Endless;
    let read = read_all(alloc, &mut shelf, "T");
    let Endless = shelf;
    read
}

// The words of a text.
fn words_of(alloc: Global, text: &str) -> Result<Words, Memory> {
    let mut words = Words::new(alloc);
    for word in text.split_whitespace() {
        words.push(word)?;
    }
    Ok(words)
}

fn print_words(rt: &HostRuntime, text: &str) -> io::Result<()> {
    let Ok(words) = words_of(rt.alloc(), text) else {
        return println!(rt; "out of memory");
    };
    print!(rt; "{}:", words.len())?;
    for at in 0..words.len() {
        print!(rt; " {}", words.get(at).unwrap_or("-"))?;
    }
    println!(rt; " {}", words.get(words.len()).unwrap_or("-"))
}

/// Prints what a row of a list of words, or of a text without end, comes to.
pub fn print_alone(rt: &HostRuntime, kind: &str, text: &str) -> io::Result<()> {
    match kind {
        "words" => print_words(rt, text),
        _ => print_read(rt, read_endless(rt.alloc())),
    }
}
