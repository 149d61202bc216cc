//! The real files as a shelf.

ghost use Rattle.std.specs.Prelude.{◌≡◌, None, Contains, IfOk};
ghost use Rattle.std.specs.Io.{ReadsAtMost};
ghost use Rattle.gl_outside.specs.States.{Fetched, Stays};
ghost use Rattle.gl_outside.specs.Seen.{refusal_of, files_state};

use crate::counter::one_more;
use crate::shelf::{Fetch, Shelf};
use crate::words::Words;
use std::fs::Files;
use std::io::{ErrorKind, Read as _, Seek as _, SeekFrom};
use std::marker::Model;
use std::{fs, io};

/// The real files, by their paths. It tells no texts.
///
/// A file that is not there is missing, want of memory is answered as such, and every other
/// refusal, a directory among them, is a fault. The file that was read last stays open until its
/// end or a refusal, so that a whole file is read in linear time.
///
/// In clauses it is seen as its names, its two counts, which stand still at their last value, and
/// the name that was last refused.
#[derive(Drop)]
pub struct FileShelf<R: Files + Drop> {
    files: R,
    names: Words,
    opened: Option<OpenFile<R::File>>,
    misses: u64,
    faults: u64,
    last: Option<usize>,
}

// An open file, the place of its name, and the place that it is read from next.
#[derive(Drop)]
struct OpenFile<F> {
    name: usize,
    file: F,
    at: u64,
}

impl<R: Files + Drop> Model for FileShelf<R> {
    ghost use Rattle.std.specs.Prelude.{slice_get};
    ghost use Rattle.std.specs.Option.{option_and_then};
    ghost use Rattle.gl_outside.specs.Seen.{FilesState};

    ghost Value = { FilesState };

    ghost view = { λ s. record {
      names = s.names;
      misses = s.misses;
      faults = s.faults;
      last = option_and_then (λ place. slice_get s.names place) s.last;
    } };
}

impl<R: Files + Drop> FileShelf<R> {
    /// A shelf for these names.
    pub fn new(files: R, names: Words) -> FileShelf<R>
        ensures { result ≡ record { names = names; misses = 0; faults = 0; last = None } }
    {
        FileShelf {
            files,
            names,
            opened: None,
            misses: 0,
            faults: 0,
            last: None,
        }
    }

    // The file of this name, kept open or opened anew.
    fn open(&mut self, place: usize, name: &str) -> io::Result<OpenFile<R::File>>
        ensures place { IfOk result (λ opened. opened.name ≡ place) }
        ensures same { self.new ≡ self.old }
    {
        if let Some(opened) = self.opened.take() {
            if opened.name == place {
                return Ok(opened);
            }
        }
        let file = fs::open(&self.files, name)?;
        Ok(OpenFile {
            name: place,
            file,
            at: 0,
        })
    }

    // Reads from this place of the file on. The file is closed at its end and where it refuses.
    fn read(&mut self, place: usize, name: &str, at: u64, into: &mut [u8]) -> io::Result<usize>
        ensures bound { ReadsAtMost result into.new }
        ensures same { self.new ≡ self.old }
    {
        let mut opened = self.open(place, name)?;
        if opened.at != at {
            opened.file.seek(SeekFrom::Start(at))?;
        }
        let count = opened.file.read(into)?;
        if count > 0 {
            opened.at = at.saturating_add(count as u64);
            self.opened = Some(opened);
        }
        Ok(count)
    }

    // Notes a refusal in its count.
    fn refuse(&mut self, name: &str, kind: ErrorKind) -> Fetch
        requires { Contains self.old.names name.now }
        ensures answer { result ≡ refusal_of kind }
        ensures counts { Fetched (files_state self.old) (files_state self.new) name.now result }
        ensures stays { Stays (files_state self.old) (files_state self.new) }
    {
        let place = self.names.place_of(name);
        match kind {
            ErrorKind::OutOfMemory => Fetch::Memory,
            ErrorKind::NotFound => {
                self.misses = one_more(self.misses);
                self.last = Some(place);
                Fetch::Missing
            }
            _ => {
                self.faults = one_more(self.faults);
                self.last = Some(place);
                Fetch::Failed
            }
        }
    }
}

impl<R: Files + Drop> Shelf for FileShelf<R> {
    ghost state = { λ s. files_state s };

    fn fetch(&mut self, name: &str, at: u64, into: &mut [u8]) -> Fetch {
        let place = self.names.place_of(name);
        match self.read(place, name, at, into) {
            Ok(0) => Fetch::End,
            Ok(count) => Fetch::Got(count),
            Err(error) => self.refuse(name, error.kind()),
        }
    }
}
