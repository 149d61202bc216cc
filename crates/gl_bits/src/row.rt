//! Rows of words.

ghost use Rattle.std.specs.Prelude.{◌≡◌, ◌<◌, ◌++◌, ◌∷◌, [], length, slice_get, slice_set, OnOk, OnErr};

use crate::word::Word;
use std::alloc::{AllocError, AllocFailed, Global};
use std::marker::Model;

/// Want of memory.
#[derive(Clone, Copy, PartialEq, Eq, Debug)]
pub struct Memory;

impl From<AllocError> for Memory {
    fn from(_error: AllocError) -> Memory {
        Memory
    }
}

impl<T: Drop> From<AllocFailed<T>> for Memory {
    fn from(_error: AllocFailed<T>) -> Memory {
        Memory
    }
}

/// A list of words.
#[derive(Drop, Debug)]
pub struct Row {
    words: Vec<Word>,
}

impl Model for Row {
    ghost use Rattle.std.specs.Prelude.{List};
    ghost use Rattle.gl_bits.specs.Words.{Word};

    ghost Value = { List Word };

    ghost view = { λ r. r.words.items };
}

impl Row {
    /// The empty row.
    pub fn new(alloc: Global) -> Row
        ensures { result ≡ [] }
    {
        Row {
            words: Vec::new(alloc),
        }
    }

    /// The number of words.
    pub fn len(&self) -> usize
        ensures { result ≡ length self.now }
    {
        self.words.len()
    }

    /// The word at a place; None exactly where the place is not below the length.
    pub fn get(&self, at: usize) -> Option<Word>
        ensures { result ≡ slice_get self.now at }
    {
        self.words.get(at).copied()
    }

    /// Adds a word at the end. On want of memory the row is as before.
    pub fn push(&mut self, word: Word) -> Result<(), Memory>
        ensures ok { OnOk result (self.new ≡ self.old ++ word ∷ []) }
        ensures err { OnErr result (self.new ≡ self.old) }
    {
        match self.words.push(word) {
            Ok(()) => Ok(()),
            Err(_) => Err(Memory),
        }
    }

    /// Puts the word at a place, and leaves all others as they are. Takes no memory.
    pub fn set(&mut self, at: usize, word: Word)
        requires { at < length self.old }
        ensures { self.new ≡ slice_set self.old at word }
    {
        self.words[at] = word;
    }
}
