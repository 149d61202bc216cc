//! The words of a memory.

ghost use Rattle.std.specs.Prelude.{◌≡◌, ◌<◌, length, slice_index, slice_set, replicate, IfOk};

use gl_bits::Memory;
use std::alloc::Global;
use std::marker::Model;

/// The words of a memory, by their addresses.
#[derive(Drop, Debug)]
pub struct Bank {
    words: Vec<u128>,
}

impl Model for Bank {
    ghost use Rattle.std.specs.Prelude.{List, ℕ};

    ghost Value = { List ℕ };

    ghost view = { λ b. b.words.items };
}

impl Bank {
    /// So many words of 0.
    pub fn new(alloc: Global, len: usize) -> Result<Bank, Memory>
        ensures { IfOk result (λ b. b ≡ replicate len 0) }
    {
        Ok(Bank {
            words: vec![in alloc; 0u128; len]?,
        })
    }

    /// The number of words.
    pub fn len(&self) -> usize
        ensures { result ≡ length self.now }
    {
        self.words.len()
    }

    /// The word at an address.
    pub fn get(&self, at: usize) -> u128
        requires { at < length self.now }
        ensures { result ≡ slice_index self.now at }
    {
        self.words[at]
    }

    /// Puts the word at an address, and leaves all others as they are. Takes no memory.
    pub fn set(&mut self, at: usize, word: u128)
        requires { at < length self.old }
        ensures { self.new ≡ slice_set self.old at word }
    {
        self.words[at] = word;
    }
}
