//! Lists of texts.

ghost use Rattle.std.specs.Prelude.{◌≡◌, ◌++◌, ◌∷◌, [], length, map, slice_get, string_bytes, option_map, OnOk, OnErr, Some, Contains};

use gl_bits::Memory;
use std::alloc::Global;
use std::marker::Model;

/// A list of texts, as the words of a command line.
#[derive(Drop, Debug)]
pub struct Words {
    words: Vec<String>,
}

impl Model for Words {
    ghost use Rattle.std.specs.Prelude.{ℕ, List, map, string_bytes};

    ghost Value = { List (List ℕ) };

    ghost view = { λ w. map string_bytes w.words.items };
}

impl Words {
    /// The empty list.
    pub fn new(alloc: Global) -> Words
        ensures { result ≡ [] }
    {
        Words {
            words: Vec::new(alloc),
        }
    }

    /// The number of words.
    pub fn len(&self) -> usize
        ensures { result ≡ length self.now }
    {
        self.words.len()
    }

    /// The word at a place; None exactly where the place is not below the length.
    pub fn get(&self, at: usize) -> Option<&str>
        ensures { option_map (λ w. w.now) result ≡ slice_get self.now at }
    {
        match self.words.get(at) {
            Some(word) => Some(word.as_str()),
            None => None,
        }
    }

    /// All words, in order.
    pub fn texts(&self) -> &[String]
        ensures { map string_bytes result.now ≡ self.now }
    {
        &self.words
    }

    /// Adds a word at the end. On want of memory the list is as before.
    pub fn push(&mut self, word: &str) -> Result<(), Memory>
        ensures ok { OnOk result (self.new ≡ self.old ++ word.now ∷ []) }
        ensures err { OnErr result (self.new ≡ self.old) }
    {
        let alloc = *self.words.allocator();
        let word = String::from_str(alloc, word)?;
        self.words.push(word)?;
        Ok(())
    }

    // A place at which the word stands, if it is in the list.
    #[tactic(auto, using(crate::proofs::Places::places))]
    pub(crate) fn place_of(&self, word: &str) -> usize
        ensures { Contains self.now word.now → slice_get self.now result ≡ Some word.now }
    {
        for at in 0..self.len() {
            if let Some(other) = self.get(at) {
                if other == word {
                    return at;
                }
            }
        }
        self.len()
    }
}
