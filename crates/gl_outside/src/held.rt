//! Texts in memory.

ghost use Rattle.std.specs.Prelude.{◌≡◌, ℕ, ◌<◌, length, Some, OnOk, OnErr, MatchOption, Contains};
ghost use Rattle.gl_outside.specs.Told.{Lacks, Holds};
ghost use Rattle.gl_outside.specs.States.{Stays, Fetched};
ghost use Rattle.gl_outside.specs.Fetched.{FitsRoom, Says};
ghost use Rattle.gl_outside.specs.Held as spec;
ghost use Rattle.gl_outside.specs.Held.{told_of, given, held_state};

use crate::counter::one_more;
use crate::shelf::Fetch;
use crate::words::Words;
use gl_bits::Memory;
use std::alloc::Global;
use std::marker::Model;

/// A text and its name.
#[derive(Drop, Debug)]
pub struct NamedText {
    name: String,
    bytes: Vec<u8>,
}

impl Model for NamedText {
    ghost use Rattle.std.specs.Prelude.{ℕ, List, string_bytes};

    ghost Value = { List ℕ × List ℕ };

    ghost view = { λ t. (string_bytes t.name, t.bytes.items) };
}

impl NamedText {
    fn new(alloc: Global, name: &str, bytes: &[u8]) -> Result<NamedText, Memory>
        ensures { OnOk result (result ≡ Ok (name.now, bytes.now)) }
    {
        Ok(NamedText {
            name: String::from_str(alloc, name)?,
            bytes: Vec::from_slice(alloc, bytes)?,
        })
    }
}

/// Texts for a list of names. The last refused name is kept as its place in the list.
///
/// In clauses they are seen as the names, the texts, how often one was missing, and the name that was
/// last refused.
#[derive(Drop, Debug)]
pub struct HeldTexts {
    names: Words,
    texts: Vec<NamedText>,
    misses: u64,
    last: Option<usize>,
}

impl Model for HeldTexts {
    ghost use Rattle.std.specs.Prelude.{slice_get};
    ghost use Rattle.std.specs.Option.{option_and_then};
    ghost use Rattle.gl_outside.specs.Held.{Held};

    ghost Value = { Held };

    ghost view = { λ h. record { names = h.names; texts = h.texts.items; misses = h.misses; last = option_and_then (λ place. slice_get h.names place) h.last } };
}

impl HeldTexts {
    /// No text yet, for these names.
    pub fn new(alloc: Global, names: Words) -> HeldTexts
        ensures { result ≡ spec.no_texts names }
    {
        HeldTexts {
            names,
            texts: Vec::new(alloc),
            misses: 0,
            last: None,
        }
    }

    /// Adds a text behind the others.
    pub fn hold(&mut self, name: &str, bytes: &[u8]) -> Result<(), Memory>
        ensures ok { OnOk result (self.new ≡ spec.with_text self.old name.now bytes.now) }
        ensures err { OnErr result (self.new ≡ self.old) }
    {
        let text = NamedText::new(*self.texts.allocator(), name, bytes)?;
        self.texts.push(text)?;
        Ok(())
    }

    /// Notes that this name was refused.
    pub fn refuse(&mut self, name: &str)
        requires { Contains self.old.names name.now }
        ensures { self.new ≡ record self.old { last = Some name.now } }
    {
        self.last = Some(self.names.place_of(name));
    }

    /// Gives as many bytes of the text of this name as there is room for.
    pub fn give(&mut self, name: &str, at: u64, into: &mut [u8]) -> Fetch
        requires listed { Contains self.old.names name.now }
        requires room { 0 < length into.old }
        ensures answer { result ≡ given (told_of self.old.texts name.now) at (length into.old) }
        ensures exact { self.new ≡ spec.asked self.old name.now (told_of self.old.texts name.now) }
        ensures amount { FitsRoom (length into.old) result }
        ensures counts { (faults : ℕ)
            → Fetched (held_state faults self.old) (held_state faults self.new) name.now result }
        ensures says { Says (told_of self.old.texts name.now) at into.new result }
        ensures stays { (faults : ℕ)
            → Stays (held_state faults self.old) (held_state faults self.new) }
    {
        match text_of(self.texts.as_slice(), name) {
            Some(text) => copy_from(text.bytes.as_slice(), at, into),
            None => {
                self.misses = one_more(self.misses);
                self.refuse(name);
                Fetch::Missing
            }
        }
    }
}

// The first text that has the name.
#[tactic(auto, using(crate::proofs::Tellings::tellings))]
fn text_of<'a>(texts: &'a [NamedText], name: &str) -> Option<&'a NamedText>
    ensures { let told = told_of texts.now name.now in
        MatchOption result (told ≡ Lacks) (λ t. told ≡ Holds t.now.1) }
{
    for text in texts {
        if text.name.as_str() == name {
            return Some(text);
        }
    }
    None
}

// Copies as many bytes from this place on as there is room for.
fn copy_from(text: &[u8], at: u64, into: &mut [u8]) -> Fetch
    requires { 0 < length into.old }
    ensures answer { result ≡ given (Holds text.now) at (length into.old) }
    ensures amount { FitsRoom (length into.old) result }
    ensures says { Says (Holds text.now) at into.new result }
{
    let at = at as usize;
    if text.len() <= at {
        return Fetch::End;
    }
    let count = into.len().min(text.len() - at);
    into[..count].copy_from_slice(&text[at..at + count]);
    Fetch::Got(count)
}
