//! Shelves in memory.

ghost use Rattle.std.specs.Prelude.{◌≡◌, ◌<◌, ◌≤◌, ◌++◌, ◌∷◌, [], length, OnOk, OnErr, Contains};
ghost use Rattle.gl_outside.specs.States.{Stays, Fetched};
ghost use Rattle.gl_outside.specs.Fetched.{FitsRoom, Says};
ghost use Rattle.gl_outside.specs.Held as spec;
ghost use Rattle.gl_outside.specs.Held.{told_of, given, held_state, shelf_state};

use crate::counter::one_more;
use crate::held::HeldTexts;
use crate::shelf::{Fetch, Shelf, TEXT_LIMIT};
use crate::words::Words;
use gl_bits::Memory;
use std::alloc::Global;
use std::marker::Model;

/// A shelf in memory, some of whose calls fail. A call gives as many bytes as fit, and takes no
/// memory. It tells its texts.
///
/// In clauses it is seen as its texts, the numbers of the calls that fail (from 1), the calls so
/// far, and the faults.
#[derive(Drop, Debug)]
pub struct MemoryShelf {
    held: HeldTexts,
    failing: Vec<u64>,
    calls: u64,
    faults: u64,
}

impl Model for MemoryShelf {
    ghost use Rattle.gl_outside.specs.Held.{MemoryShelfState};

    ghost Value = { MemoryShelfState };

    ghost view = { λ s. record { held = s.held; failing = s.failing.items; calls = s.calls; faults = s.faults } };
}

impl MemoryShelf {
    /// A shelf for these names, with no text.
    pub fn new(alloc: Global, names: Words) -> MemoryShelf
        ensures { result ≡ spec.new_shelf names }
    {
        MemoryShelf {
            held: HeldTexts::new(alloc, names),
            failing: Vec::new(alloc),
            calls: 0,
            faults: 0,
        }
    }

    /// Adds a text. The first text of a name is the one that is given.
    pub fn hold(&mut self, name: &str, bytes: &[u8]) -> Result<(), Memory>
        ensures ok { let held = spec.with_text self.old.held name.now bytes.now in
            OnOk result (self.new ≡ record self.old { held = held }) }
        ensures err { OnErr result (self.new ≡ self.old) }
    {
        self.held.hold(name, bytes)
    }

    /// Lets the call of this number fail.
    pub fn fail(&mut self, call: u64) -> Result<(), Memory>
        ensures ok { let failing = self.old.failing ++ call ∷ [] in
            OnOk result (self.new ≡ record self.old { failing = failing }) }
        ensures err { OnErr result (self.new ≡ self.old) }
    {
        self.failing.push(call)?;
        Ok(())
    }
}

impl Shelf for MemoryShelf {
    ghost state = { λ s. shelf_state s };

    fn fetch(&mut self, name: &str, at: u64, into: &mut [u8]) -> Fetch
        requires room { 0 < length into.old }
        requires listed { Contains self.old.held.names name.now }
        requires within { at ≤ TEXT_LIMIT }
        // Each call is counted once, and a failed one once as a fault.
        ensures answer { result ≡ spec.served self.old name.now at (length into.old) }
        ensures exact { self.new ≡ spec.behind_call self.old name.now }
        ensures amount { FitsRoom (length into.old) result }
        ensures counts { Fetched (shelf_state self.old) (shelf_state self.new) name.now result }
        ensures says { Says (told_of self.old.held.texts name.now) at into.new result }
        ensures stays { Stays (shelf_state self.old) (shelf_state self.new) }
    {
        self.calls = one_more(self.calls);
        if self.failing.contains(&self.calls) {
            self.faults = one_more(self.faults);
            self.held.refuse(name);
            return Fetch::Failed;
        }
        self.held.give(name, at, into)
    }
}

/// A shelf in memory none of whose calls fails: its count of faults is the constant 0. A call
/// gives as many bytes as fit, and takes no memory. It tells its texts.
#[derive(Drop, Debug)]
pub struct NeverFailsShelf {
    held: HeldTexts,
}

impl Model for NeverFailsShelf {
    ghost use Rattle.gl_outside.specs.Held.{Held};

    ghost Value = { Held };

    ghost view = { λ s. s.held };
}

impl NeverFailsShelf {
    /// A shelf for these names, with no text.
    pub fn new(alloc: Global, names: Words) -> NeverFailsShelf
        ensures { result ≡ spec.no_texts names }
    {
        NeverFailsShelf {
            held: HeldTexts::new(alloc, names),
        }
    }

    /// Adds a text. The first text of a name is the one that is given.
    pub fn hold(&mut self, name: &str, bytes: &[u8]) -> Result<(), Memory>
        ensures ok { OnOk result (self.new ≡ spec.with_text self.old name.now bytes.now) }
        ensures err { OnErr result (self.new ≡ self.old) }
    {
        self.held.hold(name, bytes)
    }
}

impl Shelf for NeverFailsShelf {
    ghost state = { λ s. held_state 0 s };

    fn fetch(&mut self, name: &str, at: u64, into: &mut [u8]) -> Fetch
        requires room { 0 < length into.old }
        requires listed { Contains self.old.names name.now }
        requires within { at ≤ TEXT_LIMIT }
        ensures answer { result ≡ given (told_of self.old.texts name.now) at (length into.old) }
        ensures exact { self.new ≡ spec.asked self.old name.now (told_of self.old.texts name.now) }
        ensures amount { FitsRoom (length into.old) result }
        ensures counts { Fetched (held_state 0 self.old) (held_state 0 self.new) name.now result }
        ensures says { Says (told_of self.old.texts name.now) at into.new result }
        ensures stays { Stays (held_state 0 self.old) (held_state 0 self.new) }
    {
        self.held.give(name, at, into)
    }
}
