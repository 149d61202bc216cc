//! Sinks in memory.

ghost use Rattle.std.specs.Prelude.{◌≡◌, ◌<◌, ◌++◌, ◌∷◌, [], length, None, OnOk, OnErr, IfOk};
ghost use Rattle.gl_outside.specs.States.{FitsPiece, DoesPut};
ghost use Rattle.gl_outside.specs.Held as spec;
ghost use Rattle.gl_outside.specs.Held.{sink_state};

use crate::counter::one_more;
use crate::sink::{Put, Sink};
use gl_bits::Memory;
use std::alloc::Global;
use std::marker::Model;

/// A sink in memory, some of whose puts fail. Its room is reserved when it is made; a put takes
/// its piece whole, and one that would pass the room is a fault. It tells its bytes.
///
/// In clauses it is seen as its bytes, its room, the numbers of the puts that fail (from 1), the
/// puts so far, and the faults.
#[derive(Drop, Debug)]
pub struct MemorySink {
    bytes: Vec<u8>,
    room: usize,
    failing: Vec<u64>,
    calls: u64,
    faults: u64,
}

impl Model for MemorySink {
    ghost use Rattle.std.specs.Prelude.{◌≤◌, vec_len, vec_capacity};
    ghost use Rattle.gl_outside.specs.Held.{MemorySinkState};

    ghost Value = { MemorySinkState };

    ghost view = { λ s. record {
      bytes = s.bytes.items;
      room = s.room;
      failing = s.failing.items;
      calls = s.calls;
      faults = s.faults;
    } };

    ghost invariant = { λ s. (vec_len s.bytes ≤ s.room) × (s.room ≤ vec_capacity s.bytes) };
}

impl MemorySink {
    /// A sink with room for `room` bytes.
    pub fn new(alloc: Global, room: usize) -> Result<MemorySink, Memory>
        ensures { IfOk result (λ s. s ≡ spec.new_sink room) }
    {
        Ok(MemorySink {
            bytes: Vec::with_capacity(alloc, room)?,
            room,
            failing: Vec::new(alloc),
            calls: 0,
            faults: 0,
        })
    }

    /// Lets the put of this number fail.
    pub fn fail(&mut self, call: u64) -> Result<(), Memory>
        ensures ok { let failing = self.old.failing ++ call ∷ [] in
            OnOk result (self.new ≡ record self.old { failing = failing }) }
        ensures err { OnErr result (self.new ≡ self.old) }
    {
        self.failing.push(call)?;
        Ok(())
    }

    /// The bytes taken so far.
    pub fn bytes(&self) -> &[u8]
        ensures { result.now ≡ self.now.bytes }
    {
        self.bytes.as_slice()
    }
}

impl Sink for MemorySink {
    ghost state = { λ s. sink_state s };

    fn put(&mut self, piece: &[u8]) -> Put
        requires { 0 < length piece.now }
        // Each put is counted once, and a failed one once as a fault.
        ensures answer { result ≡ spec.put_of self.old piece.now }
        ensures exact { self.new ≡ spec.behind_put self.old piece.now }
        ensures amount { FitsPiece (length piece.now) result }
        ensures does { DoesPut (sink_state self.old) (sink_state self.new) piece.now result }
    {
        self.calls = one_more(self.calls);
        let left = self.room - self.bytes.len();
        if self.failing.contains(&self.calls) || left < piece.len() {
            self.faults = one_more(self.faults);
            return Put::Failed;
        }
        match self.bytes.extend_from_slice(piece) {
            Ok(()) => Put::Took(piece.len()),
            Err(_) => unreachable!(),
        }
    }
}

/// A sink that takes every piece whole and keeps nothing: its count of faults is the constant 0.
/// It tells nothing.
#[derive(Clone, Copy, PartialEq, Eq, Debug)]
pub struct NeverFailsSink;

impl Sink for NeverFailsSink {
    ghost state = { λ _. record { taken = None; faults = 0 } };

    fn put(&mut self, piece: &[u8]) -> Put
        requires { 0 < length piece.now }
        ensures answer { result ≡ Put.Took (length piece.now) }
        ensures amount { FitsPiece (length piece.now) result }
        ensures does { DoesPut (record { taken = None; faults = 0 })
            (record { taken = None; faults = 0 }) piece.now result }
    {
        Put::Took(piece.len())
    }
}
