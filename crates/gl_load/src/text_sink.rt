//! A sink that keeps what it takes.

ghost use Rattle.std.specs.Prelude.{◌≡◌, ◌<◌, [], length};
ghost use Rattle.gl_outside.specs.States.{FitsPiece, DoesPut};
ghost use Rattle.gl_load.specs.Steps.{kept_state};

use gl_outside::{Put, Sink};
use std::alloc::Global;
use std::marker::Model;

/// A sink in memory that grows with what it takes. Want of memory is its fault.
///
/// In clauses it is seen as its bytes and its faults.
#[derive(Drop)]
pub(crate) struct TextSink {
    bytes: Vec<u8>,
    faults: u64,
}

impl Model for TextSink {
    ghost use Rattle.gl_load.specs.Steps.{Kept};

    ghost Value = { Kept };

    ghost view = { λ s. record { bytes = s.bytes.items; faults = s.faults } };
}

impl TextSink {
    /// A sink without a byte.
    pub(crate) fn empty(alloc: Global) -> TextSink
        ensures { result ≡ record { bytes = []; faults = 0 } }
    {
        TextSink {
            bytes: Vec::new(alloc),
            faults: 0,
        }
    }

    /// The bytes that it took.
    pub(crate) fn bytes(&self) -> &[u8]
        ensures { result.now ≡ self.now.bytes }
    {
        self.bytes.as_slice()
    }
}

impl Sink for TextSink {
    ghost state = { λ s. kept_state s };

    fn put(&mut self, piece: &[u8]) -> Put
        requires { 0 < length piece.now }
        ensures amount { FitsPiece (length piece.now) result }
        ensures does { DoesPut (kept_state self.old) (kept_state self.new) piece.now result }
    {
        match self.bytes.extend_from_slice(piece) {
            Ok(()) => Put::Took(piece.len()),
            Err(_) => {
                self.faults = self.faults.saturating_add(1);
                Put::Failed
            }
        }
    }
}
