//! Sinks: they take bytes.

ghost use Rattle.std.specs.Prelude.{◌<◌, length};
ghost use Rattle.gl_outside.specs.States.{SinkState, FitsPiece, DoesPut};

/// What a put does.
#[derive(Clone, Copy, PartialEq, Eq, Debug)]
pub enum Put {
    /// So many bytes were taken from the front of the piece, at least one.
    Took(usize),
    /// None was taken. The count of faults rose.
    Failed,
}

/// A sink of bytes.
///
/// What is seen of a sink are the bytes that it took so far, where it tells them, and how often a
/// put failed.
pub trait Sink {
    ghost state: { Self → SinkState };

    /// Takes a front of the piece, or fails.
    fn put(&mut self, piece: &[u8]) -> Put
        requires { 0 < length piece.now }
        ensures amount { FitsPiece (length piece.now) result }
        // A failed put has its cause and takes nothing; any other leaves the count.
        ensures does { DoesPut (state self.old) (state self.new) piece.now result };
}
