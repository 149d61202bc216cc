//! std's writers as sinks.

ghost use Rattle.std.specs.Prelude.{◌≡◌, ◌<◌, length};
ghost use Rattle.std.specs.Io.{WritesAtMost};
ghost use Rattle.gl_outside.specs.States.{FitsPiece, DoesPut};
ghost use Rattle.gl_outside.specs.Streams.{stream_state, WritesThrough, Writes};

use crate::counter::one_more;
use crate::sink::{Put, Sink};
use std::io;
use std::io::Write;
use std::marker::Model;

/// A writer of std. Each put writes and then flushes; an error of either, or a write of 0 bytes,
/// is a fault. As a sink it tells nothing.
///
/// In clauses it is seen as the bytes that the writer holds, where these are known, and its count
/// of faults, which stands still at its last value.
#[derive(Drop)]
pub struct StreamSink<W: Write + Drop> {
    writer: W,
    faults: u64,
}

impl<W: Write + Drop> Model for StreamSink<W> {
    ghost use Rattle.gl_outside.specs.Streams.{StreamState};

    ghost Value = { StreamState };

    ghost view = { λ s. record { contents = W.contents s.writer; faults = s.faults } };
}

impl<W: Write + Drop> StreamSink<W> {
    /// A sink over this writer.
    pub fn new(writer: W) -> StreamSink<W>
        ensures { result ≡ record { contents = W.contents writer; faults = 0 } }
    {
        StreamSink { writer, faults: 0 }
    }
}

// Writes a front of the piece, and flushes.
fn write_through<W: Write>(writer: &mut W, piece: &[u8]) -> io::Result<usize>
    ensures bound { WritesAtMost result piece.now }
    ensures bytes { let held = W.contents writer.old in
        WritesThrough held (W.contents writer.new) piece.now result }
{
    let count = writer.write(piece)?;
    writer.flush()?;
    Ok(count)
}

impl<W: Write + Drop> Sink for StreamSink<W> {
    ghost state = { λ s. stream_state s };

    fn put(&mut self, piece: &[u8]) -> Put
        requires { 0 < length piece.now }
        ensures amount { FitsPiece (length piece.now) result }
        ensures does { DoesPut (stream_state self.old) (stream_state self.new) piece.now result }
        // So many bytes as were taken, and no others, now stand in the writer.
        ensures bytes { Writes self.old.contents self.new.contents piece.now result }
    {
        match write_through(&mut self.writer, piece) {
            Ok(count) if count > 0 => Put::Took(count),
            _ => {
                self.faults = one_more(self.faults);
                Put::Failed
            }
        }
    }
}
