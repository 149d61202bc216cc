//! What a record brings.

use gl_bits::Row;

/// The row of a stream, by the stream's number, a tick, or the end.
#[derive(Drop, Debug)]
pub enum Entry {
    /// A row, and the number of its stream in the schema.
    Tuple(usize, Row),
    /// A tick of the clock.
    Tick,
    /// The end of the input.
    End,
}
