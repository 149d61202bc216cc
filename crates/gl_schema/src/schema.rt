//! Schemas: streams of named columns, and parameters.

use gl_bits::Listed;
use gl_values::Kind;

/// The bytes of a name.
pub type NameText = Listed<u8>;

/// The columns of a stream, or the parameters of a schema, in order.
pub type Columns = Listed<Column>;

/// The streams of a schema, in order.
pub type Streams = Listed<Stream>;

/// A column of a stream, or a parameter of a schema.
#[derive(Drop, Debug)]
pub struct Column {
    /// Its name, which no other column of its stream has, or no other parameter.
    pub name: NameText,
    /// What it holds.
    pub kind: Kind,
}

/// A stream of tuples.
#[derive(Drop, Debug)]
pub struct Stream {
    /// Its name, which no other stream of its schema has.
    pub name: NameText,
    /// Its columns: 1 to 32.
    pub columns: Columns,
}

/// The streams that a query may read, 1 to 8, and the parameters that a user sets.
#[derive(Drop, Debug)]
pub struct Schema {
    /// The streams, in the order of the text.
    pub streams: Streams,
    /// The parameters, in the order of the text: at most 32.
    pub parameters: Columns,
}
