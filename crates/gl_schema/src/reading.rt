//! Reading a schema from its tokens, in one pass from the left.

ghost use Rattle.std.specs.Prelude.{◌≡◌};
ghost use Rattle.gl_schema.specs.Schemas as schemas;
ghost use Rattle.gl_schema.specs.SchemaText.{Word, Sign};
ghost use Rattle.gl_schema.specs.SchemaFaults as spec;
ghost use Rattle.gl_schema.specs.SchemaFaults.{Gives};

use crate::fault::SchemaFault;
use crate::kind::kind_named;
use crate::name::is_name;
use crate::schema::{Column, Columns, NameText, Schema, Stream, Streams};
use gl_bits::limits::{MOST_COLUMNS, MOST_STREAMS};
use gl_values::Kind;
use std::alloc::Global;

/// What may come next.
#[derive(Drop, Debug)]
pub enum Place {
    /// `stream`, `parameter`, or the end of the text.
    Declaration,
    /// The name of a stream.
    Name,
    /// The bracket behind the name of a stream.
    Opening(NameText),
    /// The name of a column, in a stream with the columns so far.
    Column(Stream),
    /// The kind of the column of this name.
    Kind(Stream, NameText),
    /// A comma or the closing bracket.
    Comma(Stream),
    /// The semicolon behind a stream.
    Close(Stream),
    /// The name of a parameter.
    Parameter,
    /// The kind of the parameter of this name.
    ParameterKind(NameText),
    /// The semicolon behind a parameter.
    ParameterClose(Column),
}

/// The streams and parameters so far, and what may come next.
#[derive(Drop, Debug)]
pub struct Reading {
    /// The streams and parameters that are read whole.
    pub schema: Schema,
    /// What may come next.
    pub place: Place,
}

impl Reading {
    /// Before the first token.
    pub fn new(alloc: Global) -> Reading
        ensures { result ≡ spec.start }
    {
        Reading {
            schema: Schema {
                streams: Streams::new(alloc),
                parameters: Columns::new(alloc),
            },
            place: Place::Declaration,
        }
    }

    /// Reads a word that begins at a place of the text.
    pub fn word(self, alloc: Global, at: u64, word: &[u8]) -> Result<Reading, SchemaFault>
        ensures { Gives result (spec.mark_at (Word word.now) self at) }
    {
        let Reading { schema, place } = self;
        match place {
            Place::Declaration => begin(schema, at, word),
            Place::Name => name_stream(alloc, schema, at, word),
            Place::Column(stream) => name_column(alloc, schema, stream, at, word),
            Place::Kind(stream, name) => end_column(schema, stream, name, at, word),
            Place::Parameter => name_parameter(alloc, schema, at, word),
            Place::ParameterKind(name) => end_parameter(schema, name, at, word),
            Place::Opening(_) | Place::Comma(_) | Place::Close(_) | Place::ParameterClose(_) => {
                Err(SchemaFault::Syntax { at })
            }
        }
    }

    /// Reads a sign that stands at a place of the text.
    pub fn sign(self, alloc: Global, at: u64, sign: u8) -> Result<Reading, SchemaFault>
        ensures { Gives result (spec.mark_at (Sign sign) self at) }
    {
        let Reading { mut schema, place } = self;
        let place = match (place, sign) {
            (Place::Opening(name), b'(') => Place::Column(Stream {
                name,
                columns: Columns::new(alloc),
            }),
            (Place::Comma(stream), b',') => Place::Column(stream),
            (Place::Comma(stream), b')') => Place::Close(stream),
            (Place::Close(stream), b';') => {
                schema.streams.push(stream)?;
                Place::Declaration
            }
            (Place::ParameterClose(parameter), b';') => {
                schema.parameters.push(parameter)?;
                Place::Declaration
            }
            _ => return Err(SchemaFault::Syntax { at }),
        };
        Ok(Reading { schema, place })
    }

    /// The schema at the end of a text of this length.
    pub fn end(self, len: u64) -> Result<Schema, SchemaFault>
        ensures { Gives result (spec.end_at self.place self.schema len) }
    {
        let Reading { schema, place } = self;
        match place {
            Place::Declaration if schema.streams.len() > 0 => Ok(schema),
            _ => Err(SchemaFault::Syntax { at: len }),
        }
    }
}

fn begin(schema: Schema, at: u64, word: &[u8]) -> Result<Reading, SchemaFault>
    ensures { Gives result (spec.declaration_next
        (record { schema = schema; place = Place.Declaration }) at word.now) }
{
    if word == b"stream".as_slice() {
        return begin_stream(schema, at);
    }
    if word == b"parameter".as_slice() {
        return begin_parameter(schema, at);
    }
    Err(SchemaFault::Syntax { at })
}

fn begin_stream(schema: Schema, at: u64) -> Result<Reading, SchemaFault>
    ensures { Gives result
        (spec.stream_next (record { schema = schema; place = Place.Declaration }) at) }
{
    if schema.streams.len() >= MOST_STREAMS {
        return Err(SchemaFault::TooMany { at });
    }
    Ok(Reading {
        schema,
        place: Place::Name,
    })
}

fn begin_parameter(schema: Schema, at: u64) -> Result<Reading, SchemaFault>
    ensures { Gives result
        (spec.parameter_next (record { schema = schema; place = Place.Declaration }) at) }
{
    if schema.parameters.len() >= MOST_COLUMNS {
        return Err(SchemaFault::TooMany { at });
    }
    Ok(Reading {
        schema,
        place: Place::Parameter,
    })
}

fn name_stream(alloc: Global, schema: Schema, at: u64, word: &[u8]) -> Result<Reading, SchemaFault>
    ensures { Gives result (spec.name_next (record { schema = schema; place = Place.Name }) at
        word.now) }
{
    if !is_name(word) {
        return Err(SchemaFault::BadName { at });
    }
    if has_stream(schema.streams.as_slice(), word) {
        return Err(SchemaFault::Twice { at });
    }
    let name = NameText::from_vec(Vec::from_slice(alloc, word)?);
    Ok(Reading {
        schema,
        place: Place::Opening(name),
    })
}

fn name_column(
    alloc: Global,
    schema: Schema,
    stream: Stream,
    at: u64,
    word: &[u8],
) -> Result<Reading, SchemaFault>
    ensures { Gives result (spec.column_next
        (record { schema = schema; place = Place.Column stream }) stream at word.now) }
{
    if !is_name(word) {
        return Err(SchemaFault::BadName { at });
    }
    if stream.columns.len() >= MOST_COLUMNS {
        return Err(SchemaFault::TooMany { at });
    }
    if has_column(stream.columns.as_slice(), word) {
        return Err(SchemaFault::Twice { at });
    }
    let name = NameText::from_vec(Vec::from_slice(alloc, word)?);
    Ok(Reading {
        schema,
        place: Place::Kind(stream, name),
    })
}

fn end_column(
    schema: Schema,
    mut stream: Stream,
    name: NameText,
    at: u64,
    word: &[u8],
) -> Result<Reading, SchemaFault>
    ensures { Gives result (spec.kind_next
        (record { schema = schema; place = Place.Kind stream name }) stream name at
        (spec.kind_named word.now)) }
{
    let Some(kind) = kind_named(word) else {
        return Err(SchemaFault::BadKind { at });
    };
    stream.columns.push(Column { name, kind })?;
    Ok(Reading {
        schema,
        place: Place::Comma(stream),
    })
}

fn name_parameter(
    alloc: Global,
    schema: Schema,
    at: u64,
    word: &[u8],
) -> Result<Reading, SchemaFault>
    ensures { Gives result (spec.parameter_named
        (record { schema = schema; place = Place.Parameter }) at word.now) }
{
    if !is_name(word) {
        return Err(SchemaFault::BadName { at });
    }
    if has_column(schema.parameters.as_slice(), word) {
        return Err(SchemaFault::Twice { at });
    }
    let name = NameText::from_vec(Vec::from_slice(alloc, word)?);
    Ok(Reading {
        schema,
        place: Place::ParameterKind(name),
    })
}

fn end_parameter(
    schema: Schema,
    name: NameText,
    at: u64,
    word: &[u8],
) -> Result<Reading, SchemaFault>
    ensures { Gives result (spec.parameter_kind
        (record { schema = schema; place = Place.ParameterKind name }) name at
        (spec.kind_named word.now)) }
{
    let Some(kind) = kind_named(word) else {
        return Err(SchemaFault::BadKind { at });
    };
    Ok(Reading {
        schema,
        place: Place::ParameterClose(Column { name, kind }),
    })
}

#[tactic(auto, unfolding(crate::specs::Schemas::has_stream))]
fn has_stream(streams: &[Stream], word: &[u8]) -> bool
    ensures { result ≡ schemas.has_stream streams.now word.now }
{
    streams.iter().any(|stream| word == stream.name.as_slice())
}

#[tactic(auto, unfolding(crate::specs::Schemas::has_column))]
fn has_column(columns: &[Column], word: &[u8]) -> bool
    ensures { result ≡ schemas.has_column columns.now word.now }
{
    columns.iter().any(|column| word == column.name.as_slice())
}
