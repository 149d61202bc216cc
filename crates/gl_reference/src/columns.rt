//! Sources by name, and the columns of queries over them.

ghost use Rattle.std.specs.Prelude.{◌≡◌, ◌∷◌, [], IfOk, List, ℕ, bytes_eq, find, option_map};
ghost use Rattle.gl_query.specs.Columns.{colon, parameters_in, reach_of};
ghost use Rattle.gl_query.specs.Results.{first_row, parameter_source, streams_of, words_in};

use gl_bits::{Listed, Memory};
use gl_query::columns::{self, copy_of_columns, copy_of_name};
use gl_query::{Query, Sources};
use gl_schema::{Column, Columns, Stream, Streams};
use gl_values::Table;
use gl_values::lists::copy_of_row;
use std::alloc::Global;

/// The places and times of a stream's rows, and how many ticks come in all.
#[derive(Clone, Copy)]
pub struct Clock<'a> {
    /// A place for each row: the cycle of its beat.
    pub places: &'a [u64],
    /// A time for each row.
    pub times: &'a [u64],
    /// All ticks.
    pub ticks: u64,
}

/// A source that a query may read, and its rows. The parameters are a source too, named by a colon
/// alone, whose one row has their words: no query can read it, and every expression sees it.
#[derive(Clone, Copy)]
pub struct Source<'a> {
    /// Its name.
    pub name: &'a [u8],
    /// Its columns.
    pub columns: &'a [Column],
    /// Its rows.
    pub rows: &'a [Listed<u128>],
    /// Its clock; a body's variable has none.
    pub clock: Option<Clock<'a>>,
}

/// What the expressions of a select see.
#[derive(Clone, Copy)]
pub struct Seen<'a> {
    /// The columns of its source, and the parameters behind them.
    pub columns: &'a [Column],
    /// The words of the parameters.
    pub words: &'a [u128],
}

ghost use Rattle.gl_reference.specs.Sources.{columns_over, env_view, source_of};

// The name of the source that has the parameters.
fn parameters_name<'a>() -> &'a [u8]
    ensures { result.now ≡ colon }
{
    b":".as_slice()
}

/// The first source with a name.
pub fn source_named<'a>(sources: &[Source<'a>], name: &[u8]) -> Option<Source<'a>>
    ensures { option_map source_of result
        ≡ find (λ s. bytes_eq name.now s.stream.name) (env_view sources.now) }
{
    let (first, others) = sources.split_first()?;
    if name == first.name {
        return Some(*first);
    }
    source_named(others, name)
}

// The first row; a row without words where there is none.
fn first_row<'a>(rows: &'a [Listed<u128>]) -> &'a [u128]
    ensures { result.now ≡ first_row rows.now }
{
    match rows.split_first() {
        Some((row, _)) => row.as_slice(),
        None => &[],
    }
}

/// The words of the parameters among sources.
pub fn words_of<'a>(sources: &[Source<'a>]) -> &'a [u128]
    ensures { result.now ≡ words_in (env_view sources.now) }
{
    match source_named(sources, parameters_name()) {
        Some(source) => first_row(source.rows),
        None => &[],
    }
}

// The parameters among sources.
fn parameters_of<'a>(sources: &[Source<'a>]) -> &'a [Column]
    ensures { result.now ≡ parameters_in (streams_of (env_view sources.now)) }
{
    match source_named(sources, parameters_name()) {
        Some(source) => source.columns,
        None => &[],
    }
}

/// The parameters among sources, apart from them.
pub fn copy_of_parameters(alloc: Global, sources: &[Source<'_>]) -> Result<Columns, Memory>
    ensures { IfOk result (λ v. v ≡ parameters_in (streams_of (env_view sources.now))) }
{
    copy_of_columns(alloc, parameters_of(sources))
}

/// A table of one row.
pub fn one_row(alloc: Global, row: &[u128]) -> Result<Table, Memory>
    ensures { IfOk result (λ v. v ≡ row.now ∷ []) }
{
    let mut table = Listed::new(alloc);
    table.push(copy_of_row(alloc, row)?)?;
    Ok(table)
}

/// The words of the parameters among sources, as a table of one row.
pub fn words_table(alloc: Global, sources: &[Source<'_>]) -> Result<Table, Memory>
    ensures { IfOk result (λ v. v ≡ words_in (env_view sources.now) ∷ []) }
{
    one_row(alloc, words_of(sources))
}

/// Parameters as a source, with a table of their words.
pub fn parameters_as<'a>(columns: &'a [Column], table: &'a [Listed<u128>]) -> Source<'a>
    ensures { (words : List ℕ) → table.now ≡ words ∷ []
        → source_of result ≡ parameter_source columns.now words }
{
    Source {
        name: parameters_name(),
        columns,
        rows: table,
        clock: None,
    }
}

/// The streams of sources, without their rows.
fn streams_of(alloc: Global, sources: &[Source<'_>]) -> Result<Streams, Memory>
    ensures { IfOk result (λ v. v ≡ streams_of (env_view sources.now)) }
{
    let mut out = Listed::new(alloc);
    for source in sources {
        let name = copy_of_name(alloc, source.name)?;
        let columns = copy_of_columns(alloc, source.columns)?;
        out.push(Stream { name, columns })?;
    }
    Ok(out)
}

/// The columns of a query over the sources that it sees.
pub fn columns_of(alloc: Global, sources: &[Source<'_>], query: &Query) -> Result<Columns, Memory>
    ensures { IfOk result (λ v. v ≡ columns_over sources.now query.now) }
{
    let streams = streams_of(alloc, sources)?;
    let parameters = parameters_of(sources);
    columns::columns_of(
        alloc,
        Sources::Schema(streams.as_slice(), parameters),
        query,
    )
}

/// What an expression over columns may name: these, and the parameters behind them.
pub fn reach_of(
    alloc: Global,
    sources: &[Source<'_>],
    columns: &[Column],
) -> Result<Columns, Memory>
    ensures { IfOk result (λ v. v ≡ reach_of (streams_of (env_view sources.now)) columns.now) }
{
    let parameters = parameters_of(sources);
    columns::reach_of(alloc, Sources::Schema(&[], parameters), columns)
}
