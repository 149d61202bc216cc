//! What a query may read, and the columns of queries.

ghost use Rattle.std.specs.Prelude.{◌≡◌, ◌∷◌, ◌++◌, IfOk, map};
ghost use Rattle.gl_schema.specs.Schemas.{column_names, kinds_of};
ghost use Rattle.gl_query.specs.Shapes.{agg_item_shape, agg_shape, frame_agg_shape, frame_item_shape, frame_shape, item_shape, pick_shape, query_shape};
ghost use Rattle.gl_query.specs.Values.{column_kind};
ghost use Rattle.gl_query.specs.Columns.{agg_column, agg_kind, but_key, columns_of, frame_agg_kind, frame_column, frame_kind, item_column, picked_columns, source_columns, variable, marked, parameters_in, reach_of};
ghost use Rattle.gl_query.specs.Sources.{scope_of};

use crate::kinds::{column_kind, column_number, kind_alone, kind_of};
use crate::tree::{Agg, AggItem, Frame, FrameAgg, FrameItem, Item, Pick, Query};
use gl_bits::{Listed, Memory};
use gl_schema::{Column, Columns, NameText, Stream};
use gl_values::Kind;
use std::alloc::Global;

/// What a query may read: the streams of a schema, or the variable of the body around; and what its
/// expressions may name beside columns, the parameters.
#[derive(Clone, Copy)]
pub enum Sources<'a> {
    /// All streams of a schema, whose rows have times, and its parameters.
    Schema(&'a [Stream], &'a [Column]),
    /// The variable of a body: its name and its columns, and the parameters. Its rows have no times.
    Variable(&'a [u8], &'a [Column], &'a [Column]),
}

/// The parameters among what a query may read.
pub fn parameters_in<'a>(sources: Sources<'a>) -> &'a [Column]
    ensures { result.now ≡ parameters_in (scope_of sources.entry).sources }
{
    match sources {
        Sources::Schema(_, parameters) => parameters,
        Sources::Variable(_, _, parameters) => parameters,
    }
}

/// A name like another.
pub fn copy_of_name(alloc: Global, name: &[u8]) -> Result<NameText, Memory>
    ensures { IfOk result (λ v. v ≡ name.now) }
{
    Ok(Listed::from_vec(Vec::from_slice(alloc, name)?))
}

/// Columns like others.
pub fn copy_of_columns(alloc: Global, columns: &[Column]) -> Result<Columns, Memory>
    ensures { IfOk result (λ v. v ≡ columns.now) }
{
    let mut out = Listed::new(alloc);
    for column in columns {
        let name = copy_of_name(alloc, column.name.as_slice())?;
        out.push(Column {
            name,
            kind: column.kind,
        })?;
    }
    Ok(out)
}

/// The names of columns, in order.
pub fn names_of(alloc: Global, columns: &[Column]) -> Result<Listed<NameText>, Memory>
    ensures { IfOk result (λ v. v ≡ column_names columns.now) }
{
    let mut out = Listed::new(alloc);
    for column in columns {
        out.push(copy_of_name(alloc, column.name.as_slice())?)?;
    }
    Ok(out)
}

/// The kinds of columns, in order.
pub fn kinds_of(alloc: Global, columns: &[Column]) -> Result<Listed<Kind>, Memory>
    ensures { IfOk result (λ v. v ≡ kinds_of columns.now) }
{
    let mut out = Listed::new(alloc);
    for column in columns {
        out.push(column.kind)?;
    }
    Ok(out)
}

/// The columns of the first stream with a name; none where there is no such stream.
fn columns_named(alloc: Global, streams: &[Stream], name: &[u8]) -> Result<Columns, Memory>
    ensures { IfOk result (λ v. v ≡ source_columns streams.now name.now) }
{
    let Some((first, others)) = streams.split_first() else {
        return Ok(Listed::new(alloc));
    };
    if name == first.name.as_slice() {
        return copy_of_columns(alloc, first.columns.as_slice());
    }
    columns_named(alloc, others, name)
}

/// The columns of a variable, by its name; none under another name.
fn columns_within(
    alloc: Global,
    var: &[u8],
    columns: &[Column],
    name: &[u8],
) -> Result<Columns, Memory>
    ensures { IfOk result (λ v. v ≡ source_columns (variable var.now columns.now) name.now) }
{
    if name == var {
        copy_of_columns(alloc, columns)
    } else {
        Ok(Listed::new(alloc))
    }
}

/// The columns of a source, by its name; none where there is no such source.
pub fn source_columns(alloc: Global, sources: Sources<'_>, name: &[u8]) -> Result<Columns, Memory>
    ensures { IfOk result (λ v. v ≡ source_columns (scope_of sources.entry).sources name.now) }
{
    match sources {
        Sources::Schema(streams, parameters) => {
            if name == b":".as_slice() {
                return copy_of_columns(alloc, parameters);
            }
            columns_named(alloc, streams, name)
        }
        Sources::Variable(var, columns, parameters) => {
            if name == b":".as_slice() {
                return copy_of_columns(alloc, parameters);
            }
            columns_within(alloc, var, columns, name)
        }
    }
}

/// A name with a colon in front, as an expression names a parameter.
fn marked_name(alloc: Global, name: &[u8]) -> Result<NameText, Memory>
    ensures { IfOk result (λ v. v ≡ 58 ∷ name.now) }
{
    let mut out = Vec::from_slice(alloc, b":".as_slice())?;
    out.extend_from_slice(name)?;
    Ok(Listed::from_vec(out))
}

/// The parameters under the names by which an expression reads them.
fn marked_columns(alloc: Global, parameters: &[Column]) -> Result<Columns, Memory>
    ensures { IfOk result (λ v. v ≡ map marked parameters.now) }
{
    let mut out = Listed::new(alloc);
    for parameter in parameters {
        let name = marked_name(alloc, parameter.name.as_slice())?;
        out.push(Column {
            name,
            kind: parameter.kind,
        })?;
    }
    Ok(out)
}

/// What an expression over columns may name: these, and the parameters behind them.
pub fn reach_of(alloc: Global, sources: Sources<'_>, columns: &[Column]) -> Result<Columns, Memory>
    ensures { IfOk result (λ v. v ≡ reach_of (scope_of sources.entry).sources columns.now) }
{
    let first = copy_of_columns(alloc, columns)?;
    let behind = marked_columns(alloc, parameters_in(sources))?;
    joined_columns(first, behind)
}

/// The columns of items.
fn item_columns(alloc: Global, columns: &[Column], items: &[Item]) -> Result<Columns, Memory>
    ensures { IfOk result (λ v. v ≡ map (item_column columns.now) (map item_shape items.now)) }
{
    let mut out = Listed::new(alloc);
    for item in items {
        let name = copy_of_name(alloc, item.name.text.as_slice())?;
        let kind = kind_of(columns, kind_alone(&item.expr), &item.expr);
        out.push(Column { name, kind })?;
    }
    Ok(out)
}

/// The columns of what a select picks of its source's columns, from what its expressions may name.
pub fn picked_columns(
    alloc: Global,
    columns: Columns,
    reach: &[Column],
    pick: &Pick,
) -> Result<Columns, Memory>
    ensures { IfOk result (λ v. v ≡ picked_columns columns reach.now (pick_shape pick.now)) }
{
    match pick {
        Pick::All => Ok(columns),
        Pick::Items(items) => item_columns(alloc, reach, items.as_slice()),
    }
}

/// The kind of an aggregate.
pub fn agg_kind(columns: &[Column], agg: &Agg) -> Kind
    ensures { result ≡ agg_kind columns.now (agg_shape agg.now) }
{
    match agg {
        Agg::Count { .. } => Kind::Unsigned(32),
        Agg::Sum(expr) | Agg::Min(expr) | Agg::Max(expr) | Agg::Avg(expr) => {
            kind_of(columns, kind_alone(expr), expr)
        }
        Agg::Wsum { arg, .. } => kind_of(columns, kind_alone(arg), arg),
    }
}

/// The columns of aggregates.
pub fn agg_columns(alloc: Global, columns: &[Column], aggs: &[AggItem]) -> Result<Columns, Memory>
    ensures { IfOk result (λ v. v ≡ map (agg_column columns.now) (map agg_item_shape aggs.now)) }
{
    let mut out = Listed::new(alloc);
    for item in aggs {
        let name = copy_of_name(alloc, item.name.text.as_slice())?;
        let kind = agg_kind(columns, &item.agg);
        out.push(Column { name, kind })?;
    }
    Ok(out)
}

/// The kind of a function over the rows of a frame.
pub fn frame_agg_kind(columns: &[Column], agg: &FrameAgg) -> Kind
    ensures { result ≡ frame_agg_kind columns.now (frame_agg_shape agg.now) }
{
    match agg {
        FrameAgg::Count => Kind::Unsigned(32),
        FrameAgg::Sum(expr)
        | FrameAgg::Min(expr)
        | FrameAgg::Max(expr)
        | FrameAgg::Avg(expr)
        | FrameAgg::LastValue(expr) => kind_of(columns, kind_alone(expr), expr),
    }
}

/// The kind of a frame.
pub fn frame_kind(columns: &[Column], frame: &Frame) -> Kind
    ensures { result ≡ frame_kind columns.now (frame_shape frame.now) }
{
    match frame {
        Frame::Own(expr) => kind_of(columns, kind_alone(expr), expr),
        Frame::Lag { arg, .. } => kind_of(columns, kind_alone(arg), arg),
        Frame::Over { agg, .. } => frame_agg_kind(columns, agg),
    }
}

/// The columns of frames.
pub fn frame_columns(
    alloc: Global,
    columns: &[Column],
    items: &[FrameItem],
) -> Result<Columns, Memory>
    ensures { let shapes = map frame_item_shape items.now in
        IfOk result (λ v. v ≡ map (frame_column columns.now) shapes) }
{
    let mut out = Listed::new(alloc);
    for item in items {
        let name = copy_of_name(alloc, item.name.text.as_slice())?;
        let kind = frame_kind(columns, &item.frame);
        out.push(Column { name, kind })?;
    }
    Ok(out)
}

/// The columns of one list, then those of another.
pub fn joined_columns(first: Columns, second: Columns) -> Result<Columns, Memory>
    ensures { IfOk result (λ v. v ≡ first ++ second) }
{
    let mut out = first.into_vec();
    let mut more = second.into_vec();
    match out.append(&mut more) {
        Ok(()) => Ok(Listed::from_vec(out)),
        Err(_) => Err(Memory),
    }
}

/// Columns without that of a key.
#[tactic(auto, using(crate::proofs::Without::nothing_there))]
pub fn but_key(columns: Columns, key: &[u8]) -> Columns
    ensures { result ≡ but_key key.now columns }
{
    let number = column_number(columns.as_slice(), key);
    let mut out = columns.into_vec();
    if number < out.len() {
        let _ = out.remove(number);
    }
    Listed::from_vec(out)
}

/// The key's column, then the columns of the body of each group.
pub fn group_columns(
    alloc: Global,
    columns: &[Column],
    key: &[u8],
    body: Columns,
) -> Result<Columns, Memory>
    ensures { IfOk result (λ v. v
        ≡ record { name = key.now; kind = column_kind columns.now key.now }
        ∷ body) }
{
    let mut first = Listed::new(alloc);
    first.push(Column {
        name: copy_of_name(alloc, key)?,
        kind: column_kind(columns, key),
    })?;
    joined_columns(first, body)
}

/// The columns of a query over the sources that it may read.
pub fn columns_of(alloc: Global, sources: Sources<'_>, query: &Query) -> Result<Columns, Memory>
    ensures { IfOk result (λ v. v
        ≡ columns_of (scope_of sources.entry).sources (query_shape query.now)) }
{
    match query {
        Query::Read(name) => source_columns(alloc, sources, name.text.as_slice()),
        Query::Rows { pick, source, .. } => {
            let columns = columns_of(alloc, sources, source)?;
            let reach = reach_of(alloc, sources, columns.as_slice())?;
            picked_columns(alloc, columns, reach.as_slice(), pick)
        }
        Query::Total { aggs, source } => {
            let columns = columns_of(alloc, sources, source)?;
            let reach = reach_of(alloc, sources, columns.as_slice())?;
            agg_columns(alloc, reach.as_slice(), aggs.as_slice())
        }
        Query::Frames { items, source, .. } => {
            let columns = columns_of(alloc, sources, source)?;
            let reach = reach_of(alloc, sources, columns.as_slice())?;
            frame_columns(alloc, reach.as_slice(), items.as_slice())
        }
        Query::Each {
            var,
            source,
            body,
            ..
        }
        | Query::EachTime {
            var,
            source,
            body,
            ..
        } => {
            let columns = columns_of(alloc, sources, source)?;
            let parameters = parameters_in(sources);
            let inside = Sources::Variable(var.text.as_slice(), columns.as_slice(), parameters);
            columns_of(alloc, inside, body)
        }
        Query::PerGroup {
            var,
            source,
            key,
            body,
            ..
        }
        | Query::Partition {
            var,
            source,
            key,
            body,
            ..
        } => {
            let columns = columns_of(alloc, sources, source)?;
            let parameters = parameters_in(sources);
            let inside = Sources::Variable(var.text.as_slice(), columns.as_slice(), parameters);
            let later = columns_of(alloc, inside, body)?;
            group_columns(alloc, columns.as_slice(), key.text.as_slice(), later)
        }
        Query::Union { left, .. } | Query::ByArrival { left, .. } => {
            columns_of(alloc, sources, left)
        }
        Query::AsOf {
            left,
            right,
            slots,
            ..
        } => {
            let first = columns_of(alloc, sources, left)?;
            let second = columns_of(alloc, sources, right)?;
            joined_columns(first, but_key(second, slots.key.text.as_slice()))
        }
        Query::Concat { left, right, .. } => {
            let first = columns_of(alloc, sources, left)?;
            joined_columns(first, columns_of(alloc, sources, right)?)
        }
    }
}
