//! The leaves of a plan.

ghost use Rattle.std.specs.Prelude.{◌≡◌, ◌≤◌, bytes_eq, false, length, IfOk};
ghost use Rattle.gl_schema.specs.Schemas.{kinds_of};
ghost use Rattle.gl_query.specs.Columns.{colon, source_columns};
ghost use Rattle.gl_query.specs.Sources.{scope_of};
ghost use Rattle.gl_elaborate.specs.Plans.{stream_node, stream_number};
ghost use Rattle.gl_elaborate.specs.Sources.{read_of};

use gl_algebra::PlanNode;
use gl_bits::Memory;
use gl_query::Sources;
use gl_query::columns::kinds_of;
use gl_schema::{Column, Stream};
use std::alloc::Global;

// The number of the first stream with a name; the number of streams where there is none.
fn stream_number(streams: &[Stream], name: &[u8]) -> usize
    ensures value { result ≡ stream_number streams.now name.now }
    ensures bound { result ≤ length streams.now }
{
    let Some((first, others)) = streams.split_first() else {
        return 0;
    };
    if name == first.name.as_slice() {
        return 0;
    }
    1 + stream_number(others, name)
}

// The node of a stream.
fn stream_node(
    alloc: Global,
    streams: &[Stream],
    name: &[u8],
    columns: &[Column],
) -> Result<PlanNode, Memory>
    requires few { length streams.now ≤ 8 }
    requires columns { columns.now ≡ source_columns streams.now name.now }
    ensures { IfOk result (λ n. n ≡ stream_node streams.now name.now) }
{
    let kinds = kinds_of(alloc, columns)?;
    Ok(PlanNode::Stream(stream_number(streams, name) as u8, kinds))
}

/// The node of a source, whose columns these are; it is not that of the parameters.
#[tactic(auto, using(crate::proofs::PastLemmas::past_parameters))]
pub fn source_node(
    alloc: Global,
    sources: Sources<'_>,
    name: &[u8],
    columns: &[Column],
) -> Result<PlanNode, Memory>
    requires few { length (scope_of sources).sources ≤ 9 }
    requires other { bytes_eq name.now colon ≡ false }
    requires columns { columns.now ≡ source_columns (scope_of sources).sources name.now }
    ensures { IfOk result (λ n. n ≡ read_of sources.entry name.now) }
{
    match sources {
        Sources::Schema(streams, _) => stream_node(alloc, streams, name, columns),
        Sources::Variable(_, own, _) => Ok(PlanNode::Body(kinds_of(alloc, own)?)),
    }
}
