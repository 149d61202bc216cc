//! The paces of queries, and which queries have rows that each come of one row that came.

ghost use Rattle.std.specs.Prelude.{◌≡◌, ◌&&◌, option_map};
ghost use Rattle.gl_query.specs.Alike.{query_alike};
ghost use Rattle.gl_query.specs.Columns as columns;
ghost use Rattle.gl_query.specs.Faults as faults;
ghost use Rattle.gl_query.specs.Trees.{query_tree};
ghost use Rattle.gl_query_check.specs.Paces.{pace};

use gl_query::Query;

/// How many rows a query gives: one, or one for each row of a source.
#[derive(Clone, Copy)]
pub enum Pace<'a> {
    /// One row.
    Once,
    /// One row for each row of the source of this name.
    Step(&'a [u8]),
}

/// The pace of a query, where it has one.
pub fn pace_of(query: &Query) -> Option<Pace<'_>>
    ensures { option_map pace result ≡ columns.pace_of (query_alike (query_tree query.now)) }
{
    match query {
        Query::Read(name) => Some(Pace::Step(name.text.as_slice())),
        Query::Rows { filter, source, .. } => match filter {
            None => pace_of(source),
            Some(_) => None,
        },
        Query::Total { .. } => Some(Pace::Once),
        Query::Frames {
            filter,
            slots,
            source,
            ..
        } => match filter {
            None => match slots {
                None => pace_of(source),
                Some(_) => None,
            },
            Some(_) => None,
        },
        Query::Each { .. }
        | Query::EachTime { .. }
        | Query::PerGroup { .. }
        | Query::Partition { .. }
        | Query::Union { .. }
        | Query::ByArrival { .. }
        | Query::AsOf { .. } => None,
        Query::Concat { left, .. } => pace_of(left),
    }
}

/// Whether two paces are one.
pub fn same_pace(left: Option<Pace<'_>>, right: Option<Pace<'_>>) -> bool
    ensures { result ≡ faults.same_pace (option_map pace left.entry) (option_map pace right.entry) }
{
    match (left, right) {
        (Some(Pace::Once), Some(Pace::Once)) => true,
        (Some(Pace::Step(a)), Some(Pace::Step(b))) => a == b,
        _ => false,
    }
}

// Whether each row of a query comes of one row that came.
fn arrives(query: &Query) -> bool
    ensures { result ≡ columns.arrives (query_alike (query_tree query.now)) }
{
    match query {
        Query::Read(_) => true,
        Query::Rows { source, .. } => arrives(source),
        Query::Total { .. } => false,
        Query::Frames { source, .. } => arrives(source),
        Query::Each { .. }
        | Query::EachTime { .. }
        | Query::PerGroup { .. }
        | Query::Partition { .. }
        | Query::Union { .. } => false,
        Query::ByArrival { .. } | Query::AsOf { .. } => true,
        Query::Concat { .. } => false,
    }
}

/// Whether each row of two queries comes of one row that came.
pub fn both_arrive(left: &Query, right: &Query) -> bool
    ensures { result ≡ (columns.arrives (query_alike (query_tree left.now))
        && columns.arrives (query_alike (query_tree right.now))) }
{
    arrives(left) && arrives(right)
}
