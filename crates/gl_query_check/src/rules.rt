//! Rules, each a test and the fault where it fails.

ghost use Rattle.std.specs.Prelude.{◌≡◌, nat_lt, bytes_eq};
ghost use Rattle.std.specs.List.{list_all, list_any};
ghost use Rattle.gl_schema.specs.Schemas.{column_names, has_column, has_stream, kinds_of};
ghost use Rattle.gl_query.specs.Accepted.{can_read};
ghost use Rattle.gl_query.specs.Faults as faults;
ghost use Rattle.gl_query.specs.Sources.{scope_of};
ghost use Rattle.gl_query.specs.Values as values;
ghost use Rattle.gl_query_check.specs.Answers.{Refuses};

use gl_query::{QueryFault, Sources};
use gl_schema::{Column, Stream};
use gl_values::Kind;

/// The first of two faults, where there is one.
pub fn or_else(first: Option<QueryFault>, second: Option<QueryFault>) -> Option<QueryFault>
    ensures { result ≡ faults.or_else first second }
{
    match first {
        None => second,
        Some(fault) => {
            drop(second);
            Some(fault)
        }
    }
}

/// A fault where a rule is broken.
pub fn unless(holds: bool, fault: QueryFault) -> Option<QueryFault>
    ensures { result ≡ faults.unless holds fault }
{
    if holds {
        drop(fault);
        None
    } else {
        Some(fault)
    }
}

/// Goes on where there is no fault.
pub fn refuse(fault: Option<QueryFault>) -> Result<(), QueryFault>
    ensures { Refuses fault result }
{
    match fault {
        None => Ok(()),
        Some(fault) => Err(fault),
    }
}

/// Whether columns have the same kinds.
pub fn same_kinds(left: &[Column], right: &[Column]) -> bool
    ensures { result ≡ faults.same_kinds (kinds_of left.now) (kinds_of right.now) }
{
    match (left.split_first(), right.split_first()) {
        (None, None) => true,
        (Some((first, lefts)), Some((second, rights))) => {
            first.kind == second.kind && same_kinds(lefts, rights)
        }
        (None, Some(_)) | (Some(_), None) => false,
    }
}

/// Whether a kind is one bit.
pub fn is_bit(kind: Kind) -> bool
    ensures { result ≡ faults.is_bit kind }
{
    kind == Kind::Unsigned(1)
}

/// Whether a number is from 1 to the most.
pub fn is_within(number: u128, most: u128) -> bool
    ensures { result ≡ faults.is_within number most }
{
    1 <= number && number <= most
}

// Whether all bytes are bytes, which they are.
fn are_bytes(text: &[u8]) -> bool
    ensures { result ≡ list_all (λ b. nat_lt b 256) text.now }
{
    match text.split_first() {
        None => true,
        Some((first, rest)) => u16::from(*first) < 256 && are_bytes(rest),
    }
}

/// Whether a text has at most as many bytes as a kind.
pub fn letters_fit(kind: Kind, text: &[u8]) -> bool
    ensures { result ≡ values.letters_fit kind text.now }
{
    text.len() <= usize::from(kind.bytes()) && are_bytes(text)
}

/// Whether a column has a name.
#[tactic(auto, unfolding(gl_schema::specs::Schemas::has_column))]
pub fn has_column(columns: &[Column], name: &[u8]) -> bool
    ensures { result ≡ has_column columns.now name.now }
{
    match columns.split_first() {
        None => false,
        Some((first, rest)) => name == first.name.as_slice() || has_column(rest, name),
    }
}

// Whether a stream has a name.
#[tactic(auto, unfolding(gl_schema::specs::Schemas::has_stream))]
fn has_stream(streams: &[Stream], name: &[u8]) -> bool
    ensures { result ≡ has_stream streams.now name.now }
{
    match streams.split_first() {
        None => false,
        Some((first, rest)) => name == first.name.as_slice() || has_stream(rest, name),
    }
}

/// Whether a source that can be read has a name.
#[tactic(auto, unfolding(gl_schema::specs::Schemas::has_stream), using(crate::proofs::Testing::one_source))]
pub fn has_source(sources: Sources<'_>, name: &[u8]) -> bool
    ensures { result ≡ can_read (scope_of sources.entry).sources name.now }
{
    if name == b":".as_slice() {
        return false;
    }
    match sources {
        Sources::Schema(streams, _) => has_stream(streams, name),
        Sources::Variable(var, _, _) => name == var,
    }
}

/// Whether a column has the name that is asked for.
pub fn is_among(name: &[u8], columns: &[Column]) -> bool
    ensures { result ≡ list_any (bytes_eq name.now) (column_names columns.now) }
{
    match columns.split_first() {
        None => false,
        Some((first, rest)) => name == first.name.as_slice() || is_among(name, rest),
    }
}

/// Whether no two columns have one name.
pub fn are_distinct(columns: &[Column]) -> bool
    ensures { result ≡ faults.are_distinct (column_names columns.now) }
{
    match columns.split_first() {
        None => true,
        Some((first, rest)) => !is_among(first.name.as_slice(), rest) && are_distinct(rest),
    }
}
