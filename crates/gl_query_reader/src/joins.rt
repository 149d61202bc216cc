//! What stands between two queries, as it is written.

ghost use Rattle.std.specs.Prelude.{◌≡◌};
ghost use Rattle.gl_query_reader.specs.Joins as joins;

use gl_query_tokens::{Join, Spelling};

/// What stands between two queries.
#[derive(Clone, Copy, Debug)]
pub enum Joining {
    /// UNION
    Union,
    /// UNION BY ARRIVAL
    Arrival {
        /// The place of BY.
        by_at: u64,
        /// How ARRIVAL is spelled.
        word: Spelling,
    },
    /// CONCAT
    Concat,
}

/// What a keyword between two queries stands for, as far as nothing follows it.
pub fn joining_of(join: Join) -> Joining
    ensures { result ≡ joins.joining_of join }
{
    match join {
        Join::Union => Joining::Union,
        Join::Concat => Joining::Concat,
    }
}
