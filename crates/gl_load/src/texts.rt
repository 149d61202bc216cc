//! The texts of the load.

ghost use Rattle.std.specs.Prelude.{◌≡◌};
ghost use Rattle.gl_load.specs.Query as spec;

/// The text of the schema.
#[tactic(auto, unfolding(crate::specs::Query::schema_text))]
pub fn schema_text() -> &'static [u8]
    ensures { result.now ≡ spec.schema_text }
{
    b"stream trades (symbol text4, price u32, volume u32);"
}

/// The text of the query.
#[tactic(auto, unfolding(crate::specs::Query::query_text))]
pub fn query_text() -> &'static [u8]
    ensures { result.now ≡ spec.query_text }
{
    b"SELECT count() AS n, sum(volume) AS v, max(price) AS top FROM trades [SIZE 600 ADVANCE 60 TUPLES] WHERE symbol = 'UBSN' INTO load"
}
