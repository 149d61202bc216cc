//! The accepted statement of a text, or the text's first fault.

ghost use Rattle.std.specs.Prelude.{◌≡◌, IfErr, IfOk};
ghost use Rattle.gl_schema.specs.Schemas.{IsSchema};
ghost use Rattle.gl_query.specs.Checked.{IsChecked};
ghost use Rattle.gl_query_texts.specs.Judged.{IsAcceptedText, IsFaultOrMemory};

use gl_query::QueryFault;
use gl_query_check::{Checked, check};
use gl_query_reader::read_query;
use gl_schema::Schema;
use std::alloc::Global;

/// The statement of a query's text over a schema, where the text has one and it is accepted.
///
/// Else the first fault: what reading finds in the text and, where the text has a statement, the
/// first rule of acceptance that it breaks. `Memory` alone may come in place of either.
pub fn judge_query(alloc: Global, schema: &Schema, query: &[u8]) -> Result<Checked, QueryFault>
    requires { IsSchema schema.now }
    ensures schema { IfOk result (λ c. c.schema ≡ schema.now) }
    ensures accepted { IfOk result (λ c. IsAcceptedText schema.now query.now c.statement) }
    ensures checked { IfOk result (λ c. IsChecked c.schema c.statement) }
    ensures fault { IfErr result (IsFaultOrMemory schema.now query.now) }
{
    match read_query(alloc, query) {
        Ok(statement) => check(alloc, schema, statement),
        Err(fault) => Err(fault),
    }
}
