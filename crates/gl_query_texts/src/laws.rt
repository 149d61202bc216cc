//! Laws of the texts of queries. The contract of each function is the law; it does nothing.

ghost use Rattle.gl_query_texts.specs.Judged.{AcceptedTextsHaveColumns, TextsHaveOneFault};

use gl_query::laws::{accepted_have_real_columns, first_faults_are_exact};
use gl_query_reader::laws::texts_have_one_verdict;

/// Over a schema the text of a query has at most one fault, at one place; and where it has one, it has
/// no statement that is accepted.
pub fn texts_have_one_fault()
    ensures { TextsHaveOneFault }
{
    first_faults_are_exact();
    texts_have_one_verdict();
}

/// The result of an accepted statement that a text has has 1 to 32 columns, no two of one name, of
/// kinds that are kinds.
pub fn accepted_texts_have_columns()
    ensures { AcceptedTextsHaveColumns }
{
    accepted_have_real_columns();
}
