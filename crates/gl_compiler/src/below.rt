//! What is cited here of the crates below.

ghost use Rattle.gl_compiler.specs.Below.{LawsBelow};

use gl_plan::laws::plans_pass_one_limit;
use gl_query_reader::laws::texts_have_one_verdict;
use gl_query_texts::laws::texts_have_one_fault;

/// The laws by which a text is refused in one way at most.
pub fn laws_below()
    ensures { LawsBelow }
{
    texts_have_one_verdict();
    texts_have_one_fault();
    plans_pass_one_limit();
}
