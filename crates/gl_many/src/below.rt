//! What is cited here of the crates below.

ghost use Rattle.gl_many.specs.Below.{LawsBelow};

use gl_plan::several_laws::several_pass_one_limit;
use gl_query_texts::list_laws::texts_have_one_verdict;

/// The laws by which a text of several queries is refused in one way at most.
pub fn laws_below()
    ensures { LawsBelow }
{
    texts_have_one_verdict();
    several_pass_one_limit();
}
