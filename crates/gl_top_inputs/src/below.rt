//! What is cited of the crates below, here and by the program.

ghost use Rattle.gl_top_inputs.specs.Below.{LawsBelow};

use gl_compiler::below as query;
use gl_many::below as queries;
use gl_verilog_grammar::laws::one_verdict;

/// The laws by which each text of a command is refused in one way at most.
pub fn laws_below()
    ensures { LawsBelow }
{
    query::laws_below();
    queries::laws_below();
    one_verdict();
}
