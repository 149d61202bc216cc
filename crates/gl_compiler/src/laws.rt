//! Laws of texts that meet a statement: the contract of a function says one; it does nothing.

ghost use Rattle.gl_compiler.specs.Dumpable.{DumpsTell};

use gl_query::laws::accepted_have_real_columns;
use gl_vcd::laws::dumps_read_back;
use gl_verilog_grammar::laws::one_module;

/// What is dumped of a run of a text that meets a statement is a dump of that run, and shows its
/// lines, all values in decimal, where the last beat's cycle and the latency are together below 2^26.
pub fn dumps_tell()
    ensures { DumpsTell }
{
    accepted_have_real_columns();
    one_module();
    dumps_read_back();
}
