//! Laws of runs over beats: each function's contract is the law.

ghost use Rattle.std.specs.Prelude.{IsOk};
ghost use Rattle.gl_schema.specs.declared.schema.Schema.{Schema};
ghost use Rattle.gl_schema.specs.Schemas.{IsSchema};
ghost use Rattle.gl_verilog.specs.Module.{Module as Design};
ghost use Rattle.gl_verilog.specs.Valid.{IsValid};
ghost use Rattle.gl_verilog_ports.specs.Fit.{fit_of};
ghost use Rattle.gl_testbench.specs.Runs.{HasRunsOver, HasStartedRuns};

use gl_sim::laws::a_run_is_there;
use gl_verilog::laws::valid_modules_run;
use gl_verilog::orders::has_event_runs;

/// A valid module whose ports fit a schema has a run in some order of events over any beats of the schema, from any
/// registers and words, and from any start.
pub fn has_runs_over()
    ensures any { (m : Design) (schema : Schema) → IsValid m → IsSchema schema
        → IsOk (fit_of m schema) → HasRunsOver m schema }
    ensures started { (m : Design) (schema : Schema) → IsValid m → IsSchema schema
        → IsOk (fit_of m schema) → HasStartedRuns m schema }
{
    has_event_runs();
    valid_modules_run();
    a_run_is_there();
}
