//! Laws about the runs of a module over beats, and about the names of its ports.

ghost use Rattle.std.specs.Prelude.{ℕ};
ghost use Rattle.gl_schema.specs.declared.schema.Schema.{Schema};
ghost use Rattle.gl_schema.specs.Beats.{Beats};
ghost use Rattle.gl_schema.specs.Ports.{IsStimulus};
ghost use Rattle.gl_verilog.specs.Module.{Module, Nets};
ghost use Rattle.gl_verilog.specs.Run.{input_values};
ghost use Rattle.gl_verilog_ports.specs.Profile.{HasOnlyClock};
ghost use Rattle.gl_testbench.specs.Views.{WorkedViews};

/// Beats are put on inputs alone: every run of a module with no input but the clock is one over any
/// beats, whatever its outputs are called.
pub fn outputs_bind_nothing()
    ensures { (m : Module) (schema : Schema) (beats : Beats) (value : ℕ → Nets)
        → HasOnlyClock m → IsStimulus schema beats (input_values m value) }
{}

/// Worked names of ports: of each the definition says what was worked out by hand.
pub fn worked_views()
    ensures { WorkedViews }
{}
