//! Laws of simulated runs: each function's contract is the law.

ghost use Rattle.std.specs.Prelude.{ℕ, List};
ghost use Rattle.gl_verilog.specs.Module.{Module as Design};
ghost use Rattle.gl_verilog.specs.Runnable.{IsRunnable, FitInputs};
ghost use Rattle.gl_verilog.specs.declared.start.Start.{Start as Begin};
ghost use Rattle.gl_sim.specs.Starts.{RunsWith};

use gl_verilog::laws::has_runs;

/// There is a run from any start with any inputs that fit: the one that a simulator follows.
pub fn a_run_is_there()
    ensures { (m : Design) (start : Begin) (rows : ℕ → List ℕ) → IsRunnable m
        → ((t : ℕ) → FitInputs m (rows t)) → RunsWith start m rows }
{
    has_runs();
}
