//! Laws of runs and of valid modules: each function's contract is the law.

ghost use Rattle.gl_verilog.specs.Module.{Module as Design};
ghost use Rattle.gl_verilog.specs.Runnable.{IsRunnable, SettlesOneWay, SettlesSomeWay, RunsAgree, RunsAreCausal, HasRuns, KeepsStart};
ghost use Rattle.gl_verilog.specs.Valid.{IsValid};

/// Given its inputs, registers and words, a cycle settles in one way at most.
pub fn settles_one_way()
    ensures { (m : Design) → IsRunnable m → SettlesOneWay m }
{}

/// Each cycle settles, whatever its inputs, registers and words.
pub fn settles_some_way()
    ensures { (m : Design) → IsRunnable m → SettlesSomeWay m }
{}

/// Two runs with the same start are the same as long as their inputs are.
pub fn runs_are_causal()
    ensures { (m : Design) → IsRunnable m → RunsAreCausal m }
{}

/// Two runs with the same start and the same inputs are the same, but for the clock.
pub fn runs_agree()
    ensures { (m : Design) → IsRunnable m → RunsAgree m }
{}

/// There is a run from any start and any inputs.
pub fn has_runs()
    ensures { (m : Design) → IsRunnable m → HasRuns m }
{}

/// A register that no block assigns keeps its start.
pub fn keeps_start()
    ensures { (m : Design) → KeepsStart m }
{}

/// The assignments of a valid module can be put in an order, so that it runs from any start and any
/// inputs.
pub fn valid_modules_run()
    ensures { (m : Design) → IsValid m → IsRunnable m }
{}
