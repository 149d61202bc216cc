//! Laws of event orders: each function's contract is the law.

ghost use Rattle.gl_verilog.specs.Module.{Module as Design};
ghost use Rattle.gl_verilog.specs.Valid.{IsValid};
ghost use Rattle.gl_verilog.specs.Laws.{ComesToRest, CyclesAreTwoPhase, Ends, EventRunsAreRuns, HasEventRuns, HasEventRunsOf, RunsAreSeen};
ghost use Rattle.gl_verilog.specs.Races.{Races, twice_assigned};

use crate::laws::{runs_agree, valid_modules_run};

/// Every list of steps can be continued to rest, and none goes on for ever.
pub fn comes_to_rest()
    ensures continued { (m : Design) → IsValid m → ComesToRest m }
    ensures ends { (m : Design) → IsValid m → Ends m }
{}

/// Every schedule of a cycle that rests is the two-phase cycle.
pub fn cycles_are_two_phase()
    ensures { (m : Design) → IsValid m → CyclesAreTwoPhase m }
{}

/// Every run in any order of events is a two-phase run.
pub fn event_runs_are_runs()
    ensures runs { (m : Design) → IsValid m → EventRunsAreRuns m }
    ensures seen { (m : Design) → IsValid m → RunsAreSeen m }
{
    valid_modules_run();
    runs_agree();
}

/// There is a run in some order of events from any start and any inputs.
pub fn has_event_runs()
    ensures any { (m : Design) → IsValid m → HasEventRunsOf m }
    ensures same { (m : Design) → IsValid m → HasEventRuns m }
{}

/// A register that two blocks assign takes a value by the order of events: a race. So no valid
/// module has one.
pub fn two_blocks_race()
    ensures { Races twice_assigned }
{}
