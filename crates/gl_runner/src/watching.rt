//! What is written of the cycles of a run.

ghost use Rattle.std.specs.Prelude.{◌≡◌, ◌+◌, ◌<◌, ◌^◌, ℕ, Bool, List, OnOk};
ghost use Rattle.gl_outside.specs.States.{Counts, Wrote};
ghost use Rattle.gl_schema.specs.Ports.{PortValues};
ghost use Rattle.gl_verilog.specs.Module.{Module};
ghost use Rattle.gl_runner.specs.Watches.{IsMadeOf, module_in};

use gl_outside::{Sink, WriteFault};
use gl_sim::Sim;

/// A cycle of a file that was made: its number, and the simulator.
#[derive(Clone, Copy)]
pub(crate) struct Made<'a> {
    pub cycle: u64,
    pub sim: &'a Sim,
}

/// What writes the cycles of a run, one behind the other.
pub(crate) trait Watch {
    // What is written of a cycle of the file, by the values of a module's ports in a run.
    ghost bytes: { Self → Module → PortValues → ℕ → List ℕ };

    // Whether nothing more is waited for behind a cycle.
    ghost ends: { Self → Module → PortValues → ℕ → Bool };

    // The cycles of a run in front of this one were watched.
    ghost stands: { Self → Module → PortValues → ℕ → Type 0 };

    // It is made for runs of this module.
    ghost serves: { Self → Module → Type 0 };

    /// Writes a cycle. Takes no memory.
    fn cycle<K: Sink>(&mut self, made: &Made<'_>, out: &mut K) -> Result<(), WriteFault>
        requires early { made.now.cycle < 2 ^ 63 }
        requires serves { serves self.old (module_in made.now) }
        ensures bytes { bytes self.new ≡ bytes self.old }
        ensures ends { ends self.new ≡ ends self.old }
        ensures serves { OnOk result (serves self.new (module_in made.now)) }
        ensures counts { Counts (K.state out.old) (K.state out.new) result }
        ensures wrote { (port : PortValues) → IsMadeOf made.now port
            → stands self.old (module_in made.now) port made.now.cycle
            → Wrote (K.state out.old) (K.state out.new)
            (bytes self.old (module_in made.now) port made.now.cycle) result }
        ensures stands { (port : PortValues) → IsMadeOf made.now port
            → stands self.old (module_in made.now) port made.now.cycle
            → OnOk result (stands self.new (module_in made.now) port (made.now.cycle + 1)) };

    /// Whether nothing more is waited for behind the last cycle.
    fn is_over(&self) -> bool
        ensures { (m : Module) (port : PortValues) (n : ℕ) → stands self.now m port (n + 1)
            → result ≡ ends self.now m port n };
}
