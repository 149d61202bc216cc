//! Laws of ports: each function's contract is the law.

ghost use Rattle.std.specs.Prelude.{ℕ, List};
ghost use Rattle.gl_verilog.specs.Module.{Module as Design};
ghost use Rattle.gl_verilog.specs.Text.{HasModule};
ghost use Rattle.gl_verilog_ports.specs.Profile.{HasInputPorts};
ghost use Rattle.gl_verilog_ports.specs.Worked.{WorkedPorts};

/// In the module of a text each input is a port.
pub fn inputs_are_ports()
    ensures { (text : List ℕ) (m : Design) → HasModule text m → HasInputPorts m }
{}

/// Worked headers: of each the definition says what was worked out by hand.
pub fn worked_ports()
    ensures { WorkedPorts }
{}
