//! Laws about the ports of a module.

ghost use Rattle.std.specs.Prelude.{◌≡◌, ℕ, true};
ghost use Rattle.std.specs.List.{AllZip};
ghost use Rattle.gl_schema.specs.declared.schema.Schema as types;
ghost use Rattle.gl_schema.specs.Beats as beats;
ghost use Rattle.gl_schema.specs.Ports.{pins, pin_names};
ghost use Rattle.gl_schema.specs.Profile.{input_ports, port_names, CanCarry};

/// What beats put on the inputs of a module goes by the profile: in every cycle there is one value
/// for each input port but the clock, the tick and the parameters among them, in their order, and
/// it has the port's bits.
pub fn pins_go_by_the_profile()
    ensures names { (schema : types.Schema) (all : beats.Beats) (t : ℕ)
        → pin_names (pins schema all t) ≡ port_names (input_ports true schema) }
    ensures values { (schema : types.Schema) (all : beats.Beats) (t : ℕ)
        → beats.AreBeats schema all → AllZip CanCarry (input_ports true schema) (pins schema all t) }
{}
