//! Laws of faults of ports: each function's contract is the law.

ghost use Rattle.gl_top_inputs.specs.Laws.{PortFaultsAreTold};

/// Where a module of a text does not fit, the fault is told at the token that shows it.
pub fn port_faults_are_told()
    ensures { PortFaultsAreTold }
{}
