//! The law of windows of time at the root.

ghost use Rattle.gl_ticks.specs.Once.{TimesServeOnce};

/// Where ticks are far enough apart, the machine of windows of time serves one stream, whatever netlist it stands in.
pub fn times_serve_once()
    ensures { TimesServeOnce }
{}
