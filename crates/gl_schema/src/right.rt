//! Laws about right runs.

ghost use Rattle.std.specs.Prelude.{ℕ, ◌+◌, ◌≤◌, List, Bool};
ghost use Rattle.gl_schema.specs.Beats as beats;
ghost use Rattle.gl_schema.specs.Ports.{PortValues};
ghost use Rattle.gl_schema.specs.Right.{IsTold, IsRight, IsRightTo};

/// A right run is right at each cycle from the latency after the last beat on: in the cycles that
/// were seen by then the end came once, and the rows are a result, whatever test tells results. Of
/// the two only this direction is needed: who sees the cycles up to one of those sees a result.
pub fn right_at_each_cycle()
    ensures { (test : beats.Inputs → List (List ℕ) → Bool → Bool) (latency : ℕ)
        (all : beats.Beats) (outs : List (List ℕ)) (port : PortValues) (n : ℕ)
        → beats.last_cycle all + latency ≤ n
        → IsRight (IsTold test) latency all outs port
        → IsRightTo (IsTold test) latency all outs port n }
{}
