//! Laws of texts: each function's contract is the law.

ghost use Rattle.std.specs.Prelude.{◌≡◌, ℕ, List};
ghost use Rattle.gl_verilog.specs.Module.{Module};
ghost use Rattle.gl_verilog.specs.Text.{HasModule};
ghost use Rattle.gl_verilog_faults.specs.Faults.{Verdict, IsVerdict};

/// A text has at most one module.
pub fn one_module()
    ensures { (text : List ℕ) (m n : Module) → HasModule text m → HasModule text n → m ≡ n }
{}

/// A text has exactly one of a module and a fault at a place.
pub fn one_verdict()
    ensures one { (text : List ℕ) → (v : Verdict) × IsVerdict text v }
    ensures only { (text : List ℕ) (v w : Verdict) → IsVerdict text v → IsVerdict text w → v ≡ w }
{}
