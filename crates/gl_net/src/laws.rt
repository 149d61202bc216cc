//! Laws of netlists, each as the clause of a function that does nothing.

ghost use Rattle.gl_net.specs.Laws.{EarlierValuesStay, KeepsCompose};

/// Blocks that leave what was there as it was do so one after another.
#[tactic(auto, using(crate::proofs::Determined::keeps_then))]
pub fn blocks_follow_one_another()
    ensures { KeepsCompose }
{}

/// Appending a block that drives just the registers and memories that it makes changes in no run
/// the value of a node that was there before it.
pub fn earlier_values_stay()
    ensures { EarlierValuesStay }
{}
