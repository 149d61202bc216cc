//! What circuits of a plan's nodes are put with.

ghost use Rattle.std.specs.Prelude.{◌≡◌, ◌<◌, length};
ghost use Rattle.gl_algebra.specs.FigureTable.{AreSmall, figures_of};
ghost use Rattle.gl_algebra.specs.Fits.{IsPlan};
ghost use Rattle.gl_algebra.specs.Small.{AreFigures};
ghost use Rattle.gl_wiring.specs.Sites.{Figures-prop, IsPlan-prop};

use gl_algebra::{Figures, Plan, PlanId};
use gl_net::{Bit, Bus};
use gl_wire::Wire;
use std::alloc::Global;

/// What circuits of a plan's nodes are put with: the plan, the figures of its nodes, the wires of its leaves, and the buses of the parameters.
#[derive(Clone, Copy)]
pub struct Site<'a> {
    /// Where lists of buses are made.
    pub alloc: Global,
    /// The plan.
    pub plan: &'a Plan,
    /// The figures of all its nodes, as `gl_figures` writes them.
    pub figures: &'a [Figures],
    /// The line of ticks, where there is one.
    pub tick: Option<Bit>,
    /// The wires of the streams, by the streams' numbers, or that of a body's input alone.
    pub leaves: &'a [Wire],
    /// The buses of the parameters, in the order of their numbers.
    pub words: &'a [Bus],
    pub ghost planned: { IsPlan plan.now } by { IsPlan-prop plan.now },
    pub ghost figured: { AreFigures plan.now figures.now } by { Figures-prop plan.now figures.now },
}

// The same figures, each of which fits its 32 bits.
fn small_figures(figures: Figures) -> Figures
    ensures value { result ≡ figures }
    ensures small { AreSmall result }
{
    figures
}

impl Site<'_> {
    /// The figures of a node.
    pub(crate) fn figures_at(self, id: PlanId) -> Figures
        requires { id < length self.plan.now }
        ensures value { let s = self.entry in result ≡ figures_of s.plan.now id }
        ensures small { AreSmall result }
    {
        small_figures(self.figures[id.number()])
    }
}
