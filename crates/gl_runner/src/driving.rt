//! Driving a module through the cycles of a file, and writing what they show.

ghost use Rattle.std.specs.Prelude.{◌≡◌, ◌+◌, ◌<◌, ◌≤◌, ◌^◌, map, option_map, IfOk};
ghost use Rattle.gl_schema.specs.Beats.{beat_at, last_cycle};
ghost use Rattle.gl_tuples.specs.Gaps.{plain_beat, plain_beats, plain_list};
ghost use Rattle.gl_verilog.specs.Runnable.{inputs_of};
ghost use Rattle.gl_verilog.specs.View.{module_of};
ghost use Rattle.gl_testbench.specs.Carried.{pin_at};
ghost use Rattle.gl_testbench.specs.Dues.{AreDue};
ghost use Rattle.gl_runner.specs.Cycles.{Advances, CanDrive, IsAhead, IsStarted, design_of};
ghost use Rattle.gl_runner.specs.Watches.{OfDrivenPorts, StandsFirst, Watched};

use crate::tracing::Ending;
use crate::watching::{Made, Watch};
use gl_bits::Memory;
use gl_outside::Sink;
use gl_schema::Schema;
use gl_sim::Sim;
use gl_sim::room::{ports_of, zeros};
use gl_testbench::{Pin, pins_at, set_beat, set_reset};
use gl_tuples::{BeatView, Beats};
use gl_verilog::laws::valid_modules_run;
use gl_verilog::orders::event_runs_are_runs;
use gl_verilog::{Module, Start};
use std::alloc::Global;
use std::marker::Model;

/// What a module is driven over, from where, and how far.
#[derive(Clone, Copy)]
pub struct Task<'a> {
    /// The schema of the beats.
    pub schema: &'a Schema,
    /// The beats.
    pub beats: &'a Beats,
    /// What registers and memories hold at first.
    pub start: Start,
    /// The cycles behind the last beat's in which the end is waited for.
    pub extra: u64,
}

/// A module that is driven over the beats of a file, behind its reset, and what stands around it.
///
/// In clauses it is seen as its simulator, what it is driven over, and which cycle of the file comes
/// next.
#[derive(Drop)]
pub(crate) struct Drive<'a> {
    task: Task<'a>,
    sim: Sim,
    // What each input carries, and what it is set to.
    pins: Vec<Pin>,
    values: Vec<u128>,
    // The cycle that comes next, and the place of the next beat.
    cycle: u64,
    next: usize,
}

impl<'a> Model for Drive<'a> {
    ghost use Rattle.std.specs.Coded.{codes};
    ghost use Rattle.gl_tuples.specs.Gaps.{plain_beats};
    ghost use Rattle.gl_verilog.specs.contracts.module.Expr as e;
    ghost use Rattle.gl_verilog.specs.contracts.module.Statement as st;
    ghost use Rattle.gl_runner.specs.Cycles.{Driven, IsSetUp};

    ghost Value = { Driven };

    ghost coded = { Prim.hlevel (codes, e.the_row.coded, st.the_row.coded) };

    ghost view = { λ d. record {
      sim = d.sim;
      schema = d.task.schema.now;
      beats = plain_beats d.task.beats.now;
      extra = d.task.extra;
      cycle = d.cycle;
    } };

    ghost invariant = { λ d. IsSetUp d.sim d.task.schema.now (plain_beats d.task.beats.now)
        d.task.extra d.pins.items d.values.items d.cycle d.next };
}

// What each input port of this module but the clock carries.
fn pins_of(alloc: Global, schema: &Schema, design: &Module) -> Result<Vec<Pin>, Memory>
    ensures { let m = module_of design.now in
        IfOk result (λ v. v.items ≡ map (pin_at schema.now m.declarations) (inputs_of m)) }
{
    let declarations = design.declarations.as_slice();
    let ports = ports_of(alloc, declarations)?;
    pins_at(alloc, schema, declarations, &ports)
}

// The place behind one, in a ring of `many`.
fn behind(place: usize, many: usize) -> usize
    requires { place < many }
    ensures { result ≡ place + 1 }
{
    // Clauses alone speak of it.
    let _ = many;
    place + 1
}

// The beat of this cycle, and the place behind it.
fn due<'a>(beats: &'a Beats, next: &mut usize, cycle: u64) -> Option<BeatView<'a>>
    requires { AreDue (plain_list beats.now.list) next.old cycle }
    ensures beat { option_map plain_beat result
        ≡ beat_at (plain_list beats.now.list) cycle }
    ensures due { AreDue (plain_list beats.now.list) next.new (cycle + 1) }
{
    let Some(beat) = beats.get(*next) else {
        return None;
    };
    if u64::from(beat.cycle()) != cycle {
        return None;
    }
    *next = behind(*next, beats.len());
    Some(beat)
}

fn cycle_of(beat: &BeatView<'_>) -> u64
    ensures cycle { result ≡ beat.now.cycle }
    ensures early { result ≤ 2 ^ 32 }
{
    u64::from(beat.cycle())
}

/// The cycle of the last beat.
pub(crate) fn last_of(beats: &Beats) -> u64
    ensures cycle { result ≡ last_cycle (plain_beats beats.now) }
    ensures early { result ≤ 2 ^ 32 }
{
    match beats.get(beats.len().saturating_sub(1)) {
        Some(beat) => cycle_of(&beat),
        None => 0,
    }
}

impl<'a> Drive<'a> {
    // Takes all the memory that it needs, and makes the cycle of the reset.
    pub(crate) fn new(alloc: Global, design: Module, task: Task<'a>) -> Result<Drive<'a>, Memory>
        requires can { CanDrive (module_of design) task.schema.now (plain_beats task.beats.now) }
        requires short { task.extra ≤ 2 ^ 32 }
        ensures { let t = task.entry in
            IfOk result (IsStarted (module_of design) t.schema.now
            (plain_beats t.beats.now) t.start t.extra) }
    {
        valid_modules_run();
        event_runs_are_runs();
        let pins = pins_of(alloc, task.schema, &design)?;
        let mut values = zeros(alloc, pins.len())?;
        let mut sim = Sim::new(alloc, design, task.start)?;
        let inputs = values.as_mut_slice();
        set_reset(&pins, task.beats.sets(), inputs);
        sim.step(inputs);
        Ok(Drive {
            task,
            sim,
            pins,
            values,
            cycle: 0,
            next: 0,
        })
    }

    /// The module that is driven.
    pub(crate) fn design(&self) -> &Module
        ensures { result.now ≡ self.now.sim.design }
    {
        self.sim.design()
    }

    // The cycle of the last beat, and the last one in which the end is waited for.
    fn bounds(&self) -> (u64, u64)
        ensures last { result.0 ≡ last_cycle self.now.beats }
        ensures far { result.1 ≡ last_cycle self.now.beats + self.now.extra }
        ensures early { result.1 ≤ 2 ^ 33 }
    {
        let last = last_of(self.task.beats);
        (last, last + self.task.extra)
    }

    // Makes the next cycle.
    fn advance(&mut self)
        requires { self.old.cycle < 2 ^ 63 }
        ensures ahead { IsAhead self.old self.new }
        ensures made { Advances self.old self.new }
    {
        let beat = due(self.task.beats, &mut self.next, self.cycle);
        let values = self.values.as_mut_slice();
        set_beat(&self.pins, self.task.beats.sets(), beat.as_ref(), values);
        self.sim.step(values);
        self.cycle += 1;
    }

    /// Makes the cycles of the file up to the end, or to the last that is waited for, each of which
    /// is watched.
    ///
    /// In the first cycle the module was reset. Behind it comes a cycle for each cycle of the file,
    /// to the first one from the last beat's on behind which the watcher waits for nothing more.
    pub(crate) fn follow<W: Watch, K: Sink>(&mut self, watch: &mut W, out: &mut K) -> Ending
        requires first { self.old.cycle ≡ 0 }
        requires serves { W.serves watch.old (design_of self.old) }
        requires stands { StandsFirst (W.stands watch.old) self.old }
        ensures { let d = self.old in
            Watched (OfDrivenPorts d) (W.bytes watch.old) (W.ends watch.old) (W.stands watch.new)
            d.beats d.extra (K.state out.old) (K.state out.new) result }
    {
        let (last, far) = self.bounds();
        for cycle in 0..far + 1 {
            self.advance();
            let made = Made {
                cycle,
                sim: &self.sim,
            };
            if watch.cycle(&made, out).is_err() {
                return Ending::WriteFault;
            }
            if watch.is_over() && cycle >= last {
                return Ending::Done;
            }
        }
        Ending::NoEnd { cycle: far }
    }
}
