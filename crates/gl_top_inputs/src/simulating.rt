//! Judging the texts of a simulation: behind the schema the Verilog text, and then the tuple file.

ghost use Rattle.std.specs.Prelude.{◌≡◌, IfErr, IfOk};
ghost use Rattle.gl_outside.specs.States.{Stays};
ghost use Rattle.gl_verilog.specs.View.{module_of};
ghost use Rattle.gl_top_forms.specs.declared.command.Command.TheVariants.{Sim};
ghost use Rattle.gl_top_forms.specs.Forms.{IsCommand};
ghost use Rattle.gl_top_inputs.specs.Causes.{IsModuleFaultOrMemory, Leaves};
ghost use Rattle.gl_top_inputs.specs.Passing.{ModulePasses, FilePasses, IsFitted, IsFittedText, IsTraceable};
ghost use Rattle.gl_top_status.specs.Texts.{SchemaPasses};

use crate::fit;
use crate::laws::port_faults_are_told;
use gl_outside::Shelf;
use gl_schema::Schema;
use gl_top_forms::{Part, Taken};
use gl_top_status::{Refusal, fetch, fetch_schema};
use gl_tuple_reader::read_tuples;
use gl_tuples::Beats;
use gl_verilog::Module;
use gl_verilog_ports::Ports;
use gl_verilog_reader::read_source;
use gl_verilog_tokens::VerilogFault;
use std::alloc::Global;

/// The module of a text that fits a schema.
#[derive(Drop)]
pub struct Fitted {
    /// The module.
    pub design: Module,
    /// Where the ports stand that belong to no stream and no column.
    pub ports: Ports,
}

/// What the three texts of a simulation give.
#[derive(Drop)]
pub struct Simulation {
    /// The schema.
    pub schema: Schema,
    /// The module.
    pub fitted: Fitted,
    /// The beats.
    pub beats: Beats,
}

// The module of a text, where it fits the schema.
fn fitted_of(alloc: Global, schema: &Schema, text: &[u8]) -> Result<Fitted, VerilogFault>
    ensures fitted { IfOk result (IsFittedText schema.now text.now) }
    ensures fault { IfErr result (IsModuleFaultOrMemory schema.now text.now) }
{
    port_faults_are_told();
    let source = read_source(alloc, text)?;
    let ports = fit(&source, schema)?;
    Ok(Fitted {
        design: source.design,
        ports,
    })
}

// Reads and judges the Verilog text.
fn judge_module<S: Shelf>(
    alloc: Global,
    shelf: &mut S,
    words: &Taken<'_>,
    schema: &Schema,
) -> Result<Fitted, Refusal>
    requires sims { IsCommand words.now Sim }
    requires passes { SchemaPasses (S.state shelf.old).told words.now schema.now }
    requires names { (S.state shelf.old).names ≡ words.now }
    ensures stays { Stays (S.state shelf.old) (S.state shelf.new) }
    ensures fitted { let told = (S.state shelf.old).told in
        IfOk result (IsFitted told words.now schema.now) }
    ensures leaves { Leaves words.now (S.state shelf.old) (S.state shelf.new) result }
{
    let text = fetch(alloc, shelf, words, Part::Module)?;
    Ok(fitted_of(alloc, schema, &text)?)
}

// Reads and judges the tuple file, of which no gap is asked.
fn judge_beats<S: Shelf>(
    alloc: Global,
    shelf: &mut S,
    words: &Taken<'_>,
    schema: &Schema,
    design: &Module,
) -> Result<Beats, Refusal>
    requires passes { let told = (S.state shelf.old).told in
        ModulePasses told words.now schema.now (module_of design.now) }
    requires names { (S.state shelf.old).names ≡ words.now }
    ensures passes { let told = (S.state shelf.old).told in
        IfOk result (FilePasses told words.now schema.now (module_of design.now)) }
    ensures leaves { Leaves words.now (S.state shelf.old) (S.state shelf.new) result }
{
    let text = fetch(alloc, shelf, words, Part::Tuples)?;
    Ok(read_tuples(alloc, schema, &text)?)
}

// Judges the tuple file, behind the schema and the Verilog text.
fn judge_behind_module<S: Shelf>(
    alloc: Global,
    shelf: &mut S,
    words: &Taken<'_>,
    schema: Schema,
    fitted: Fitted,
) -> Result<Simulation, Refusal>
    requires fitted { IsFitted (S.state shelf.old).told words.now schema fitted }
    requires names { (S.state shelf.old).names ≡ words.now }
    ensures ready { IfOk result (IsTraceable (S.state shelf.old).told words.now) }
    ensures leaves { Leaves words.now (S.state shelf.old) (S.state shelf.new) result }
{
    let beats = judge_beats(alloc, shelf, words, &schema, &fitted.design)?;
    Ok(Simulation {
        schema,
        fitted,
        beats,
    })
}

// Judges the Verilog text and the tuple file, behind the schema.
fn judge_behind_schema<S: Shelf>(
    alloc: Global,
    shelf: &mut S,
    words: &Taken<'_>,
    schema: Schema,
) -> Result<Simulation, Refusal>
    requires sims { IsCommand words.now Sim }
    requires passes { SchemaPasses (S.state shelf.old).told words.now schema }
    requires names { (S.state shelf.old).names ≡ words.now }
    ensures ready { IfOk result (IsTraceable (S.state shelf.old).told words.now) }
    ensures leaves { Leaves words.now (S.state shelf.old) (S.state shelf.new) result }
{
    let fitted = judge_module(alloc, shelf, words, &schema)?;
    judge_behind_module(alloc, shelf, words, schema, fitted)
}

/// Judges the three texts of `sim S V T`.
pub fn judge_sim<S: Shelf>(
    alloc: Global,
    shelf: &mut S,
    words: &Taken<'_>,
) -> Result<Simulation, Refusal>
    requires sims { IsCommand words.now Sim }
    requires names { (S.state shelf.old).names ≡ words.now }
    ensures ready { IfOk result (IsTraceable (S.state shelf.old).told words.now) }
    ensures leaves { Leaves words.now (S.state shelf.old) (S.state shelf.new) result }
{
    let schema = fetch_schema(alloc, shelf, words)?;
    judge_behind_schema(alloc, shelf, words, schema)
}
