//! Compiling several queries.

ghost use Rattle.std.specs.Prelude.{◌≡◌, List, [], IfErr, IfOk};
ghost use Rattle.std.specs.List.{AllByRecursion};
ghost use Rattle.gl_schema.specs.Schemas.{IsSchema};
ghost use Rattle.gl_query.specs.declared.tree.Statement.{Statement as Stated};
ghost use Rattle.gl_elaborate.specs.Plans.{plans_of};
ghost use Rattle.gl_plan.specs.Together.{statements_of, ArePlanned, IsCheckedOver, PassOr};
ghost use Rattle.gl_compiler.specs.Queries.{IfRefused};
ghost use Rattle.gl_many.specs.Compiles.{planned_gaps, AreCompiled};
ghost use Rattle.gl_many.specs.Meets.{MeetTogether, shared_gaps};
ghost use Rattle.gl_many.specs.Queries.{AreQueries, AreRefused, TellsCausesOfAll};
ghost use Rattle.gl_many.specs.Roots.{CanStand};

use crate::below::laws_below;
use crate::rooting::roots_of;
use gl_bits::Memory;
use gl_compiler::CompileFault;
use gl_elaborate::laws::{plans_are_right, plans_tell_time, several_are_right};
use gl_figures::reach_laws::once_is_less;
use gl_gaps::Gaps;
use gl_labels::{Figured, Subject, labels_of};
use gl_net::Netlist;
use gl_plan::{PlanFault, PlannedSeveral, plan_several};
use gl_query::laws::{accepted_have_real_columns, trees_are_alike};
use gl_query_check::Checked;
use gl_query_texts::list_laws::statements_are_listed;
use gl_query_texts::{Statements, read_statements};
use gl_schema::Schema;
use gl_testbench::emit;
use gl_verilog::laws::{runs_are_causal, valid_modules_run};
use gl_verilog::orders::event_runs_are_runs;
use gl_verilog_ports::laws::inputs_are_ports;
use gl_verilog_writer::Labels;
use gl_wiring::wire_roots;
use std::alloc::Global;

/// Several queries that were compiled: the text of their module, and what it was made of.
#[derive(Drop)]
pub struct Many {
    text: Vec<u8>,
    schema: Schema,
    statements: Statements,
    planned: PlannedSeveral,
}

impl Many {
    /// The text of the module.
    pub fn text(&self) -> &[u8]
        ensures { result.now ≡ self.now.text.items }
    {
        &self.text
    }

    /// The schema.
    pub fn schema(&self) -> &Schema
        ensures { result.now ≡ self.now.schema }
    {
        &self.schema
    }

    /// The statements, in order, each with the schema over which it was checked.
    pub fn statements(&self) -> &[Checked]
        ensures { result.now ≡ self.now.statements }
    {
        self.statements.as_slice()
    }

    /// Their joint plan, with the latency of each statement and how far apart beats and ticks are for them all.
    pub fn planned(&self) -> &PlannedSeveral
        ensures { result.now ≡ self.now.planned }
    {
        &self.planned
    }

    /// How far apart beats and ticks are to be for them all.
    pub fn gaps(&self) -> Gaps
        ensures { result ≡ planned_gaps self.now }
    {
        Gaps::new(self.planned.gap, self.planned.ticks)
    }
}

// The labels of the netlist of a joint plan.
fn labels_for(
    alloc: Global,
    schema: &Schema,
    statements: &[Checked],
    planned: &PlannedSeveral,
    net: &Netlist,
) -> Result<Labels, Memory> {
    let subject = Subject {
        schema,
        statements,
        plan: &planned.plan,
        roots: &planned.roots,
        figured: Figured::Together(&planned.latencies, planned.gap, planned.ticks),
    };
    labels_of(alloc, net, subject)
}

// The text of the module of several statements, by their joint plan.
fn text_of(
    alloc: Global,
    schema: &Schema,
    statements: &[Checked],
    planned: &PlannedSeveral,
) -> Result<Vec<u8>, Memory>
    requires can { CanStand schema.now (statements_of statements.now) }
    requires planned { ArePlanned schema.now (statements_of statements.now) planned.now }
    ensures { let asked = statements_of statements.now in IfOk result (λ text.
        MeetTogether schema.now asked (shared_gaps schema.now asked) text.items) }
{
    accepted_have_real_columns();
    once_is_less();
    plans_are_right();
    plans_tell_time();
    several_are_right();
    event_runs_are_runs();
    inputs_are_ports();
    runs_are_causal();
    valid_modules_run();
    let roots = roots_of(alloc, schema, statements, &planned.roots)?;
    let net = wire_roots(alloc, schema, &planned.plan, &planned.figures, &roots)?;
    let labels = labels_for(alloc, schema, statements, planned, &net)?;
    let made = emit(alloc, &net, &labels)?;
    Ok(made.text)
}

// What several statements are compiled to: their joint plan, and the text of their module.
fn built(
    alloc: Global,
    schema: &Schema,
    statements: &[Checked],
) -> Result<(PlannedSeveral, Vec<u8>), PlanFault>
    requires can { CanStand schema.now (statements_of statements.now) }
    requires checked { AllByRecursion (IsCheckedOver schema.now) statements.now }
    ensures planned { let asked = statements_of statements.now in
        IfOk result (λ made. ArePlanned schema.now asked made.0) }
    ensures meets { let asked = statements_of statements.now in IfOk result (λ made.
        MeetTogether schema.now asked (shared_gaps schema.now asked) made.1.items) }
    ensures fault { let asked = statements_of statements.now in
        IfErr result (PassOr (plans_of [] schema.now asked)) }
{
    let planned = plan_several(alloc, schema, statements)?;
    let text = text_of(alloc, schema, statements, &planned)?;
    Ok((planned, text))
}

/// Compiles the text of several queries over a schema.
///
/// `Query` is the first fault of the text, from the left, at its place in the whole of it, and comes
/// exactly where it has one; `Limit` comes exactly where all its statements are accepted and their joint
/// plan passes this limit.
pub fn compile_many(alloc: Global, schema: Schema, queries: &[u8]) -> Result<Many, CompileFault>
    requires { IsSchema schema }
    ensures compiled { IfOk result (AreCompiled schema queries.now) }
    ensures cause { IfErr result (AreRefused schema queries.now) }
    ensures refused { IfErr result (λ fault. IfRefused fault ((statements : List Stated)
        → AreQueries schema queries.now statements → ⊥)) }
    ensures told { TellsCausesOfAll schema queries.now result }
{
    accepted_have_real_columns();
    laws_below();
    plans_are_right();
    plans_tell_time();
    several_are_right();
    statements_are_listed();
    trees_are_alike();
    let statements = read_statements(alloc, &schema, queries)?;
    let (planned, text) = built(alloc, &schema, statements.as_slice())?;
    Ok(Many {
        text,
        schema,
        statements,
        planned,
    })
}
