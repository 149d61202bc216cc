//! Compiling a statement.

ghost use Rattle.std.specs.Prelude.{◌≡◌, IfOk, MatchResult};
ghost use Rattle.gl_schema.specs.Schemas.{kinds_of};
ghost use Rattle.gl_query.specs.Checked.{IsChecked};
ghost use Rattle.gl_query.specs.Names.{StatementHasNames};
ghost use Rattle.gl_query.specs.Shapes.{statement_shape};
ghost use Rattle.gl_elaborate.specs.Plans.{plan_of};
ghost use Rattle.gl_plan.specs.Planned.{IsPlanned, PassesOr};
ghost use Rattle.gl_compiler.specs.Meets.{Meets, result_columns};
ghost use Rattle.gl_compiler.specs.Built.{latency_of, gaps_of, printed_gaps};
ghost use Rattle.gl_compiler.specs.Compiles.{HasCost, IsCompiled};

use crate::naming::{result_columns, result_names};
use crate::text_laws::gaps_are_no_farther;
use gl_algebra::{Figures, Plan, PlanId};
use gl_bits::{Listed, Memory};
use gl_elaborate::laws::{plans_are_right, plans_tell_time, roots_are_right};
use gl_figures::Printed;
use gl_gaps::Gaps;
use gl_labels::{Figured, Subject, labels_of};
use gl_net::{Cost, Netlist};
use gl_plan::{PlanFault, Planned, plan_statement};
use gl_query::Statement;
use gl_query::columns::kinds_of;
use gl_query::laws::accepted_have_real_columns;
use gl_query_check::Checked;
use gl_schema::{Column, Schema};
use gl_testbench::{Emitted, emit};
use gl_values::Kind;
use gl_verilog::laws::{runs_are_causal, valid_modules_run};
use gl_verilog::orders::event_runs_are_runs;
use gl_verilog_ports::laws::inputs_are_ports;
use gl_verilog_writer::Labels;
use gl_wiring::{Root, wire_plan};
use std::alloc::Global;
use std::slice::from_ref;

/// A compiled query: the text of its module, its figures and its cost, and what it was made of.
#[derive(Drop)]
pub struct Compiled {
    text: Vec<u8>,
    printed: Printed,
    cost: Cost,
    schema: Schema,
    statement: Statement,
    kinds: Listed<Kind>,
    plan: Plan,
    root: PlanId,
    figures: Vec<Figures>,
}

impl Compiled {
    /// The text of the module.
    pub fn text(&self) -> &[u8]
        ensures { result.now ≡ self.now.text.items }
    {
        &self.text
    }

    /// Latency, gap and copies.
    pub fn printed(&self) -> Printed
        ensures { result ≡ self.now.printed }
    {
        self.printed
    }

    /// How far apart beats are to be.
    pub fn gaps(&self) -> Gaps
        ensures { result ≡ printed_gaps self.now.printed }
    {
        Gaps::new(self.printed.gap, self.printed.ticks)
    }

    /// The bits of registers and of memories that the text declares.
    pub fn cost(&self) -> Cost
        ensures { result ≡ self.now.cost }
    {
        self.cost
    }

    /// The nodes of the statement's plan.
    pub fn plan(&self) -> &Plan
        ensures { result.now ≡ self.now.plan }
    {
        &self.plan
    }

    /// The node of the whole statement.
    pub fn root(&self) -> PlanId
        ensures { result ≡ self.now.root }
    {
        self.root
    }

    /// The figures of each node, in cycles and tuples.
    pub fn figures(&self) -> &[Figures]
        ensures { result.now ≡ self.now.figures.items }
    {
        &self.figures
    }

    /// The schema.
    pub fn schema(&self) -> &Schema
        ensures { result.now ≡ self.now.schema }
    {
        &self.schema
    }

    /// The statement.
    pub fn statement(&self) -> &Statement
        ensures { result.now ≡ self.now.statement }
    {
        &self.statement
    }

    /// The kinds of the result's columns, in order.
    pub fn kinds(&self) -> &[Kind]
        ensures { result.now ≡ self.now.kinds }
    {
        self.kinds.as_slice()
    }
}

// The labels of the netlist of a plan.
fn labels_for(
    alloc: Global,
    checked: &Checked,
    planned: &Planned,
    net: &Netlist,
) -> Result<Labels, Memory> {
    let subject = Subject {
        schema: &checked.schema,
        statements: from_ref(checked),
        plan: &planned.plan,
        roots: from_ref(&planned.root),
        figured: Figured::Alone(&planned.figures, planned.printed, planned.spare),
    };
    labels_of(alloc, net, subject)
}

// The text of the module of a plan.
fn text_of(
    alloc: Global,
    checked: &Checked,
    planned: &Planned,
    columns: &[Column],
) -> Result<Emitted, Memory>
    requires checked { IsChecked checked.now.schema checked.now.statement }
    requires names { StatementHasNames (statement_shape checked.now.statement) }
    requires planned { IsPlanned checked.now.schema checked.now.statement planned.now }
    requires columns { columns.now
        ≡ result_columns checked.now.schema checked.now.statement }
    ensures meets { let s = checked.now.schema in let q = checked.now.statement in
        IfOk result (λ made. Meets s q (latency_of s q) (gaps_of s q) made.text.items) }
    ensures cost { IfOk result (λ made. HasCost checked.now.schema checked.now.statement
        made.text.items made.cost) }
{
    accepted_have_real_columns();
    plans_are_right();
    plans_tell_time();
    roots_are_right();
    event_runs_are_runs();
    inputs_are_ports();
    runs_are_causal();
    valid_modules_run();
    let names = result_names(alloc, &checked.statement, columns)?;
    let root = Root {
        id: planned.root,
        names,
    };
    let net = wire_plan(
        alloc,
        &checked.schema,
        &planned.plan,
        &planned.figures,
        &root,
        planned.spare,
    )?;
    let labels = labels_for(alloc, checked, planned, &net)?;
    let made = emit(alloc, &net, &labels)?;
    Ok(made)
}

// What a statement is compiled to: the text of its module, and the kinds of its columns.
fn built(
    alloc: Global,
    checked: &Checked,
    planned: &Planned,
) -> Result<(Emitted, Listed<Kind>), Memory>
    requires checked { IsChecked checked.now.schema checked.now.statement }
    requires names { StatementHasNames (statement_shape checked.now.statement) }
    requires planned { IsPlanned checked.now.schema checked.now.statement planned.now }
    ensures meets { let s = checked.now.schema in let q = checked.now.statement in
        IfOk result (λ made. Meets s q (latency_of s q) (gaps_of s q) made.0.text.items) }
    ensures cost { IfOk result (λ made. HasCost checked.now.schema checked.now.statement
        made.0.text.items made.0.cost) }
    ensures kinds { IfOk result (λ made.
        made.1 ≡ kinds_of (result_columns checked.now.schema checked.now.statement)) }
{
    let columns = result_columns(alloc, &checked.schema, &checked.statement)?;
    let text = text_of(alloc, checked, planned, columns.as_slice())?;
    let kinds = kinds_of(alloc, columns.as_slice())?;
    Ok((text, kinds))
}

/// Compiles a checked statement whose names are names. `Limit` comes exactly where its plan passes this limit.
pub fn compile_checked(alloc: Global, checked: Checked) -> Result<Compiled, PlanFault>
    requires checked { IsChecked checked.schema checked.statement }
    requires names { StatementHasNames (statement_shape checked.statement) }
    ensures { let at = plan_of checked.schema checked.statement in
        MatchResult result (IsCompiled checked.schema checked.statement) (PassesOr at) }
{
    plans_are_right();
    roots_are_right();
    gaps_are_no_farther();
    let planned = plan_statement(alloc, &checked)?;
    let (made, kinds) = built(alloc, &checked, &planned)?;
    let Checked { schema, statement } = checked;
    Ok(Compiled {
        text: made.text,
        printed: planned.printed,
        cost: made.cost,
        schema,
        statement,
        kinds,
        plan: planned.plan,
        root: planned.root,
        figures: planned.figures,
    })
}
