//! A checked statement, explained.

ghost use Rattle.std.specs.Prelude.{◌≡◌, ◌<◌, length, IfErr, IfOk};
ghost use Rattle.gl_query.specs.Checked.{IsChecked};
ghost use Rattle.gl_algebra.specs.Added.{placed_at};
ghost use Rattle.gl_algebra.specs.Roots.{spare_at};
ghost use Rattle.gl_algebra.specs.Small.{AreFigures};
ghost use Rattle.gl_elaborate.specs.Plans.{plan_of};
ghost use Rattle.gl_plan.specs.Planned.{PassesOr};
ghost use Rattle.gl_explain.specs.Explained.{IsExplained};
ghost use Rattle.gl_explain.specs.Lines.{plan_text};

use crate::lines::{put, put_lines, put_root, put_spare, put_ticks};
use gl_algebra::{Figures, Plan, PlanId, Spare};
use gl_bits::Memory;
use gl_figures::root_ticks;
use gl_plan::{PlanFault, plan_statement};
use gl_query_check::Checked;
use gl_query_printer::print_statement;
use std::alloc::Global;

// The text of a statement and its plan.
fn text_of(
    alloc: Global,
    checked: &Checked,
    plan: &Plan,
    root: PlanId,
    own: &[Figures],
    spare: Option<Spare>,
) -> Result<Vec<u8>, Memory>
    requires figures { AreFigures plan.now own.now }
    requires root { root < length plan.now }
    requires spare { spare ≡ spare_at plan.now root }
    ensures { IfOk result (λ v.
        v.items ≡ plan_text checked.now.schema checked.now.statement (placed_at plan.now root)) }
{
    let mut text = Vec::new(alloc);
    print_statement(alloc, &checked.statement, &mut text)?;
    put(&mut text, b"\n")?;
    put_lines(&mut text, &checked.schema, plan, own)?;
    put_root(&mut text, root)?;
    put_spare(&mut text, spare)?;
    put_ticks(&mut text, root_ticks(plan, root, own))?;
    Ok(text)
}

/// What is explained of a checked statement: its canonical text, a line for each node of its plan, the
/// root, and the root's spare copies, or the gaps of its ticks, where it has some.
///
/// A limit comes exactly where the plan passes it.
pub fn explain(alloc: Global, checked: &Checked) -> Result<Vec<u8>, PlanFault>
    requires { IsChecked checked.now.schema checked.now.statement }
    ensures explained { IfOk result (λ v.
        IsExplained checked.now.schema checked.now.statement v.items) }
    ensures fault { IfErr result (PassesOr (plan_of checked.now.schema checked.now.statement)) }
{
    let planned = plan_statement(alloc, checked)?;
    Ok(text_of(
        alloc,
        checked,
        &planned.plan,
        planned.root,
        &planned.figures,
        planned.spare,
    )?)
}
