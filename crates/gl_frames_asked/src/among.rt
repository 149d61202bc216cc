//! Kinds and items over the columns that are asked for alone.

ghost use Rattle.std.specs.Prelude.{◌≡◌, ◌≤◌, IfOk, map};
ghost use Rattle.gl_frames_asked.specs.Among.{is_among, pick_kinds, place_among, renumber, renumber_agg, renumber_condition, renumber_operand};

use gl_algebra::columns::kind_of_column;
use gl_algebra::{Operand, PlanFrame, PlanFrameAgg};
use gl_bits::Memory;
use gl_values::Kind;
use std::alloc::Global;

// Whether a column is among some.
fn is_among(asked: &[usize], column: usize) -> bool
    ensures { result ≡ is_among asked.now column }
{
    asked.iter().any(|own| column == *own)
}

/// The place of a column among those that are asked for: how many of the columns below it are.
#[tactic(auto, using(crate::proofs::BelowLemmas::count_next))]
pub fn place_among(asked: &[usize], column: u16) -> u16
    ensures place { result ≡ place_among asked.now column }
    ensures most { result ≤ column }
{
    let mut place = 0;
    for below in 0..column {
        if is_among(asked, usize::from(below)) {
            place += 1;
        }
    }
    place
}

// An operand over these columns alone.
fn renumber_operand(asked: &[usize], operand: &Operand) -> Operand
    ensures { result ≡ renumber_operand asked.now operand.now }
{
    match operand {
        Operand::Column(column) => Operand::Column(place_among(asked, *column)),
        Operand::Literal(word, kind) => Operand::Literal(*word, *kind),
        Operand::Parameter(number, kind) => Operand::Parameter(*number, *kind),
    }
}

// A function over these columns alone.
fn renumber_agg(asked: &[usize], agg: &PlanFrameAgg) -> PlanFrameAgg
    ensures { result ≡ renumber_agg asked.now agg.now }
{
    match agg {
        PlanFrameAgg::Count => PlanFrameAgg::Count,
        PlanFrameAgg::Sum(operand) => PlanFrameAgg::Sum(renumber_operand(asked, operand)),
        PlanFrameAgg::Min(operand) => PlanFrameAgg::Min(renumber_operand(asked, operand)),
        PlanFrameAgg::Max(operand) => PlanFrameAgg::Max(renumber_operand(asked, operand)),
        PlanFrameAgg::Avg(operand) => PlanFrameAgg::Avg(renumber_operand(asked, operand)),
        PlanFrameAgg::LastValue(operand) => {
            PlanFrameAgg::LastValue(renumber_operand(asked, operand))
        }
    }
}

// A condition over these columns alone.
fn renumber_condition(asked: &[usize], filter: Option<u16>) -> Option<u16>
    ensures { result ≡ renumber_condition asked.now filter }
{
    match filter {
        None => None,
        Some(column) => Some(place_among(asked, column)),
    }
}

// An item over these columns alone.
fn renumber(asked: &[usize], item: &PlanFrame) -> PlanFrame
    ensures { result ≡ renumber asked.now item.now }
{
    match item {
        PlanFrame::Own(operand) => PlanFrame::Own(renumber_operand(asked, operand)),
        PlanFrame::Lag(operand, back) => PlanFrame::Lag(renumber_operand(asked, operand), *back),
        PlanFrame::Over { agg, filter, back } => PlanFrame::Over {
            agg: renumber_agg(asked, agg),
            filter: renumber_condition(asked, *filter),
            back: *back,
        },
    }
}

/// The items over these columns alone.
pub fn asked_items(
    alloc: Global,
    asked: &[usize],
    items: &[PlanFrame],
) -> Result<Vec<PlanFrame>, Memory>
    ensures { IfOk result (λ made. made.items ≡ map (renumber asked.now) items.now) }
{
    let mut made = Vec::new(alloc);
    for item in items {
        made.push(renumber(asked, item))?;
    }
    Ok(made)
}

/// The kinds of these columns.
pub fn asked_kinds(alloc: Global, asked: &[usize], kinds: &[Kind]) -> Result<Vec<Kind>, Memory>
    ensures { IfOk result (λ picked. picked.items ≡ pick_kinds asked.now kinds.now) }
{
    let mut picked = Vec::new(alloc);
    for column in asked {
        picked.push(kind_of_column(kinds, *column))?;
    }
    Ok(picked)
}
