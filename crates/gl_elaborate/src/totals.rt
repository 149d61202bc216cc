//! The nodes of totals.

ghost use Rattle.std.specs.Prelude.{◌≡◌, ◌<◌, ◌^◌, ◌++◌, ◌∷◌, [], length, map, IfOk, OnOk};
ghost use Rattle.std.specs.List.{AllByRecursion};
ghost use Rattle.gl_values.specs.Kinds.{IsKind, width_of};
ghost use Rattle.gl_schema.specs.Schemas.{kinds_of};
ghost use Rattle.gl_query.specs.declared.tree.Num.{Num};
ghost use Rattle.gl_query.specs.Shapes.{agg_item_shape, agg_shape, expr_shape, AggItemShape};
ghost use Rattle.gl_query.specs.Values.{HasKind, IsNumberOf, kind_alone};
ghost use Rattle.gl_query.specs.Columns.{agg_kind};
ghost use Rattle.gl_query.specs.Accepted.{IsAgg};
ghost use Rattle.gl_algebra.specs.Added.{placed_at};
ghost use Rattle.gl_elaborate.specs.Terms.{term_over, IsTerm};
ghost use Rattle.gl_elaborate.specs.Trees.{term};
ghost use Rattle.gl_elaborate.specs.Plans.{agg_over, aggs_of, arguments_of, arguments_of_all, behind, first_of, rest_of, totals_over, weights_of, Keeps};
ghost use Rattle.gl_elaborate.specs.Fitting.{CanPlaceTotal, HasReach, TotalsFit};

use crate::levels::{levelled, put};
use crate::rows::Below;
use crate::{Tree, operand_of, tree_of};
use gl_algebra::{Operand, Plan, PlanAgg, PlanAggs, PlanId, PlanNode, Weights};
use gl_bits::{Listed, Memory, Word};
use gl_query::kinds::{kind_alone, kind_of};
use gl_query::{Agg, AggItem, Expr, Num};
use gl_schema::Column;
use gl_values::Kind;
use std::alloc::Global;

// Adds the tree of an expression.
pub(crate) fn push_tree(
    alloc: Global,
    columns: &[Column],
    reach: &[Column],
    expr: &Expr,
    trees: &mut Vec<Tree>,
) -> Result<(), Memory>
    requires typed { HasKind reach.now (kind_alone (expr_shape expr.now)) (expr_shape expr.now) }
    requires fits { let e = expr_shape expr.now in
        IsTerm (kinds_of columns.now) (term_over columns.now reach.now (kind_alone e) e) }
    requires most { length columns.now < 65536 }
    requires near { HasReach columns.now reach.now }
    ensures { let e = expr_shape expr.now in OnOk result
        (map term trees.new.items ≡ map term trees.old.items
        ++ term_over columns.now reach.now (kind_alone e) e ∷ []) }
{
    trees.push(tree_of(alloc, columns, reach, kind_alone(expr), expr)?)?;
    Ok(())
}

// Adds the tree of an aggregate's argument, where it has one.
fn push_argument(
    alloc: Global,
    columns: &[Column],
    reach: &[Column],
    agg: &Agg,
    trees: &mut Vec<Tree>,
) -> Result<(), Memory>
    requires typed { IsAgg reach.now (agg_shape agg.now) }
    requires fits { AllByRecursion (IsTerm (kinds_of columns.now))
        (arguments_of columns.now reach.now (agg_shape agg.now)) }
    requires most { length columns.now < 65536 }
    requires near { HasReach columns.now reach.now }
    ensures { OnOk result
        (map term trees.new.items ≡ map term trees.old.items
        ++ arguments_of columns.now reach.now (agg_shape agg.now)) }
{
    match agg {
        Agg::Count { .. } => Ok(()),
        Agg::Sum(expr) => push_tree(alloc, columns, reach, expr, trees),
        Agg::Min(expr) => push_tree(alloc, columns, reach, expr, trees),
        Agg::Max(expr) => push_tree(alloc, columns, reach, expr, trees),
        Agg::Avg(expr) => push_tree(alloc, columns, reach, expr, trees),
        Agg::Wsum { arg, .. } => push_tree(alloc, columns, reach, arg, trees),
    }
}

// Adds the trees of aggregates' arguments.
#[tactic(auto, using(crate::proofs::ArgumentLemmas::argument_steps))]
fn push_arguments(
    alloc: Global,
    columns: &[Column],
    reach: &[Column],
    items: &[AggItem],
    trees: &mut Vec<Tree>,
) -> Result<(), Memory>
    requires typed { AllByRecursion (λ (i : AggItemShape). IsAgg reach.now i.agg)
        (map agg_item_shape items.now) }
    requires fits { AllByRecursion (IsTerm (kinds_of columns.now))
        (arguments_of_all columns.now reach.now (map agg_item_shape items.now)) }
    requires most { length columns.now < 65536 }
    requires near { HasReach columns.now reach.now }
    ensures { OnOk result
        (map term trees.new.items ≡ map term trees.old.items
        ++ arguments_of_all columns.now reach.now (map agg_item_shape items.now)) }
{
    let Some((first, rest)) = items.split_first() else {
        return Ok(());
    };
    push_argument(alloc, columns, reach, &first.agg, trees)?;
    push_arguments(alloc, columns, reach, rest, trees)
}

// The first tree as an operand.
pub(crate) fn first_of(trees: &[Tree]) -> Operand
    ensures { result ≡ first_of (map term trees.now) }
{
    match trees.split_first() {
        Some((first, _)) => operand_of(first),
        None => Operand::Column(0),
    }
}

// The trees behind the first.
pub(crate) fn rest_of(trees: &[Tree]) -> &[Tree]
    ensures { map term result.now ≡ rest_of (map term trees.now) }
{
    match trees.split_first() {
        Some((_, rest)) => rest,
        None => trees,
    }
}

/// A number as a word of a kind.
pub fn word_of(kind: Kind, bits: u128) -> Word
    requires kind { IsKind kind }
    requires fits { bits < 2 ^ width_of kind }
    ensures { result ≡ record { bits = bits; width = width_of kind } }
{
    match Word::new(bits, kind.width()) {
        Some(word) => word,
        None => unreachable!(),
    }
}

// Adds the weights as words of a kind.
#[tactic(auto, using(crate::proofs::TotalsLemmas::number_fits))]
fn push_weights(kind: Kind, weights: &[Num], words: &mut Weights) -> Result<(), Memory>
    requires kind { IsKind kind }
    requires fit { AllByRecursion (IsNumberOf kind) (map (λ (n : Num). n.value) weights.now) }
    ensures { OnOk result
        (words.new ≡ words.old ++ weights_of kind (map (λ (n : Num). n.value) weights.now)) }
{
    let Some((first, rest)) = weights.split_first() else {
        return Ok(());
    };
    words.push(word_of(kind, first.value))?;
    push_weights(kind, rest, words)
}

// The weights as words of a kind.
fn weights_of(alloc: Global, kind: Kind, weights: &[Num]) -> Result<Weights, Memory>
    requires kind { IsKind kind }
    requires fit { AllByRecursion (IsNumberOf kind) (map (λ (n : Num). n.value) weights.now) }
    ensures { IfOk result (λ words.
        words ≡ weights_of kind (map (λ (n : Num). n.value) weights.now)) }
{
    let mut words = Listed::new(alloc);
    push_weights(kind, weights, &mut words)?;
    Ok(words)
}

// An aggregate over the first of the trees that are left of the arguments.
fn agg_over(alloc: Global, reach: &[Column], agg: &Agg, trees: &[Tree]) -> Result<PlanAgg, Memory>
    requires typed { IsAgg reach.now (agg_shape agg.now) }
    requires kind { IsKind (agg_kind reach.now (agg_shape agg.now)) }
    ensures { IfOk result (λ a.
        a ≡ agg_over reach.now (agg_shape agg.now) (map term trees.now)) }
{
    match agg {
        Agg::Count { .. } => Ok(PlanAgg::Count),
        Agg::Sum(_) => Ok(PlanAgg::Sum(first_of(trees))),
        Agg::Min(_) => Ok(PlanAgg::Min(first_of(trees))),
        Agg::Max(_) => Ok(PlanAgg::Max(first_of(trees))),
        Agg::Avg(_) => Ok(PlanAgg::Avg(first_of(trees))),
        Agg::Wsum { arg, weights } => {
            let kind = kind_of(reach, kind_alone(arg), arg);
            let words = weights_of(alloc, kind, weights.as_slice())?;
            Ok(PlanAgg::Wsum(first_of(trees), words))
        }
    }
}

// The trees behind those of an aggregate.
fn behind<'a>(agg: &Agg, trees: &'a [Tree]) -> &'a [Tree]
    ensures { map term result.now ≡ behind (agg_shape agg.now) (map term trees.now) }
{
    match agg {
        Agg::Count { .. } => trees,
        Agg::Sum(_) | Agg::Min(_) | Agg::Max(_) | Agg::Avg(_) | Agg::Wsum { .. } => rest_of(trees),
    }
}

// Adds aggregates over the trees of their arguments.
fn push_aggs(
    alloc: Global,
    reach: &[Column],
    items: &[AggItem],
    trees: &[Tree],
    aggs: &mut PlanAggs,
) -> Result<(), Memory>
    requires typed { AllByRecursion (λ (i : AggItemShape). IsAgg reach.now i.agg)
        (map agg_item_shape items.now) }
    requires kinds { AllByRecursion (λ (i : AggItemShape). IsKind (agg_kind reach.now i.agg))
        (map agg_item_shape items.now) }
    ensures { OnOk result
        (aggs.new ≡ aggs.old
        ++ aggs_of reach.now (map agg_item_shape items.now) (map term trees.now)) }
{
    let _holds = Operand::Column(0);
    let Some((first, rest)) = items.split_first() else {
        return Ok(());
    };
    aggs.push(agg_over(alloc, reach, &first.agg, trees)?)?;
    push_aggs(alloc, reach, rest, behind(&first.agg, trees), aggs)
}

/// Adds the nodes of a total over a node.
pub fn totals_over(
    alloc: Global,
    plan: &mut Plan,
    below: Below<'_>,
    reach: &[Column],
    items: &[AggItem],
) -> Result<PlanId, Memory>
    requires can { CanPlaceTotal below.columns.now reach.now (map agg_item_shape items.now) }
    requires fit { TotalsFit below.columns.now reach.now
        (map agg_item_shape items.now) (placed_at plan.old below.at) }
    ensures root { let b = below.entry in IfOk result (λ id.
        placed_at plan.new id
        ≡ totals_over b.columns.now reach.now
        (map agg_item_shape items.now) (placed_at plan.old b.at)) }
    ensures keeps { Keeps plan.old plan.new }
{
    let mut trees = Vec::new(alloc);
    push_arguments(alloc, below.columns, reach, items, &mut trees)?;
    let mut none: Option<Tree> = None;
    let base = below.columns.len() as u16;
    let over = levelled(alloc, plan, below.at, base, &mut trees, &mut none)?;
    let mut aggs = Listed::new(alloc);
    push_aggs(alloc, reach, items, &trees, &mut aggs)?;
    put(plan, PlanNode::Aggregate { child: over, aggs })
}
