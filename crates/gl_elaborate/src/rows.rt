//! The nodes of selects.

ghost use Rattle.std.specs.Prelude.{◌≡◌, ◌+◌, ◌<◌, ◌++◌, length, map, option_map, IfOk, OnOk};
ghost use Rattle.std.specs.List.{AllByRecursion, range_with_len};
ghost use Rattle.gl_schema.specs.Schemas.{kinds_of};
ghost use Rattle.gl_query.specs.Shapes.{expr_shape, item_shape, pick_shape, ItemShape};
ghost use Rattle.gl_query.specs.Shapes as shape;
ghost use Rattle.gl_query.specs.Values.{HasKind, kind_alone};
ghost use Rattle.gl_query.specs.Accepted.{IsFilter, IsPick};
ghost use Rattle.gl_algebra.specs.Added.{placed_at};
ghost use Rattle.gl_elaborate.specs.Terms.{IsTerm, Column as TermColumn};
ghost use Rattle.gl_elaborate.specs.Levels.{operand_of};
ghost use Rattle.gl_elaborate.specs.Trees.{term};
ghost use Rattle.gl_elaborate.specs.Plans.{column_under, condition_of, filter_of, picked_terms, projected, rows_over, selected, Keeps};
ghost use Rattle.gl_elaborate.specs.Fitting.{CanPlaceRows, FilterTerm, HasReach, ProjectFits, RowsFit, SelectFits};

use crate::levels::{levelled, put};
use crate::{Tree, operand_of, tree_of};
use gl_algebra::{Operand, Operands, Plan, PlanId, PlanNode};
use gl_bits::{Listed, Memory};
use gl_query::kinds::kind_alone;
use gl_query::{Expr, Item, Pick};
use gl_schema::Column;
use gl_values::Kind;
use std::alloc::Global;

/// A node that others are put over, and its columns.
#[derive(Clone, Copy)]
pub struct Below<'a> {
    /// The number of the node.
    pub at: PlanId,
    /// The columns.
    pub columns: &'a [Column],
}

// Adds the trees of items.
fn push_items(
    alloc: Global,
    columns: &[Column],
    reach: &[Column],
    items: &[Item],
    trees: &mut Vec<Tree>,
) -> Result<(), Memory>
    requires typed { AllByRecursion
        (λ (i : ItemShape). HasKind reach.now (kind_alone i.expr) i.expr)
        (map item_shape items.now) }
    requires fits { AllByRecursion (IsTerm (kinds_of columns.now))
        (picked_terms columns.now reach.now (shape.Items (map item_shape items.now))) }
    requires most { length columns.now < 65536 }
    requires near { HasReach columns.now reach.now }
    ensures { OnOk result
        (map term trees.new.items ≡ map term trees.old.items
        ++ picked_terms columns.now reach.now (shape.Items (map item_shape items.now))) }
{
    let Some((first, rest)) = items.split_first() else {
        return Ok(());
    };
    let tree = tree_of(alloc, columns, reach, kind_alone(&first.expr), &first.expr)?;
    trees.push(tree)?;
    push_items(alloc, columns, reach, rest, trees)
}

// The trees of columns.
fn column_trees(alloc: Global, columns: usize) -> Result<Vec<Tree>, Memory>
    requires { columns < 65536 }
    ensures { IfOk result (λ trees.
        map term trees.items ≡ map TermColumn (range_with_len 0 columns)) }
{
    let mut trees = Vec::new(alloc);
    for number in 0..columns {
        trees.push(Tree::Column(number as u16))?;
    }
    Ok(trees)
}

// The trees of what a select picks.
fn picked_trees(
    alloc: Global,
    columns: &[Column],
    reach: &[Column],
    pick: &Pick,
) -> Result<Vec<Tree>, Memory>
    requires typed { IsPick reach.now (pick_shape pick.now) }
    requires fits { AllByRecursion (IsTerm (kinds_of columns.now))
        (picked_terms columns.now reach.now (pick_shape pick.now)) }
    requires most { length columns.now < 65536 }
    requires near { HasReach columns.now reach.now }
    ensures { IfOk result (λ trees.
        map term trees.items ≡ picked_terms columns.now reach.now (pick_shape pick.now)) }
{
    match pick {
        Pick::All => column_trees(alloc, columns.len()),
        Pick::Items(items) => {
            let mut trees = Vec::new(alloc);
            push_items(alloc, columns, reach, items.as_slice(), &mut trees)?;
            Ok(trees)
        }
    }
}

// A condition, which is cast to one bit where it is a literal or a parameter.
fn condition_tree(alloc: Global, tree: Tree) -> Result<Tree, Memory>
    ensures { IfOk result (λ t. term t ≡ condition_of (term tree)) }
{
    match tree {
        Tree::Literal(word, kind) => {
            let literal = Box::new(alloc, Tree::Literal(word, kind))?;
            Ok(Tree::Cast(literal, Kind::Unsigned(1)))
        }
        Tree::Parameter(number, kind) => {
            let parameter = Box::new(alloc, Tree::Parameter(number, kind))?;
            Ok(Tree::Cast(parameter, Kind::Unsigned(1)))
        }
        other => Ok(other),
    }
}

// The tree of a filter, if there is one.
pub(crate) fn filter_tree(
    alloc: Global,
    columns: &[Column],
    reach: &[Column],
    filter: &Option<Expr>,
) -> Result<Option<Tree>, Memory>
    requires typed { IsFilter reach.now (option_map expr_shape filter.now) }
    requires fits { FilterTerm columns.now reach.now (option_map expr_shape filter.now) }
    requires most { length columns.now < 65536 }
    requires near { HasReach columns.now reach.now }
    ensures { IfOk result (λ tree.
        option_map term tree
        ≡ filter_of columns.now reach.now (option_map expr_shape filter.now)) }
{
    match filter {
        Some(expr) => {
            let tree = tree_of(alloc, columns, reach, Kind::Unsigned(1), expr)?;
            Ok(Some(condition_tree(alloc, tree)?))
        }
        None => Ok(None),
    }
}

// The operands of trees of depth 0.
fn operands_of(alloc: Global, trees: &[Tree]) -> Result<Operands, Memory>
    ensures { IfOk result (λ operands. operands ≡ map operand_of (map term trees.now)) }
{
    let _holds = Operand::Column(0);
    let mut operands = Listed::new(alloc);
    for tree in trees {
        operands.push(operand_of(tree))?;
    }
    Ok(operands)
}

// The number of the column that an operand names; 0 for a literal or a parameter.
pub(crate) fn column_in(operand: &Operand) -> u16
    ensures { result ≡ column_under operand.now }
{
    match operand {
        Operand::Column(number) => *number,
        Operand::Literal(..) | Operand::Parameter(..) => 0,
    }
}

// The number of a column.
fn column_under(tree: &Tree) -> u16
    ensures { result ≡ column_under (operand_of (term tree.now)) }
{
    column_in(&operand_of(tree))
}

// Selects the rows for which the filter, if there is one, is 1.
pub(crate) fn select(plan: &mut Plan, at: PlanId, filter: &Option<Tree>) -> Result<PlanId, Memory>
    requires { SelectFits (placed_at plan.old at) (option_map term filter.now) }
    ensures root { IfOk result (λ id.
        placed_at plan.new id ≡ selected (placed_at plan.old at) (option_map term filter.now)) }
    ensures keeps { Keeps plan.old plan.new }
{
    match filter {
        Some(condition) => put(
            plan,
            PlanNode::Select {
                child: at,
                column: column_under(condition),
            },
        ),
        None => Ok(at),
    }
}

// Picks of each row the trees' values.
fn project(alloc: Global, plan: &mut Plan, at: PlanId, items: &[Tree]) -> Result<PlanId, Memory>
    requires { ProjectFits (placed_at plan.old at) (map term items.now) }
    ensures root { IfOk result (λ id.
        placed_at plan.new id ≡ projected (placed_at plan.old at) (map term items.now)) }
    ensures keeps { Keeps plan.old plan.new }
{
    let items = operands_of(alloc, items)?;
    put(plan, PlanNode::Project { child: at, items })
}

/// Adds the nodes of a select over a node.
pub fn rows_over(
    alloc: Global,
    plan: &mut Plan,
    below: Below<'_>,
    reach: &[Column],
    pick: &Pick,
    filter: &Option<Expr>,
) -> Result<PlanId, Memory>
    requires can { CanPlaceRows below.columns.now reach.now
        (pick_shape pick.now) (option_map expr_shape filter.now) }
    requires fit { RowsFit below.columns.now reach.now
        (pick_shape pick.now) (option_map expr_shape filter.now) (placed_at plan.old below.at) }
    ensures root { let b = below.entry in IfOk result (λ id.
        placed_at plan.new id
        ≡ rows_over b.columns.now reach.now
        (pick_shape pick.now) (option_map expr_shape filter.now) (placed_at plan.old b.at)) }
    ensures keeps { Keeps plan.old plan.new }
{
    let mut items = picked_trees(alloc, below.columns, reach, pick)?;
    let mut condition = filter_tree(alloc, below.columns, reach, filter)?;
    let base = below.columns.len() as u16;
    let over = levelled(alloc, plan, below.at, base, &mut items, &mut condition)?;
    let kept = select(plan, over, &condition)?;
    project(alloc, plan, kept, &items)
}
