//! Levels of operations.

ghost use Rattle.std.specs.Prelude.{◌≡◌, ◌+◌, ◌++◌, ◌<◌, ◌≤◌, ◌↔◌, IfOk, IsTrue, OnOk, length, map, option_map, option_to_list};
ghost use Rattle.std.specs.List.{position_or_len};
ghost use Rattle.indexmap.specs.IndexSet.{insert_all, insert_key};
ghost use Rattle.gl_elaborate.specs.Terms.{depth_of_all};
ghost use Rattle.gl_elaborate.specs.Levels.{innermost, innermost_of_all, level_of, reduced, same_op};
ghost use Rattle.gl_elaborate.specs.Trees.{term};

use crate::trees::{Tree, leaf_of, op_of};
use gl_algebra::{ColOp, Operand, Ops};
use gl_bits::{Listed, Memory};
use indexmap::IndexSet;
use std::alloc::Global;

// Inserts an operation.
fn insert_op(level: &mut IndexSet<ColOp>, op: ColOp) -> Result<(), Memory>
    ensures { OnOk result (level.new.keys ≡ insert_key same_op level.old.keys op) }
{
    let _holds = Operand::Column(0);
    match level.insert_full(op) {
        Ok(_) => Ok(()),
        Err(_) => Err(Memory),
    }
}

// The place of an operation; the number of operations where there is none.
fn place_of(level: &IndexSet<ColOp>, op: ColOp) -> u16
    requires { length level.now.keys < 65536 }
    ensures place { result ≡ position_or_len (same_op op) level.now.keys }
    ensures bound { result ≤ length level.now.keys }
{
    match level.get_index_of(&op) {
        Some(place) => place as u16,
        None => level.len() as u16,
    }
}

// Inserts the innermost operations of a tree.
fn gather(tree: &Tree, level: &mut IndexSet<ColOp>) -> Result<(), Memory>
    ensures { OnOk result
        (level.new.keys ≡ insert_all same_op level.old.keys (innermost (term tree.now))) }
{
    if let Some(op) = op_of(tree) {
        return insert_op(level, op);
    }
    match tree {
        Tree::Column(_) | Tree::Literal(..) | Tree::Parameter(..) => Ok(()),
        Tree::Not(arg) => gather(arg, level),
        Tree::Flip(arg) => gather(arg, level),
        Tree::Cast(arg, _) => gather(arg, level),
        Tree::Binary(_, left, right) => {
            gather(left, level)?;
            gather(right, level)
        }
    }
}

// Makes columns of the innermost operations of a tree.
fn reduce(base: u16, level: &IndexSet<ColOp>, tree: &mut Tree)
    requires { base + length level.now.keys < 65536 }
    ensures { term tree.new ≡ reduced base level.now.keys (term tree.old) }
{
    if let Some(op) = op_of(tree) {
        *tree = Tree::Column(base + place_of(level, op));
        return;
    }
    match tree {
        Tree::Column(_) | Tree::Literal(..) | Tree::Parameter(..) => {}
        Tree::Not(arg) => reduce(base, level, arg),
        Tree::Flip(arg) => reduce(base, level, arg),
        Tree::Cast(arg, _) => reduce(base, level, arg),
        Tree::Binary(_, left, right) => {
            reduce(base, level, left);
            reduce(base, level, right);
        }
    }
}

// Inserts the innermost operations of trees.
fn gather_all(trees: &[Tree], level: &mut IndexSet<ColOp>) -> Result<(), Memory>
    ensures { OnOk result
        (level.new.keys
        ≡ insert_all same_op level.old.keys (innermost_of_all (map term trees.now))) }
{
    let Some((first, rest)) = trees.split_first() else {
        return Ok(());
    };
    gather(first, level)?;
    gather_all(rest, level)
}

/// Makes columns of the innermost operations of trees, all of which are in a level behind `base`
/// columns.
pub fn reduce_all(base: u16, level: &IndexSet<ColOp>, trees: &mut [Tree])
    requires { base + length level.now.keys < 65536 }
    ensures { map term trees.new ≡ map (reduced base level.now.keys) (map term trees.old) }
{
    let Some((first, rest)) = trees.split_first_mut() else {
        return;
    };
    reduce(base, level, first);
    reduce_all(base, level, rest)
}

/// Makes columns of the innermost operations of a tree, where there is one, all of which are in a
/// level behind `base` columns.
pub fn reduce_some(base: u16, level: &IndexSet<ColOp>, tree: &mut Option<Tree>)
    requires { base + length level.now.keys < 65536 }
    ensures { option_map term tree.new
        ≡ option_map (reduced base level.now.keys) (option_map term tree.old) }
{
    match tree {
        Some(tree) => reduce(base, level, tree),
        None => {}
    }
}

/// Whether a tree, where there is one, is a column, literal or parameter.
pub fn is_flat(tree: &Option<Tree>) -> bool
    ensures { IsTrue result ↔ (depth_of_all (option_to_list (option_map term tree.now)) ≡ 0) }
{
    match tree {
        Some(tree) => leaf_of(tree).is_some(),
        None => true,
    }
}

/// Whether all trees are columns, literals or parameters.
pub fn are_flat(trees: &[Tree]) -> bool
    ensures { IsTrue result ↔ (depth_of_all (map term trees.now) ≡ 0) }
{
    let Some((first, rest)) = trees.split_first() else {
        return true;
    };
    leaf_of(first).is_some() && are_flat(rest)
}

// Inserts the innermost operations of a tree, where there is one.
fn gather_some(tree: &Option<Tree>, level: &mut IndexSet<ColOp>) -> Result<(), Memory>
    ensures { OnOk result
        (level.new.keys
        ≡ insert_all same_op level.old.keys
        (innermost_of_all (option_to_list (option_map term tree.now)))) }
{
    match tree {
        Some(tree) => gather(tree, level),
        None => Ok(()),
    }
}

/// The innermost operations of items and of a filter, each once.
pub fn level_over(
    alloc: Global,
    items: &[Tree],
    filter: &Option<Tree>,
) -> Result<IndexSet<ColOp>, Memory>
    ensures { IfOk result (λ level.
        level.keys ≡ level_of (map term items.now ++ option_to_list (option_map term filter.now))) }
{
    let mut level = IndexSet::new(alloc);
    gather_all(items, &mut level)?;
    gather_some(filter, &mut level)?;
    Ok(level)
}

/// The operations of a level, in order.
pub fn ops_of(alloc: Global, level: &IndexSet<ColOp>) -> Result<Ops, Memory>
    ensures { IfOk result (λ ops. ops ≡ level.now.keys) }
{
    let _holds = Operand::Column(0);
    Ok(Listed::from_vec(Vec::from_slice(alloc, level.as_slice())?))
}
