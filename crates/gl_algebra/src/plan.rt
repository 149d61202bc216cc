//! Plans: lists of nodes.

ghost use Rattle.std.specs.Prelude.{◌≡◌, ◌<◌, [], length, not, slice_get, Contains, IfOk, OnOk, OnErr};
ghost use Rattle.std.specs.List.{AllByRecursion};
ghost use Rattle.gl_algebra.specs.Added.{added, has_node, place_of, placed_at, with_node, Grows, HasKinds};
ghost use Rattle.gl_algebra.specs.Fits.{Fits, IsPlan};
ghost use Rattle.gl_algebra.specs.Nodewise.{named_by};
ghost use Rattle.gl_algebra.specs.Shapes.{kinds_of, kinds_over};
ghost use Rattle.gl_algebra.specs.Views.{is_time, reads_time};

use crate::columns::{
    columns_of_aggs, columns_of_both, columns_of_frames, columns_of_items, columns_with_key,
    columns_with_ops, kind_of_column, same_columns,
};
use crate::node::{Kinds, PlanNode};
use crate::number::PlanId;
use gl_bits::Memory;
use gl_values::Kind;
use indexmap::IndexSet;
use std::alloc::Global;
use std::marker::Model;

/// A list of nodes in which no two are equal and every one fits. It keeps the allocator of its making.
#[derive(Drop)]
pub struct Plan {
    alloc: Global,
    nodes: IndexSet<PlanNode>,
    // The kinds of each node's columns.
    columns: Vec<Kinds>,
}

impl Model for Plan {
    ghost use Rattle.std.specs.Prelude.{List};
    ghost use Rattle.gl_algebra.specs.declared.node.PlanNode.{PlanNode};
    ghost use Rattle.gl_algebra.specs.Fits.{IsPlanWith};

    ghost Value = { List PlanNode };

    ghost view = { λ p. p.nodes.keys };

    ghost invariant = { λ p. IsPlanWith p.nodes.keys p.columns.items };
}

impl Plan {
    /// The empty plan.
    pub fn new(alloc: Global) -> Plan
        ensures { result ≡ [] }
    {
        Plan {
            alloc,
            nodes: IndexSet::new(alloc),
            columns: Vec::new(alloc),
        }
    }

    /// The number of the node: of the equal node where the plan has one, which leaves the plan as it was, else of the node
    /// itself, which then stands last. On want of memory the plan is as before, and the node is let go.
    pub fn add(&mut self, node: PlanNode) -> Result<PlanId, Memory>
        requires { Fits self.old (length self.old) node }
        ensures added { IfOk result (λ id. placed_at self.new id ≡ added self.old node) }
        ensures number { IfOk result (λ id. slice_get self.new id ≡ Some node) }
        ensures known { OnOk result (Contains self.old node → self.new ≡ self.old) }
        ensures grows { OnOk result (Grows self.old self.new node) }
        ensures err { OnErr result (self.new ≡ self.old) }
        ensures plan { IsPlan self.new }
    {
        let kinds = self.columns_of(&node)?;
        let place = put(&mut self.nodes, &mut self.columns, node, kinds)?;
        Ok(PlanId::of(place))
    }

    /// How many nodes the plan has.
    pub fn len(&self) -> usize
        ensures len { result ≡ length self.now }
        ensures plan { IsPlan self.now }
    {
        self.nodes.len()
    }

    /// The node of this number.
    pub fn node(&self, id: PlanId) -> &PlanNode
        requires { id < length self.now }
        ensures node { slice_get self.now id ≡ Some result.now }
        ensures plan { IsPlan self.now }
    {
        &self.nodes.as_slice()[id.number()]
    }

    /// The kinds of the columns of the node of this number.
    pub fn kinds(&self, id: PlanId) -> &[Kind]
        requires { id < length self.now }
        ensures kinds { result.now ≡ kinds_of self.now id }
        ensures plan { IsPlan self.now }
    {
        self.columns[id.number()].as_slice()
    }

    /// Whether a node is a window of time.
    pub fn reads_time(&self) -> bool
        ensures { result ≡ reads_time self.now }
    {
        self.nodes.as_slice().iter().any(|node| is_time(node))
    }

    /// The id of a node by its number.
    pub fn id(&self, number: usize) -> PlanId
        requires { number < length self.now }
        ensures number { result ≡ number }
        ensures plan { IsPlan self.now }
    {
        // Clauses alone speak of it.
        let _ = &self.nodes;
        PlanId::of(number)
    }

    // The kinds of the columns of a node over this plan.
    fn columns_of(&self, node: &PlanNode) -> Result<Kinds, Memory>
        requires { AllByRecursion (λ child. child < length self.now) (named_by node.now) }
        ensures { IfOk result (λ kinds. kinds ≡ kinds_over self.now node.now) }
    {
        let alloc = self.alloc;
        match node {
            PlanNode::Stream(_, kinds) => same_columns(alloc, kinds.as_slice()),
            PlanNode::Body(kinds) => same_columns(alloc, kinds.as_slice()),
            PlanNode::Compute { child, ops } => columns_with_ops(
                alloc,
                self.kinds(*child),
                ops.as_slice(),
            ),
            PlanNode::Select { child, .. } => same_columns(alloc, self.kinds(*child)),
            PlanNode::Project { child, items } => columns_of_items(
                alloc,
                self.kinds(*child),
                items.as_slice(),
            ),
            PlanNode::Frames { child, items, .. } => columns_of_frames(
                alloc,
                self.kinds(*child),
                items.as_slice(),
            ),
            PlanNode::Aggregate { child, aggs } => columns_of_aggs(
                alloc,
                self.kinds(*child),
                aggs.as_slice(),
            ),
            PlanNode::Union { left, .. } | PlanNode::Merge { left, .. } => {
                same_columns(alloc, self.kinds(*left))
            }
            PlanNode::Beside { left, right } => columns_of_both(
                alloc,
                self.kinds(*left),
                self.kinds(*right),
            ),
            PlanNode::Window { body, .. } => same_columns(alloc, self.kinds(*body)),
            PlanNode::TimeWindow { body, .. } => same_columns(alloc, self.kinds(*body)),
            PlanNode::Group {
                source,
                body,
                key,
                ..
            } => {
                let key = kind_of_column(self.kinds(*source), *key as usize);
                columns_with_key(alloc, key, self.kinds(*body))
            }
            PlanNode::Partition {
                source,
                body,
                key,
                ..
            } => {
                let key = kind_of_column(self.kinds(*source), *key as usize);
                columns_with_key(alloc, key, self.kinds(*body))
            }
        }
    }
}

// Whether a node is a window of time.
fn is_time(node: &PlanNode) -> bool
    ensures { result ≡ is_time node.now }
{
    matches!(node, PlanNode::TimeWindow { .. })
}

// The place of the node among these nodes; where they lack it, it then stands last, with its kinds beside it.
fn put(
    nodes: &mut IndexSet<PlanNode>,
    all: &mut Vec<Kinds>,
    node: PlanNode,
    kinds: Kinds,
) -> Result<usize, Memory>
    ensures place { IfOk result (λ place. place ≡ place_of nodes.old.keys node) }
    ensures keys { OnOk result (nodes.new.keys ≡ with_node nodes.old.keys node) }
    ensures kinds { OnOk result (HasKinds nodes.old.keys node all.old.items kinds all.new.items) }
    ensures err_nodes { OnErr result (nodes.new.keys ≡ nodes.old.keys) }
    ensures err_kinds { OnErr result (all.new.items ≡ all.old.items) }
{
    all.push(kinds)?;
    let Ok((place, is_new)) = place_among(nodes, node) else {
        let _ = all.pop();
        return Err(Memory);
    };
    if !is_new {
        let _ = all.pop();
    }
    Ok(place)
}

// The place of the node among these nodes, and whether they lack it; then it stands last.
fn place_among(nodes: &mut IndexSet<PlanNode>, node: PlanNode) -> Result<(usize, bool), Memory>
    ensures place { IfOk result (λ r. r.0 ≡ place_of nodes.old.keys node) }
    ensures lacked { IfOk result (λ r. r.1 ≡ not (has_node nodes.old.keys node)) }
    ensures keys { OnOk result (nodes.new.keys ≡ with_node nodes.old.keys node) }
    ensures err { OnErr result (nodes.new.keys ≡ nodes.old.keys) }
{
    match nodes.insert_full(node) {
        Ok(found) => Ok(found),
        Err(_) => Err(Memory),
    }
}
