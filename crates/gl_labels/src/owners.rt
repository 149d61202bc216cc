//! Which named net a net without a name is made for.

use crate::scopes::Scopes;
use gl_bits::Memory;
use gl_net::Node;
use gl_verilog_writer::Label;
use std::alloc::Global;

/// For each node that has no name the one with a name that it leads to, where one of its section was found.
#[derive(Drop)]
pub(crate) struct Owners {
    all: Vec<Option<usize>>,
}

// What a node reads, and what drives it: three nodes at most.
fn operands(node: &Node) -> (Option<usize>, Option<usize>, Option<usize>) {
    match node {
        Node::Input(_, _) | Node::Constant(_) => (None, None, None),
        Node::Not(x) | Node::Cut(x, _, _) => (Some(x.node), None, None),
        Node::Binary(_, x, y) | Node::Join(x, y) => (Some(x.node), Some(y.node), None),
        Node::Choose(test, x, y) => (Some(test.node), Some(x.node), Some(y.node)),
        Node::Register(_, _, Some(next)) => (Some(next.node), None, None),
        Node::Memory(_, _, Some(drive)) => (
            Some(drive.write.node),
            Some(drive.address.node),
            Some(drive.value.node),
        ),
        Node::Register(_, _, None) | Node::Memory(_, _, None) => (None, None, None),
        Node::MemoryRead(store, x) => (Some(store.node), Some(x.node), None),
    }
}

// Whether a node keeps something from one cycle to the next.
fn is_state(node: &Node) -> bool {
    matches!(node, Node::Register(_, _, _) | Node::Memory(_, _, _))
}

/// Whether a node has a name.
pub(crate) fn is_named(labels: &[Label], node: usize) -> bool {
    match labels.get(node) {
        Some(label) => !label.name.is_empty(),
        None => false,
    }
}

impl Owners {
    /// The owners by the names that there are: what feeds named registers and memories is theirs first. Twice from the last
    /// node to the first, since what drives a register may stand behind it.
    pub(crate) fn new(
        alloc: Global,
        nodes: &[Node],
        scopes: &Scopes,
        labels: &[Label],
    ) -> Result<Owners, Memory> {
        let mut all = Vec::new(alloc);
        for _ in nodes {
            all.push(None)?;
        }
        let mut owners = Owners { all };
        for (number, node) in nodes.iter().enumerate() {
            if is_state(node) && is_named(labels, number) {
                owners.own(scopes, labels, node, number);
            }
        }
        owners.pass(nodes, scopes, labels);
        owners.pass(nodes, scopes, labels);
        Ok(owners)
    }

    /// The owner of a node, if it has one.
    pub(crate) fn of(&self, node: usize) -> Option<usize> {
        *self.all.get(node)?
    }

    // Hands owners on from each node to those that it reads.
    fn pass(&mut self, nodes: &[Node], scopes: &Scopes, labels: &[Label]) {
        for step in 0..nodes.len() {
            let number = nodes.len() - 1 - step;
            let owner = if is_named(labels, number) {
                Some(number)
            } else {
                self.of(number)
            };
            if let Some(owner) = owner {
                self.own(scopes, labels, &nodes[number], owner);
            }
        }
    }

    // Gives what a node reads to an owner.
    fn own(&mut self, scopes: &Scopes, labels: &[Label], node: &Node, owner: usize) {
        let (first, second, third) = operands(node);
        self.give(scopes, labels, first, owner);
        self.give(scopes, labels, second, owner);
        self.give(scopes, labels, third, owner);
    }

    // Gives a node of the owner's section to it, where it has neither a name nor an owner.
    fn give(&mut self, scopes: &Scopes, labels: &[Label], node: Option<usize>, owner: usize) {
        let Some(node) = node else {
            return;
        };
        if is_named(labels, node) || scopes.of_node(node) != scopes.of_node(owner) {
            return;
        }
        if let Some(found) = self.all.get_mut(node) {
            if found.is_none() {
                *found = Some(owner);
            }
        }
    }
}
