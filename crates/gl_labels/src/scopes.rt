//! What stands around nodes: operators of the plan, copies of bodies, outputs, and parts for a column.

use gl_bits::Memory;
use std::alloc::Global;

/// What a scope is of.
#[derive(Clone, Copy, PartialEq, Eq, Debug)]
pub(crate) enum Sort {
    /// What no other scope has: the ports that lead in.
    Ports,
    /// The operator of this number.
    Operator(usize),
    /// This copy of the body of the operator around it.
    Copy(usize),
    /// The output of the result at this place.
    Output(usize),
    /// What is for the column at this place.
    Part(usize),
}

/// The scope of the ports.
pub(crate) const PORTS: usize = 0;

/// A scope.
#[derive(Drop)]
pub(crate) struct Scope {
    /// What it is of.
    pub(crate) sort: Sort,
    /// The scope around it; that of the ports stands in itself.
    pub(crate) around: usize,
    /// The scope that has the section's heading: itself, or for a part the one around it.
    pub(crate) section: usize,
    /// What the names of its nodes begin with.
    pub(crate) path: Vec<u8>,
    /// What a heading within it begins with.
    pub(crate) words: Vec<u8>,
}

// Where a node stands, and whether it is called by a line of a wire.
#[derive(Clone, Copy)]
struct Standing {
    scope: usize,
    is_line: bool,
}

/// The scopes of a netlist, each under its number.
#[derive(Drop)]
pub(crate) struct Scopes {
    all: Vec<Scope>,
    current: usize,
    // Where each node stands that there was.
    nodes: Vec<Standing>,
}

impl Scopes {
    /// The scope of the ports alone.
    pub(crate) fn new(alloc: Global) -> Result<Scopes, Memory> {
        let mut all = Vec::new(alloc);
        all.push(Scope {
            sort: Sort::Ports,
            around: PORTS,
            section: PORTS,
            path: Vec::new(alloc),
            words: Vec::new(alloc),
        })?;
        Ok(Scopes {
            all,
            current: PORTS,
            nodes: Vec::new(alloc),
        })
    }

    /// The number of the scope that nodes are made in.
    pub(crate) fn current(&self) -> usize {
        self.current
    }

    /// What a scope is of.
    pub(crate) fn sort(&self, scope: usize) -> Sort {
        match self.all.get(scope) {
            Some(found) => found.sort,
            None => Sort::Ports,
        }
    }

    /// The scope around another.
    pub(crate) fn around(&self, scope: usize) -> usize {
        match self.all.get(scope) {
            Some(found) => found.around,
            None => PORTS,
        }
    }

    /// The scope that has the heading of another.
    pub(crate) fn section(&self, scope: usize) -> usize {
        match self.all.get(scope) {
            Some(found) => found.section,
            None => PORTS,
        }
    }

    /// What the names of a scope's nodes begin with.
    pub(crate) fn path(&self, scope: usize) -> &[u8] {
        match self.all.get(scope) {
            Some(found) => found.path.as_slice(),
            None => b"",
        }
    }

    /// What a heading within a scope begins with.
    pub(crate) fn words(&self, scope: usize) -> &[u8] {
        match self.all.get(scope) {
            Some(found) => found.words.as_slice(),
            None => b"",
        }
    }

    /// The scope of a node.
    pub(crate) fn of_node(&self, node: usize) -> usize {
        match self.nodes.get(node) {
            Some(found) => found.scope,
            None => PORTS,
        }
    }

    /// Whether a node is called by a line of a wire.
    pub(crate) fn is_line(&self, node: usize) -> bool {
        match self.nodes.get(node) {
            Some(found) => found.is_line,
            None => false,
        }
    }

    /// Notes that a node is called by a line of a wire.
    pub(crate) fn set_line(&mut self, node: usize) {
        if let Some(found) = self.nodes.get_mut(node) {
            found.is_line = true;
        }
    }

    /// Puts a node into a scope.
    pub(crate) fn place(&mut self, node: usize, scope: usize) {
        if let Some(found) = self.nodes.get_mut(node) {
            found.scope = scope;
        }
    }

    /// Puts all nodes up to this number, that have no scope, into that in which nodes are made.
    pub(crate) fn fill(&mut self, to: usize) -> Result<(), Memory> {
        for _ in self.nodes.len()..to {
            self.nodes.push(Standing {
                scope: self.current,
                is_line: false,
            })?;
        }
        Ok(())
    }

    /// Begins a scope within that in which nodes are made.
    pub(crate) fn enter(
        &mut self,
        sort: Sort,
        path: Vec<u8>,
        words: Vec<u8>,
    ) -> Result<(), Memory> {
        let number = self.all.len();
        let section = match sort {
            Sort::Part(_) => self.section(self.current),
            _ => number,
        };
        self.all.push(Scope {
            sort,
            around: self.current,
            section,
            path,
            words,
        })?;
        self.current = number;
        Ok(())
    }

    /// Ends the scope in which nodes are made.
    pub(crate) fn leave(&mut self) {
        self.current = self.around(self.current);
    }
}
