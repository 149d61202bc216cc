//! The builder of netlists: its empty state, and the finished netlist. The calls that add gates,
//! registers, memories and ports stand in the modules below.

ghost use Rattle.std.specs.Prelude.{◌≡◌, ℕ, ◌+◌, [], length, Option, None, true, IfOk, OnOk, OnErr};
ghost use Rattle.gl_bits.specs.Words.{IsWidth};
ghost use Rattle.gl_net.specs.declared.node.Node.{Node};
ghost use Rattle.gl_net.specs.Net.{Net, IsBus, Keeps, Value, shape_of, open_shape, open_at, size_of, register_bits, memory_bits, register_bits_of, memory_bits_of, is_inner};
ghost use Rattle.gl_net.specs.WellFormed.{NodeFits};
ghost use Rattle.gl_net.specs.Steps.{Adds};
ghost use Rattle.gl_net.specs.Builds.{IsNode};
ghost use Rattle.gl_net.specs.Finished.{IsFinished, needs_reset};

mod gates;
mod memories;
mod ports;
mod registers;

use crate::netlist::Netlist;
use crate::node::{Bus, Node, Port};
use crate::note::{Note, Noted};
use gl_bits::{Listed, Memory};
use std::alloc::Global;
use std::marker::Model;

/// A netlist that is being made. It keeps the allocator of its making.
#[derive(Drop)]
pub struct NetBuilder {
    alloc: Global,
    nodes: Vec<Node>,
    ports: Vec<Port>,
    notes: Vec<Noted>,
    name: Option<Listed<u8>>,
}

impl Model for NetBuilder {
    ghost use Rattle.gl_net.specs.Net.{Net};
    ghost use Rattle.gl_net.specs.WellFormed.{IsWellFormed};

    ghost Value = { Net };

    ghost view = { λ b. record { nodes = b.nodes.items; ports = b.ports.items; name = b.name } };

    ghost invariant = { λ b. IsWellFormed (record { nodes = b.nodes.items; ports = b.ports.items; name = b.name }) };
}

impl NetBuilder {
    /// The empty builder.
    #[tactic(auto, using(crate::proofs::Growth::empty_fits), unfolding(crate::specs::Net::open_in, crate::specs::Net::size_of, crate::specs::Net::register_bits_of, crate::specs::Net::memory_bits_of))]
    pub fn new(alloc: Global) -> NetBuilder
        ensures empty { result ≡ record { nodes = []; ports = []; name = None } }
        ensures undriven { (n : ℕ) → open_at result n ≡ None }
        ensures size { size_of result ≡ 0 }
        ensures register_bits { register_bits_of result ≡ 0 }
        ensures memory_bits { memory_bits_of result ≡ 0 }
    {
        NetBuilder {
            alloc,
            nodes: Vec::new(alloc),
            ports: Vec::new(alloc),
            notes: Vec::new(alloc),
            name: None,
        }
    }

    /// The number of nodes.
    pub fn len(&self) -> usize
        ensures { result ≡ length self.now.nodes }
    {
        self.nodes.len()
    }

    /// Keeps a note about nodes for readers, and changes nothing of the netlist.
    pub fn note(&mut self, note: Note) -> Result<(), Memory>
        ensures { self.new ≡ self.old }
    {
        let at = self.nodes.len();
        match self.notes.push(Noted { at, note }) {
            Ok(()) => Ok(()),
            Err(_) => Err(Memory),
        }
    }

    /// Whether some register has a reset value, so that the module needs an input `rst`.
    #[tactic(auto, unfolding(crate::specs::Finished::needs_reset))]
    pub fn needs_reset(&self) -> bool
        ensures { result ≡ needs_reset self.now }
    {
        self.nodes
            .iter()
            .any(|node| matches!(node, Node::Register(_, Some(_), _)))
    }

    /// The finished netlist, with the same nodes, ports and names.
    pub fn finish(self) -> Netlist
        requires { IsFinished self }
        ensures { result ≡ self }
    {
        let NetBuilder {
            alloc: _,
            nodes,
            ports,
            notes,
            name,
        } = self;
        match name {
            Some(name) => Netlist {
                nodes,
                ports,
                notes,
                name,
            },
            None => unreachable!(),
        }
    }

    // The node at the end of the list.
    fn push(&mut self, node: Node) -> Result<usize, Memory>
        requires { NodeFits self.old (length self.old.nodes) node }
        ensures ok { IfOk result (λ n. Adds self.old self.new node n) }
        ensures err { OnErr result (self.new ≡ self.old) }
    {
        let at = self.nodes.len();
        match self.nodes.push(node) {
            Ok(()) => Ok(at),
            Err(_) => Err(Memory),
        }
    }

    // A node that nothing drives later, and its bus.
    #[tactic(auto, using(crate::proofs::Growth::same_keeps, crate::proofs::Growth::adds_holds, crate::proofs::Growth::adds_size, crate::proofs::Growth::adds_register_bits, crate::proofs::Growth::adds_memory_bits))]
    fn add(&mut self, node: Node, width: u8) -> Result<Bus, Memory>
        requires fits { NodeFits self.old (length self.old.nodes) node }
        requires closed { open_shape node ≡ None }
        requires shape { shape_of node ≡ Value width }
        requires width { IsWidth width }
        requires inner { is_inner node ≡ true }
        requires no_register { register_bits node ≡ 0 }
        requires no_memory { memory_bits node ≡ 0 }
        ensures keeps { Keeps self.old self.new }
        ensures bus { IfOk result (λ b. IsBus self.new b) }
        ensures width { IfOk result (λ b. b.width ≡ width) }
        ensures size { OnOk result (size_of self.new ≡ size_of self.old + 1) }
        ensures register_bits { register_bits_of self.new ≡ register_bits_of self.old }
        ensures memory_bits { memory_bits_of self.new ≡ memory_bits_of self.old }
        ensures holds { IfOk result (IsNode self.new node) }
        ensures err { OnErr result (self.new ≡ self.old) }
    {
        let node = self.push(node)?;
        Ok(Bus { node, width })
    }
}
