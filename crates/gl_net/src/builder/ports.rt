//! The ports of a module, and its name.

ghost use Rattle.std.specs.Prelude.{◌≡◌, ℕ, [], ◌∷◌, ◌++◌, Some, IfOk, OnOk, OnErr};
ghost use Rattle.gl_bits.specs.Words.{IsWidth};
ghost use Rattle.gl_net.specs.declared.node.Direction.TheVariants.{In, Out};
ghost use Rattle.gl_net.specs.Net.{IsBus, Grows, open_at, size_of, register_bits_of, memory_bits_of};
ghost use Rattle.gl_net.specs.Steps.{AddsPort, AddsInput, Names};
ghost use Rattle.gl_net.specs.Builds.{PutsPort, PutsInput};

use crate::builder::NetBuilder;
use crate::node::{Bus, Direction, Node, Port};
use gl_bits::{Listed, Memory};
use std::alloc::Global;

impl NetBuilder {
    /// An input port of the module, and the node that carries its value.
    #[tactic(auto, using(crate::proofs::Growth::same_grows))]
    pub fn input(&mut self, name: &[u8], width: u8) -> Result<Bus, Memory>
        requires { IsWidth width }
        ensures grows { Grows self.old self.new }
        ensures ports { IfOk result (λ b. PutsPort self.old self.new In name.now b.node) }
        ensures module_name { self.new.name ≡ self.old.name }
        ensures undriven { (n : ℕ) → open_at self.new n ≡ open_at self.old n }
        ensures bus { IfOk result (λ b. IsBus self.new b) }
        ensures width { IfOk result (λ b. b.width ≡ width) }
        ensures size { size_of self.new ≡ size_of self.old }
        ensures register_bits { register_bits_of self.new ≡ register_bits_of self.old }
        ensures memory_bits { memory_bits_of self.new ≡ memory_bits_of self.old }
        ensures err { OnErr result (self.new ≡ self.old) }
    {
        let name = copied(self.alloc, name)?;
        let node = self.push_input(name, width)?;
        Ok(Bus { node, width })
    }

    // The port at the end of the ports, and its node at the end of the nodes.
    fn push_input(&mut self, name: Listed<u8>, width: u8) -> Result<usize, Memory>
        requires { IsWidth width }
        ensures ok { IfOk result (λ n. AddsInput self.old self.new name width n) }
        ensures err { OnErr result (self.new ≡ self.old) }
    {
        let node = self.nodes.len();
        let port = Port {
            direction: Direction::In,
            name,
            node,
        };
        push_both(&mut self.nodes, &mut self.ports, port, width)?;
        Ok(node)
    }

    /// Makes a node an output port of the module.
    #[tactic(auto, using(crate::proofs::Growth::same_grows))]
    pub fn output(&mut self, name: &[u8], value: Bus) -> Result<(), Memory>
        requires { IsBus self.old value }
        ensures grows { Grows self.old self.new }
        ensures nodes { self.new.nodes ≡ self.old.nodes }
        ensures ports { OnOk result (PutsPort self.old self.new Out name.now value.node) }
        ensures module_name { self.new.name ≡ self.old.name }
        ensures undriven { (n : ℕ) → open_at self.new n ≡ open_at self.old n }
        ensures size { size_of self.new ≡ size_of self.old }
        ensures register_bits { register_bits_of self.new ≡ register_bits_of self.old }
        ensures memory_bits { memory_bits_of self.new ≡ memory_bits_of self.old }
        ensures err { OnErr result (self.new ≡ self.old) }
    {
        let name = copied(self.alloc, name)?;
        self.push_output(name, value)?;
        Ok(())
    }

    // The port at the end of the ports.
    fn push_output(&mut self, name: Listed<u8>, value: Bus) -> Result<(), Memory>
        requires { IsBus self.old value }
        ensures ok { OnOk result (AddsPort self.old self.new Out name value.node) }
        ensures err { OnErr result (self.new ≡ self.old) }
    {
        let port = Port {
            direction: Direction::Out,
            name,
            node: value.node,
        };
        push_port(&mut self.ports, port)?;
        Ok(())
    }

    /// Gives the module its name.
    #[tactic(auto, using(crate::proofs::Growth::same_grows))]
    pub fn module(&mut self, name: &[u8]) -> Result<(), Memory>
        ensures grows { Grows self.old self.new }
        ensures nodes { self.new.nodes ≡ self.old.nodes }
        ensures ports { self.new.ports ≡ self.old.ports }
        ensures module_name { OnOk result (self.new.name ≡ Some name.now) }
        ensures undriven { (n : ℕ) → open_at self.new n ≡ open_at self.old n }
        ensures size { size_of self.new ≡ size_of self.old }
        ensures register_bits { register_bits_of self.new ≡ register_bits_of self.old }
        ensures memory_bits { memory_bits_of self.new ≡ memory_bits_of self.old }
        ensures err { OnErr result (self.new ≡ self.old) }
    {
        let name = copied(self.alloc, name)?;
        self.set_name(name);
        Ok(())
    }

    fn set_name(&mut self, name: Listed<u8>)
        ensures { Names self.old self.new name }
    {
        self.name = Some(name);
    }
}

// A copy of a name.
fn copied(alloc: Global, name: &[u8]) -> Result<Listed<u8>, Memory>
    ensures { IfOk result (λ copy. copy ≡ name.now) }
{
    match Vec::from_slice(alloc, name) {
        Ok(bytes) => Ok(Listed::from_vec(bytes)),
        Err(_) => Err(Memory),
    }
}

// The port at the end of the list.
fn push_port(ports: &mut Vec<Port>, port: Port) -> Result<(), Memory>
    ensures ok { OnOk result (ports.new.items ≡ ports.old.items ++ port ∷ []) }
    ensures err { OnErr result (ports.new.items ≡ ports.old.items) }
{
    match ports.push(port) {
        Ok(()) => Ok(()),
        Err(_) => Err(Memory),
    }
}

// The port at the end of its list, and an input node that names it.
fn push_both(
    nodes: &mut Vec<Node>,
    ports: &mut Vec<Port>,
    port: Port,
    width: u8,
) -> Result<(), Memory>
    ensures nodes { OnOk result (PutsInput nodes.old.items nodes.new.items ports.old.items width) }
    ensures ports { OnOk result (ports.new.items ≡ ports.old.items ++ port ∷ []) }
    ensures nodes_err { OnErr result (nodes.new.items ≡ nodes.old.items) }
    ensures ports_err { OnErr result (ports.new.items ≡ ports.old.items) }
{
    let place = ports.len();
    if nodes.reserve(1).is_err() {
        return Err(Memory);
    }
    push_port(ports, port)?;
    match nodes.push(Node::Input(place, width)) {
        Ok(()) => Ok(()),
        Err(_) => unreachable!(),
    }
}
