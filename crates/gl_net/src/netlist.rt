//! Finished netlists.

ghost use Rattle.std.specs.Prelude.{◌≡◌, Some};

use crate::node::{Node, Port};
use crate::note::Noted;
use gl_bits::Listed;
use std::marker::Model;

/// A netlist whose registers and memories are driven, and whose ports and module have names.
#[derive(Drop)]
pub struct Netlist {
    pub(crate) nodes: Vec<Node>,
    pub(crate) ports: Vec<Port>,
    pub(crate) notes: Vec<Noted>,
    pub(crate) name: Listed<u8>,
}

impl Model for Netlist {
    ghost use Rattle.std.specs.Prelude.{Some};
    ghost use Rattle.gl_net.specs.Net.{Net};
    ghost use Rattle.gl_net.specs.Finished.{IsNetlist};

    ghost Value = { Net };

    ghost view = { λ n. record { nodes = n.nodes.items; ports = n.ports.items; name = Some n.name } };

    ghost invariant = { λ n. IsNetlist (record { nodes = n.nodes.items; ports = n.ports.items; name = Some n.name }) };
}

impl Netlist {
    ghost use Rattle.gl_net.specs.Finished.{IsNetlist};

    /// The nodes, each at the place of its number.
    pub fn nodes(&self) -> &[Node]
        ensures value { result.now ≡ self.now.nodes }
        ensures netlist { IsNetlist self.now }
    {
        self.nodes.as_slice()
    }

    /// The ports in the order of the calls that made them.
    pub fn ports(&self) -> &[Port]
        ensures value { result.now ≡ self.now.ports }
        ensures netlist { IsNetlist self.now }
    {
        self.ports.as_slice()
    }

    /// What was told of nodes, in the order of the calls.
    pub fn notes(&self) -> &[Noted]
        ensures { IsNetlist self.now }
    {
        self.notes.as_slice()
    }

    /// The module's name.
    pub fn name(&self) -> &[u8]
        ensures value { self.now.name ≡ Some result.now }
        ensures netlist { IsNetlist self.now }
    {
        self.name.as_slice()
    }
}
