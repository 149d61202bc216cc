//! Registers, and what drives them.

ghost use Rattle.std.specs.Prelude.{◌≡◌, ◌+◌, ◌^◌, ◌<◌, Some, None, IfSome, is_none, IfOk, OnOk, OnErr};
ghost use Rattle.std.specs.Option.{option_map};
ghost use Rattle.gl_bits.specs.Words.{Word, IsWidth};
ghost use Rattle.gl_net.specs.Net.{IsBus, Grows, Value, open_at, size_of, register_bits_of, memory_bits_of, is_free};
ghost use Rattle.gl_net.specs.Steps.{Drives};
ghost use Rattle.gl_net.specs.Builds.{IsOpen, OthersStay, AddsRegister, StartsAt, Follows, FollowsFirst, IsOpenRegister, PutsNext};

use crate::builder::NetBuilder;
use crate::node::{Bus, Node};
use gl_bits::{Memory, Word};

impl NetBuilder {
    /// A register, which is driven later. With a reset word it takes that at the edge of each
    /// cycle in which the reset line is 1. What it holds in cycle 0 is not known.
    #[tactic(auto, using(crate::proofs::Growth::same_grows))]
    pub fn register(&mut self, width: u8, reset: Option<Word>) -> Result<Bus, Memory>
        requires width { IsWidth width }
        requires reset { IfSome reset (λ word. word.width ≡ width) }
        ensures grows { Grows self.old self.new }
        ensures ports { self.new.ports ≡ self.old.ports }
        ensures name { self.new.name ≡ self.old.name }
        ensures others { IfOk result (λ b. OthersStay self.old self.new b.node) }
        ensures undriven { IfOk result (λ b. IsOpen self.new b.node (Value width)) }
        ensures fresh { IfOk result (λ b. open_at self.old b.node ≡ None) }
        ensures bus { IfOk result (λ b. IsBus self.new b) }
        ensures width { IfOk result (λ b. b.width ≡ width) }
        ensures size { OnOk result (size_of self.new ≡ size_of self.old + 1) }
        ensures register_bits { OnOk result (AddsRegister self.old self.new width) }
        ensures memory_bits { memory_bits_of self.new ≡ memory_bits_of self.old }
        ensures free { IfOk result (λ b. is_free self.new b.node ≡ is_none reset) }
        ensures start { IfOk result (λ b. IfSome reset (StartsAt self.new b)) }
        ensures err { OnErr result (self.new ≡ self.old) }
    {
        let value = reset_value(reset, width);
        let node = self.push(Node::Register(width, value, None))?;
        Ok(Bus { node, width })
    }

    /// Drives a register: at the edge of each cycle it takes what the bus carries, where it is not
    /// reset.
    pub fn drive(&mut self, register: Bus, next: Bus) -> Result<(), Memory>
        requires undriven { IsOpen self.old register.node (Value register.width) }
        requires next { IsBus self.old next }
        requires widths { next.width ≡ register.width }
        ensures grows { Grows self.old self.new }
        ensures ports { self.new.ports ≡ self.old.ports }
        ensures name { self.new.name ≡ self.old.name }
        ensures others { OthersStay self.old self.new register.node }
        ensures driven { OnOk result (open_at self.new register.node ≡ None) }
        ensures size { size_of self.new ≡ size_of self.old }
        ensures register_bits { register_bits_of self.new ≡ register_bits_of self.old }
        ensures memory_bits { memory_bits_of self.new ≡ memory_bits_of self.old }
        ensures value { OnOk result (Follows self.new register next) }
        ensures first { OnOk result (FollowsFirst self.old self.new register next) }
        ensures err { OnErr result (self.new ≡ self.old) }
    {
        self.set_next(register, next);
        Ok(())
    }

    // The register's node with its drive.
    #[tactic(auto, unfolding(crate::specs::Net::open_in))]
    fn set_next(&mut self, register: Bus, next: Bus)
        requires undriven { IsOpen self.old register.node (Value register.width) }
        requires next { IsBus self.old next }
        requires widths { next.width ≡ register.width }
        ensures { Drives self.old self.new register next }
    {
        write_next(&mut self.nodes, register.node, next);
    }
}

// The number of a reset word.
fn reset_value(reset: Option<Word>, width: u8) -> Option<u128>
    requires { IfSome reset (λ word. word.width ≡ width) }
    ensures value { result ≡ option_map (λ word. word.bits) reset }
    ensures fits { IfSome result (λ value. value < 2 ^ width) }
{
    match reset {
        Some(word) => Some(word.bits()),
        None => None,
    }
}

// The register with its drive in place of the one without.
fn write_next(nodes: &mut Vec<Node>, at: usize, next: Bus)
    requires { IsOpenRegister nodes.old.items at }
    ensures { PutsNext nodes.old.items nodes.new.items at next }
{
    if let Node::Register(width, reset, None) = nodes[at] {
        nodes[at] = Node::Register(width, reset, Some(next));
    }
}
