//! Nodes that follow from others within a cycle.

ghost use Rattle.std.specs.Prelude.{◌≡◌, ◌+◌, ◌-◌, ◌<◌, ◌≤◌, IfOk, OnOk, OnErr};
ghost use Rattle.gl_net.specs.Net.{IsBus, IsBit, IsStore, Keeps, size_of, register_bits_of, memory_bits_of, binary_width};
ghost use Rattle.gl_net.specs.Builds.{IsConstant, IsNot, IsBinary, IsChoice, IsJoined, IsCut, IsWordAt};

use crate::builder::NetBuilder;
use crate::node::{BinaryOp, Bit, Bus, Node, Store};
use gl_bits::{Memory, Word};

impl NetBuilder {
    /// A node that carries the word in every cycle.
    pub fn constant(&mut self, word: Word) -> Result<Bus, Memory>
        ensures keeps { Keeps self.old self.new }
        ensures bus { IfOk result (λ b. IsBus self.new b) }
        ensures width { IfOk result (λ b. b.width ≡ word.width) }
        ensures size { OnOk result (size_of self.new ≡ size_of self.old + 1) }
        ensures register_bits { register_bits_of self.new ≡ register_bits_of self.old }
        ensures memory_bits { memory_bits_of self.new ≡ memory_bits_of self.old }
        ensures value { IfOk result (IsConstant self.new word) }
        ensures err { OnErr result (self.new ≡ self.old) }
    {
        // Named, since a goal speaks of the value.
        let bus = self.add(Node::Constant(word), word.width())?;
        Ok(bus)
    }

    /// Every bit of the bus inverted.
    #[tactic(auto, using(crate::proofs::Growth::bus_read))]
    pub fn not(&mut self, arg: Bus) -> Result<Bus, Memory>
        requires { IsBus self.old arg }
        ensures keeps { Keeps self.old self.new }
        ensures bus { IfOk result (λ b. IsBus self.new b) }
        ensures width { IfOk result (λ b. b.width ≡ arg.width) }
        ensures size { OnOk result (size_of self.new ≡ size_of self.old + 1) }
        ensures register_bits { register_bits_of self.new ≡ register_bits_of self.old }
        ensures memory_bits { memory_bits_of self.new ≡ memory_bits_of self.old }
        ensures value { IfOk result (IsNot self.new arg) }
        ensures err { OnErr result (self.new ≡ self.old) }
    {
        let bus = self.add(Node::Not(arg), arg.width)?;
        Ok(bus)
    }

    /// The operation on two buses of one width.
    #[tactic(auto, using(crate::proofs::Growth::bus_read, crate::proofs::Growth::binary_is_width))]
    pub fn binary(&mut self, op: BinaryOp, left: Bus, right: Bus) -> Result<Bus, Memory>
        requires left { IsBus self.old left }
        requires right { IsBus self.old right }
        requires widths { left.width ≡ right.width }
        ensures keeps { Keeps self.old self.new }
        ensures bus { IfOk result (λ b. IsBus self.new b) }
        ensures width { IfOk result (λ b. b.width ≡ binary_width op left.width) }
        ensures size { OnOk result (size_of self.new ≡ size_of self.old + 1) }
        ensures register_bits { register_bits_of self.new ≡ register_bits_of self.old }
        ensures memory_bits { memory_bits_of self.new ≡ memory_bits_of self.old }
        ensures value { IfOk result (IsBinary self.new op left right) }
        ensures err { OnErr result (self.new ≡ self.old) }
    {
        let bus = self.add(Node::Binary(op, left, right), op.width(left.width))?;
        Ok(bus)
    }

    /// The first bus in the cycles in which the bit is 1, and else the second.
    #[tactic(auto, using(crate::proofs::Growth::bus_read))]
    pub fn choose(&mut self, test: Bit, yes: Bus, no: Bus) -> Result<Bus, Memory>
        requires test { IsBit self.old test }
        requires yes { IsBus self.old yes }
        requires no { IsBus self.old no }
        requires widths { yes.width ≡ no.width }
        ensures keeps { Keeps self.old self.new }
        ensures bus { IfOk result (λ b. IsBus self.new b) }
        ensures width { IfOk result (λ b. b.width ≡ yes.width) }
        ensures size { OnOk result (size_of self.new ≡ size_of self.old + 1) }
        ensures register_bits { register_bits_of self.new ≡ register_bits_of self.old }
        ensures memory_bits { memory_bits_of self.new ≡ memory_bits_of self.old }
        ensures value { IfOk result (IsChoice self.new test yes no) }
        ensures err { OnErr result (self.new ≡ self.old) }
    {
        let bus = self.add(Node::Choose(test, yes, no), yes.width)?;
        Ok(bus)
    }

    /// The first bus above the second. At most 128 bits in all.
    #[tactic(auto, using(crate::proofs::Growth::bus_read))]
    pub fn join(&mut self, high: Bus, low: Bus) -> Result<Bus, Memory>
        requires high { IsBus self.old high }
        requires low { IsBus self.old low }
        requires widths { high.width + low.width ≤ 128 }
        ensures keeps { Keeps self.old self.new }
        ensures bus { IfOk result (λ b. IsBus self.new b) }
        ensures width { IfOk result (λ b. b.width ≡ high.width + low.width) }
        ensures size { OnOk result (size_of self.new ≡ size_of self.old + 1) }
        ensures register_bits { register_bits_of self.new ≡ register_bits_of self.old }
        ensures memory_bits { memory_bits_of self.new ≡ memory_bits_of self.old }
        ensures value { IfOk result (IsJoined self.new high low) }
        ensures err { OnErr result (self.new ≡ self.old) }
    {
        let bus = self.add(Node::Join(high, low), high.width + low.width)?;
        Ok(bus)
    }

    /// The bits `low` to `high` of the bus, counted from 0 for the lowest.
    #[tactic(auto, using(crate::proofs::Growth::bus_read))]
    pub fn cut(&mut self, arg: Bus, high: u8, low: u8) -> Result<Bus, Memory>
        requires arg { IsBus self.old arg }
        requires order { low ≤ high }
        requires inside { high < arg.width }
        ensures keeps { Keeps self.old self.new }
        ensures bus { IfOk result (λ b. IsBus self.new b) }
        ensures width { IfOk result (λ b. b.width ≡ high + 1 - low) }
        ensures size { OnOk result (size_of self.new ≡ size_of self.old + 1) }
        ensures register_bits { register_bits_of self.new ≡ register_bits_of self.old }
        ensures memory_bits { memory_bits_of self.new ≡ memory_bits_of self.old }
        ensures value { IfOk result (IsCut self.new arg high low) }
        ensures err { OnErr result (self.new ≡ self.old) }
    {
        let bus = self.add(Node::Cut(arg, high, low), high + 1 - low)?;
        Ok(bus)
    }

    /// The word of a memory at the address, as it is before the edge that ends the cycle.
    #[tactic(auto, using(crate::proofs::Growth::bus_read, crate::proofs::Growth::store_read))]
    pub fn read(&mut self, store: Store, address: Bus) -> Result<Bus, Memory>
        requires store { IsStore self.old store }
        requires address { IsBus self.old address }
        requires width { address.width ≡ store.address_bits }
        ensures keeps { Keeps self.old self.new }
        ensures bus { IfOk result (λ b. IsBus self.new b) }
        ensures width { IfOk result (λ b. b.width ≡ store.width) }
        ensures size { OnOk result (size_of self.new ≡ size_of self.old + 1) }
        ensures register_bits { register_bits_of self.new ≡ register_bits_of self.old }
        ensures memory_bits { memory_bits_of self.new ≡ memory_bits_of self.old }
        ensures value { IfOk result (IsWordAt self.new store address) }
        ensures err { OnErr result (self.new ≡ self.old) }
    {
        let bus = self.add(Node::MemoryRead(store, address), store.width)?;
        Ok(bus)
    }
}
