//! Memories, and what drives them.

ghost use Rattle.std.specs.Prelude.{◌≡◌, ◌+◌, None, IfOk, OnOk, OnErr};
ghost use Rattle.gl_bits.specs.Words.{IsWidth};
ghost use Rattle.gl_net.specs.Net.{IsBus, IsBit, IsStore, IsAddressWidth, Grows, Words, open_at, size_of, register_bits_of, memory_bits_of};
ghost use Rattle.gl_net.specs.WellFormed.{IsDrive};
ghost use Rattle.gl_net.specs.Steps.{DrivesMemory};
ghost use Rattle.gl_net.specs.Builds.{IsOpen, OthersStay, AddsMemory, Takes, IsOpenMemory, PutsDrive};

use crate::builder::NetBuilder;
use crate::node::{Bit, Bus, MemoryDrive, Node, Store};
use gl_bits::Memory;

impl NetBuilder {
    /// A memory of `2 ^ address_bits` words, which is driven later. What its words are in cycle 0
    /// is not known.
    #[tactic(auto, using(crate::proofs::Growth::same_grows))]
    pub fn memory(&mut self, address_bits: u8, width: u8) -> Result<Store, Memory>
        requires bits { IsAddressWidth address_bits }
        requires width { IsWidth width }
        ensures grows { Grows self.old self.new }
        ensures ports { self.new.ports ≡ self.old.ports }
        ensures name { self.new.name ≡ self.old.name }
        ensures others { IfOk result (λ s. OthersStay self.old self.new s.node) }
        ensures undriven { IfOk result (λ s. IsOpen self.new s.node (Words address_bits width)) }
        ensures fresh { IfOk result (λ s. open_at self.old s.node ≡ None) }
        ensures store { IfOk result (λ s. IsStore self.new s) }
        ensures bits { IfOk result (λ s. s.address_bits ≡ address_bits) }
        ensures width { IfOk result (λ s. s.width ≡ width) }
        ensures size { OnOk result (size_of self.new ≡ size_of self.old + 1) }
        ensures register_bits { register_bits_of self.new ≡ register_bits_of self.old }
        ensures memory_bits { OnOk result (AddsMemory self.old self.new address_bits width) }
        ensures err { OnErr result (self.new ≡ self.old) }
    {
        let node = self.push(Node::Memory(address_bits, width, None))?;
        Ok(Store {
            node,
            address_bits,
            width,
        })
    }

    /// Drives a memory: it takes the value at the address, at the edge of each cycle in which the
    /// bit is 1.
    pub fn drive_memory(
        &mut self,
        store: Store,
        write: Bit,
        address: Bus,
        value: Bus,
    ) -> Result<(), Memory>
        requires undriven { IsOpen self.old store.node (Words store.address_bits store.width) }
        requires write { IsBit self.old write }
        requires address { IsBus self.old address }
        requires address_width { address.width ≡ store.address_bits }
        requires value { IsBus self.old value }
        requires value_width { value.width ≡ store.width }
        ensures grows { Grows self.old self.new }
        ensures ports { self.new.ports ≡ self.old.ports }
        ensures name { self.new.name ≡ self.old.name }
        ensures others { OthersStay self.old self.new store.node }
        ensures driven { OnOk result (open_at self.new store.node ≡ None) }
        ensures size { size_of self.new ≡ size_of self.old }
        ensures register_bits { register_bits_of self.new ≡ register_bits_of self.old }
        ensures memory_bits { memory_bits_of self.new ≡ memory_bits_of self.old }
        ensures value { OnOk result (Takes self.new store write address value) }
        ensures err { OnErr result (self.new ≡ self.old) }
    {
        self.set_drive(
            store,
            MemoryDrive {
                write,
                address,
                value,
            },
        );
        Ok(())
    }

    // The memory's node with its drive.
    #[tactic(auto, unfolding(crate::specs::Net::open_in))]
    fn set_drive(&mut self, store: Store, drive: MemoryDrive)
        requires undriven { IsOpen self.old store.node (Words store.address_bits store.width) }
        requires drive { IsDrive self.old store.address_bits store.width drive }
        ensures { DrivesMemory self.old self.new store drive }
    {
        write_drive(&mut self.nodes, store.node, drive);
    }
}

// The memory with its drive in place of the one without.
fn write_drive(nodes: &mut Vec<Node>, at: usize, drive: MemoryDrive)
    requires { IsOpenMemory nodes.old.items at }
    ensures { PutsDrive nodes.old.items nodes.new.items at drive }
{
    if let Node::Memory(address_bits, width, None) = nodes[at] {
        nodes[at] = Node::Memory(address_bits, width, Some(drive));
    }
}
