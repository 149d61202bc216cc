//! The machines over copies of a body, by the nodes that they are for.

use gl_bits::Memory;
use gl_groups::Grouping;
use gl_net::NetBuilder;
use gl_partition::Partitioning;
use gl_spare::SpareRotation;
use gl_ticks::RootTicked;
use gl_windows::Rotation;
use gl_wire::Emitted;
use gl_wire_registers::{Front, OverCopies};
use std::alloc::Global;

/// A machine over copies of a body, by the node that it is for.
#[derive(Clone, Copy)]
pub enum CopyMachine {
    /// That of windows.
    Windows(Rotation),
    /// That of windows of time.
    Times(RootTicked),
    /// That of groups.
    Groups(Grouping),
    /// That of windows of each group.
    Partitions(Partitioning),
    /// That of windows with spare copies.
    Spare(SpareRotation),
}

impl OverCopies for CopyMachine {
    ghost use Rattle.gl_wiring.specs.Machines.{CanBe, machine_of};

    ghost can_be = { CanBe };

    ghost machine = { machine_of };

    fn front(&self, alloc: Global, net: &mut NetBuilder, source: Emitted) -> Result<Front, Memory> {
        match self {
            CopyMachine::Windows(machine) => machine.front(alloc, net, source),
            CopyMachine::Times(machine) => machine.front(alloc, net, source),
            CopyMachine::Groups(machine) => machine.front(alloc, net, source),
            CopyMachine::Partitions(machine) => machine.front(alloc, net, source),
            CopyMachine::Spare(machine) => machine.front(alloc, net, source),
        }
    }

    fn back(
        &self,
        alloc: Global,
        net: &mut NetBuilder,
        front: &Front,
        copies: &[Emitted],
    ) -> Result<Emitted, Memory> {
        match self {
            CopyMachine::Windows(machine) => machine.back(alloc, net, front, copies),
            CopyMachine::Times(machine) => machine.back(alloc, net, front, copies),
            CopyMachine::Groups(machine) => machine.back(alloc, net, front, copies),
            CopyMachine::Partitions(machine) => machine.back(alloc, net, front, copies),
            CopyMachine::Spare(machine) => machine.back(alloc, net, front, copies),
        }
    }
}
