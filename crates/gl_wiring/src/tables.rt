//! Tables of circuits.

ghost use Rattle.std.specs.Prelude.{◌≡◌, ◌<◌, ◌∷◌, [], Some, length, slice_get, IfOk};
ghost use Rattle.gl_figures.specs.Marks.{AreMarks};
ghost use Rattle.gl_wire.specs.declared.emitted.Emitted.{Emitted as EmittedOf};

use gl_algebra::{Plan, PlanId};
use gl_bits::Memory;
use gl_figures::marks_of;
use gl_net::Buses;
use gl_wire::{Emitted, Wire};
use std::alloc::Global;
use std::slice::from_ref;

/// Circuits by the numbers of their nodes, where there are some.
pub type Table = Vec<Option<Emitted>>;

// The same wire and the same lines once more.
fn copy_of(alloc: Global, e: &Emitted) -> Result<Emitted, Memory>
    ensures { IfOk result (λ copy. copy ≡ e.now) }
{
    match Vec::from_slice(alloc, e.wire.columns.as_slice()) {
        Ok(columns) => Ok(Emitted {
            wire: Wire {
                valid: e.wire.valid,
                eos: e.wire.eos,
                columns: Buses::from_vec(columns),
            },
            faults: e.faults,
        }),
        Err(_) => Err(Memory),
    }
}

/// The circuit of a node, which is in the table.
pub fn circuit_at(alloc: Global, table: &[Option<Emitted>], id: PlanId) -> Result<Emitted, Memory>
    requires { (e : EmittedOf) × (slice_get table.now id ≡ Some (Some e)) }
    ensures { IfOk result (λ e. slice_get table.now id ≡ Some (Some e)) }
{
    let Some(e) = &table[id.number()] else {
        unreachable!()
    };
    copy_of(alloc, e)
}

/// Marks of all that one root reaches.
pub(crate) fn marks_from(alloc: Global, plan: &Plan, root: PlanId) -> Result<Vec<bool>, Memory>
    requires { root < length plan.now }
    ensures { IfOk result (λ marks. AreMarks plan.now (root ∷ []) marks.items) }
{
    let marks = marks_of(alloc, plan, from_ref(&root))?;
    Ok(marks)
}
