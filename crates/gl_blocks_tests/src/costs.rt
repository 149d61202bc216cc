//! The bits that a union holds.

use crate::bench::{Side, figures};
use crate::circuit::union_of;
use gl_bits::Memory;
use gl_net::cost_of;
use std::alloc::Global;

/// The bits that a union of two columns of 16 bits holds, whose sides bring at most `most` tuples with the end: of registers whether they are at
/// most twice the bits of the columns and of two lines, and 200 more.
pub(crate) fn bits_of(alloc: Global, most: u16) -> Result<String, Memory> {
    let side = Side {
        first: 0,
        more: 0,
        most,
    };
    let circuit = union_of(alloc, 16, 16, figures(side))?;
    let cost = cost_of(&circuit.netlist);
    let within = if cost.registers <= 268 {
        "within"
    } else {
        "past"
    };
    Ok(format!(in alloc; "> registers {within} 268, memories {}", cost.memories)?)
}
