//! Whole texts into a sink.

ghost use Rattle.std.specs.Prelude.{◌≡◌, ◌≤◌, length, drop};
ghost use Rattle.gl_outside.specs.States.{Wrote};

use crate::sink::{Put, Sink};

/// The sink failed.
#[derive(Clone, Copy, PartialEq, Eq, Debug)]
pub struct WriteFault;

// The bytes from a place on.
fn tail(bytes: &[u8], at: usize) -> &[u8]
    requires { at ≤ length bytes.now }
    ensures { result.now ≡ drop at bytes.now }
{
    bytes.split_at(at).1
}

/// Puts all of the bytes, one piece after the other. Takes no memory.
///
/// Where the sink fails, a front of the bytes was taken; else its count of faults is as before.
#[tactic(auto, using(crate::proofs::Takes::took_all))]
pub fn write_all_of<K: Sink>(sink: &mut K, bytes: &[u8]) -> Result<(), WriteFault>
    ensures { Wrote (K.state sink.old) (K.state sink.new) bytes.now result }
{
    let mut at = 0;
    while at < bytes.len() {
        match sink.put(tail(bytes, at)) {
            Put::Took(n) => at += n,
            Put::Failed => return Err(WriteFault),
        }
    }
    Ok(())
}
