//! The law of what frames by a key cost. The contract of the function is the law, from those of
//! crates below; it does nothing.

ghost use Rattle.gl_frames_parted.specs.Parted.{KeyFramesAreCounted};

use gl_frames_asked::laws::{columns_are_asked, nodes_are_same};
use gl_frames_stages::laws::doublings_are_bits;

/// What frames by a key cost at most is within what a plan counts for their node.
pub fn key_frames_are_counted()
    ensures { KeyFramesAreCounted }
{
    doublings_are_bits();
    columns_are_asked();
    nodes_are_same();
}
