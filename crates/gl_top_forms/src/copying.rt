//! The words once more.

ghost use Rattle.std.specs.Prelude.{◌≡◌, IfOk};

use gl_outside::{Memory, Words};
use std::alloc::Global;

/// The same words once more.
pub fn copied(alloc: Global, words: &Words) -> Result<Words, Memory>
    ensures { IfOk result (λ copy. copy ≡ words.now) }
{
    let mut copy = Words::new(alloc);
    let texts = words.texts();
    for word in texts {
        copy.push(word.as_str())?;
    }
    Ok(copy)
}
