//! Values in boxes, and behind the last of a list. Where memory runs out, the value is dropped here,
//! where its type is open: over a tree each such path costs seconds of proof.

ghost use Rattle.std.specs.Prelude.{◌≡◌, [], ◌∷◌, ◌++◌, IfOk};

use std::alloc::{AllocError, Global};

// A value in a box.
pub(crate) fn boxed<T: Drop>(alloc: Global, value: T) -> Result<Box<T>, AllocError>
    ensures { IfOk result (λ b. b.value ≡ value) }
{
    // Named, since a goal speaks of the value.
    let boxed = Box::new(alloc, value)?;
    Ok(boxed)
}

// Puts a value behind the last.
pub(crate) fn put<T: Drop>(list: &mut Vec<T>, value: T) -> Result<(), AllocError>
    ensures { IfOk result (λ done. list.new.items ≡ list.old.items ++ value ∷ []) }
{
    list.push(value)?;
    Ok(())
}

// A list with a value more.
pub(crate) fn with_last<T: Drop>(list: Vec<T>, value: T) -> Result<Vec<T>, AllocError>
    ensures { IfOk result (λ more. more.items ≡ list.items ++ value ∷ []) }
{
    let mut list = list;
    list.push(value)?;
    Ok(list)
}
