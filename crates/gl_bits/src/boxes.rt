//! Values in boxes, and what their caller keeps beside them. Where memory runs out, all of it is
//! dropped here, where the types are open: over a tree each such path costs seconds of proof.

ghost use Rattle.std.specs.Prelude.{◌≡◌, IfOk};

use std::alloc::{AllocError, Global};

/// A value in a box, and what its caller keeps.
#[derive(Drop)]
pub struct OneBox<T, U> {
    /// What the caller keeps.
    pub kept: T,
    /// The value.
    pub boxed: Box<U>,
}

/// A value in a box.
pub fn one_box<T: Drop, U: Drop>(
    alloc: Global,
    kept: T,
    value: U,
) -> Result<OneBox<T, U>, AllocError>
    ensures kept { IfOk result (λ b. b.kept ≡ kept) }
    ensures boxed { IfOk result (λ b. b.boxed.value ≡ value) }
{
    let boxed = Box::new(alloc, value)?;
    Ok(OneBox { kept, boxed })
}

/// Two values in boxes, and what their caller keeps.
#[derive(Drop)]
pub struct TwoBoxes<T, U, V> {
    /// What the caller keeps.
    pub kept: T,
    /// The first value.
    pub first: Box<U>,
    /// The second value.
    pub second: Box<V>,
}

/// Two values in boxes.
pub fn two_boxes<T: Drop, U: Drop, V: Drop>(
    alloc: Global,
    kept: T,
    first: U,
    second: V,
) -> Result<TwoBoxes<T, U, V>, AllocError>
    ensures kept { IfOk result (λ b. b.kept ≡ kept) }
    ensures first { IfOk result (λ b. b.first.value ≡ first) }
    ensures second { IfOk result (λ b. b.second.value ≡ second) }
{
    let first = Box::new(alloc, first)?;
    let second = Box::new(alloc, second)?;
    Ok(TwoBoxes {
        kept,
        first,
        second,
    })
}
