//! What a caller keeps while memory may run out: where it does, all of it is dropped here. Over types
//! that are open such a way out is cheap to prove; over trees it costs seconds.

ghost use Rattle.std.specs.Prelude.{◌≡◌, ◌++◌, ◌∷◌, [], Ok, IfOk, OnOk};

use gl_bits::Listed;
use std::alloc::AllocError;

/// What was made, and what its caller keeps beside it.
#[derive(Drop)]
pub struct Beside<T, U> {
    /// What the caller keeps.
    pub kept: T,
    /// What was made.
    pub made: U,
}

/// What a call made, beside what its caller keeps.
pub fn keep_beside<T: Drop, U: Drop>(
    kept: T,
    made: Result<U, AllocError>,
) -> Result<Beside<T, U>, AllocError>
    ensures kept { IfOk result (λ b. b.kept ≡ kept) }
    ensures made { IfOk result (λ b. made ≡ Ok b.made) }
{
    let made = made?;
    Ok(Beside { kept, made })
}

/// What two calls made.
#[derive(Drop)]
pub struct Both<T, U> {
    /// What the first call made.
    pub first: T,
    /// What the second call made.
    pub second: U,
}

/// What two calls made, where neither ran out of memory.
pub fn take_both<T: Drop, U: Drop>(
    first: Result<T, AllocError>,
    second: Result<U, AllocError>,
) -> Result<Both<T, U>, AllocError>
    ensures first { IfOk result (λ b. first ≡ Ok b.first) }
    ensures second { IfOk result (λ b. second ≡ Ok b.second) }
{
    let first = first?;
    let second = second?;
    Ok(Both { first, second })
}

/// Puts a value at the end of a list.
pub fn put<T: Drop>(list: &mut Vec<T>, value: T) -> Result<(), AllocError>
    ensures { OnOk result (list.new.items ≡ list.old.items ++ value ∷ []) }
{
    list.push(value)?;
    Ok(())
}

/// A list of a tree with one more value at its end.
pub fn listed<T: Drop>(list: Listed<T>, value: T) -> Result<Listed<T>, AllocError>
    ensures { IfOk result (λ more. more ≡ list ++ value ∷ []) }
{
    let mut more = list;
    match more.push(value) {
        Ok(()) => Ok(more),
        Err(_) => Err(AllocError),
    }
}
