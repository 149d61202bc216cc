//! Whole texts from a shelf.

ghost use Rattle.std.specs.Prelude.{◌≡◌, ◌+◌, ◌<◌, ◌≤◌, ◌++◌, [], length, IfOk, IfErr, OnOk, Contains, vec_len};
ghost use Rattle.gl_outside.specs.Told.{IfTold};
ghost use Rattle.gl_outside.specs.States.{Stays, ReadLeaves};
ghost use Rattle.gl_outside.specs.Reads.{IsAdd, Refuses};

use crate::shelf::{Fetch, Shelf, TEXT_LIMIT};
use std::alloc::{AllocError, Global};
use thiserror::Error;

/// Why a text was not read.
#[derive(Clone, Copy, PartialEq, Eq, Debug, Error)]
pub enum ReadFault {
    /// No text has the name.
    #[error("no text has the name")]
    Missing,
    /// The shelf failed.
    #[error("the text could not be read")]
    Failed,
    /// The text has more than `TEXT_LIMIT` bytes.
    #[error("the text is too long")]
    TooLong,
    /// Want of memory.
    #[error("out of memory")]
    Memory,
}

impl From<AllocError> for ReadFault {
    ghost use Rattle.std.specs.Prelude.{◌≡◌};
    ghost use Rattle.gl_outside.specs.declared.reading.ReadFault.TheVariants as fault;

    ghost from_gives = { λ _ e. e ≡ fault.Memory };

    fn from(_e: AllocError) -> ReadFault {
        ReadFault::Memory
    }
}

// The most bytes of one fetch.
const PIECE: usize = 65_536;

/// Reads the whole text of a name, in pieces of 65,536 bytes.
///
/// A text of more than `TEXT_LIMIT` bytes is refused, and never kept whole.
pub fn read_all<S: Shelf>(alloc: Global, shelf: &mut S, name: &str) -> Result<Vec<u8>, ReadFault>
    requires { Contains (S.state shelf.old).names name.now }
    // The whole text, where the shelf tells it.
    ensures text { let told = (S.state shelf.old).told name.now in
        IfOk result (λ v. IfTold told (λ text. v.items ≡ text)) }
    ensures size { IfOk result (λ v. vec_len v ≤ TEXT_LIMIT) }
    // A refusal has its cause and leaves its name; any other answer leaves the counts and the name.
    ensures refuses { Refuses ((S.state shelf.old).told name.now) result }
    ensures counts { ReadLeaves (S.state shelf.old) (S.state shelf.new) name.now result }
    // The names and the texts stay.
    ensures stays { Stays (S.state shelf.old) (S.state shelf.new) }
{
    let mut piece = new_piece(alloc)?;
    let mut text = Vec::new(alloc);
    read_into(shelf, name, piece.as_mut_slice(), &mut text)?;
    Ok(text)
}

// The buffer for a piece.
fn new_piece(alloc: Global) -> Result<Vec<u8>, ReadFault>
    ensures piece { IfOk result (λ v. vec_len v ≡ PIECE) }
    ensures memory { IfErr result (λ fault. fault ≡ ReadFault.Memory) }
{
    Ok(vec![in alloc; 0u8; PIECE]?)
}

// Adds a piece to the text, unless the text then passes the limit.
fn add(text: &mut Vec<u8>, piece: &[u8]) -> Result<(), ReadFault>
    requires { vec_len text.old ≤ TEXT_LIMIT }
    ensures added { OnOk result (text.new.items ≡ text.old.items ++ piece.now) }
    ensures size { OnOk result (vec_len text.new ≡ vec_len text.old + length piece.now) }
    ensures within { OnOk result (vec_len text.new ≤ TEXT_LIMIT) }
    ensures refused { IsAdd (vec_len text.old + length piece.now) result }
{
    let left = TEXT_LIMIT - text.len() as u64;
    if piece.len() as u64 > left {
        return Err(ReadFault::TooLong);
    }
    text.extend_from_slice(piece)?;
    Ok(())
}

// Reads the whole text behind what is an empty list, piece by piece.
#[tactic(auto, using(crate::proofs::Readings::readings, crate::proofs::Counting::counting))]
fn read_into<S: Shelf>(
    shelf: &mut S,
    name: &str,
    piece: &mut [u8],
    text: &mut Vec<u8>,
) -> Result<(), ReadFault>
    requires listed { Contains (S.state shelf.old).names name.now }
    requires room { 0 < length piece.old }
    requires empty { text.old.items ≡ [] }
    ensures text { let told = (S.state shelf.old).told name.now in
        OnOk result (IfTold told (λ whole. text.new.items ≡ whole)) }
    ensures size { OnOk result (vec_len text.new ≤ TEXT_LIMIT) }
    ensures refuses { Refuses ((S.state shelf.old).told name.now) result }
    ensures counts { ReadLeaves (S.state shelf.old) (S.state shelf.new) name.now result }
    ensures stays { Stays (S.state shelf.old) (S.state shelf.new) }
{
    loop {
        match shelf.fetch(name, text.len() as u64, piece) {
            Fetch::Got(n) => add(text, &piece[..n])?,
            Fetch::End => return Ok(()),
            Fetch::Missing => return Err(ReadFault::Missing),
            Fetch::Failed => return Err(ReadFault::Failed),
            Fetch::Memory => return Err(ReadFault::Memory),
        }
    }
}
