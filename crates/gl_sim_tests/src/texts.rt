//! Texts as a row tells them.
//!
//! gl_query_tests has this file too: gl_bits is all that both use, and no row belongs into it, since the
//! program stands on it.

use std::alloc::{AllocError, Global};

// The bytes of a piece, with those that are told by their numbers.
fn push_piece(out: &mut Vec<u8>, piece: &str) -> Result<(), AllocError> {
    let mut rest = piece;
    for _part in 0..=piece.len() {
        let Some((plain, more)) = rest.split_once('\\') else {
            return out.extend_from_slice(rest.as_bytes());
        };
        out.extend_from_slice(plain.as_bytes())?;
        let number = more.get(0..3).unwrap_or("");
        out.push(number.parse::<u8>().unwrap_or(0))?;
        rest = more.get(3..).unwrap_or("");
    }
    Ok(())
}

// The bytes of `9*T`, nine times T.
fn push_times(out: &mut Vec<u8>, piece: &str) -> Result<(), AllocError> {
    let (number, text) = piece.split_once('*').unwrap_or(("0", ""));
    for _time in 0..number.parse::<usize>().unwrap_or(0) {
        push_piece(out, text)?;
    }
    Ok(())
}

/// The bytes of a text as it is told.
pub fn bytes_of(alloc: Global, text: &str) -> Result<Vec<u8>, AllocError> {
    let mut out = Vec::new(alloc);
    let mut rest = text;
    for _part in 0..=text.len() {
        let Some((plain, more)) = rest.split_once('`') else {
            push_piece(&mut out, rest)?;
            return Ok(out);
        };
        push_piece(&mut out, plain)?;
        let (times, tail) = more.split_once('`').unwrap_or((more, ""));
        push_times(&mut out, times)?;
        rest = tail;
    }
    Ok(out)
}
