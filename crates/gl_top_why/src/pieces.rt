//! The words and signs of a text, with their places.

use std::alloc::{AllocError, Global};

// The bytes from one place up to another.
#[derive(Clone, Copy)]
struct Piece {
    begins: usize,
    ends: usize,
}

/// The words and signs of a text, in order. Comments and white space are none.
#[derive(Drop)]
pub(crate) struct Pieces<'a> {
    text: &'a [u8],
    list: Vec<Piece>,
}

// What stands behind some bytes.
#[derive(Clone, Copy, PartialEq, Eq)]
enum Class {
    Blank,
    Word,
    Sign(u8),
    Pair,
    Quoted(u8),
    Comment,
}

// Whether a byte belongs to a word.
pub(crate) fn is_word_byte(byte: u8) -> bool {
    matches!(byte, b'a'..=b'z' | b'A'..=b'Z' | b'0'..=b'9' | b'_')
}

// Whether two signs are one.
fn is_pair(first: u8, second: u8) -> bool {
    matches!(
        (first, second),
        (b'<', b'=' | b'>' | b'<')
            | (b'>', b'=' | b'>')
            | (b'!' | b'=', b'=')
            | (b'|', b'|')
            | (b'&', b'&')
            | (b':', b':')
            | (b'/', b'*' | b'/')
    )
}

// The class of a byte where a piece begins.
fn fresh(byte: u8) -> Class {
    match byte {
        b' ' | b'\t' | b'\r' | b'\n' => Class::Blank,
        b'\'' | b'"' | b'`' => Class::Quoted(byte),
        _ if is_word_byte(byte) => Class::Word,
        _ => Class::Sign(byte),
    }
}

// The class behind a byte, and whether a piece begins at it.
fn step(class: Class, byte: u8) -> (Class, bool) {
    match class {
        Class::Quoted(quote) if byte == quote => (Class::Pair, false),
        Class::Quoted(_) | Class::Comment if byte == b'\n' => (Class::Blank, true),
        Class::Quoted(_) | Class::Comment => (class, false),
        Class::Word if is_word_byte(byte) => (class, false),
        Class::Sign(b'-') if byte == b'-' => (Class::Comment, false),
        Class::Sign(first) if is_pair(first, byte) => (Class::Pair, false),
        _ => (fresh(byte), true),
    }
}

// Adds a piece, unless it is a comment or white space.
fn keep(list: &mut Vec<Piece>, class: Class, begins: usize, ends: usize) -> Result<(), AllocError> {
    match class {
        Class::Blank | Class::Comment => Ok(()),
        _ => {
            list.push(Piece { begins, ends })?;
            Ok(())
        }
    }
}

/// The words and signs of a text.
pub(crate) fn pieces_of(alloc: Global, text: &[u8]) -> Result<Pieces<'_>, AllocError> {
    let mut list = Vec::new(alloc);
    let mut class = Class::Blank;
    let mut begins = 0;
    let mut at = 0usize;
    for byte in text {
        let (next, is_new) = step(class, *byte);
        if is_new {
            keep(&mut list, class, begins, at)?;
            begins = at;
        }
        class = next;
        at = at.saturating_add(1);
    }
    keep(&mut list, class, begins, at)?;
    Ok(Pieces { text, list })
}

// Whether a byte is another one, or its capital.
fn is_letter(byte: u8, small: u8) -> bool {
    byte == small || byte.wrapping_add(32) == small && matches!(byte, b'A'..=b'Z')
}

/// Whether a word is this one of small letters, in letters of either case.
pub(crate) fn is_spelled(word: &[u8], small: &[u8]) -> bool {
    word.len() == small.len() && word.iter().zip(small).all(|(a, b)| is_letter(*a, *b))
}

/// Whether a piece is this sign.
pub(crate) fn is_sign(piece: &[u8], sign: u8) -> bool {
    matches!(piece, [one] if *one == sign)
}

/// Whether a word is one of these, in letters of either case.
pub(crate) fn is_one_of(word: &[u8], words: &[&[u8]]) -> bool {
    words.iter().any(|small| is_spelled(word, small))
}

impl<'a> Pieces<'a> {
    /// How many there are.
    pub(crate) fn len(&self) -> usize {
        self.list.len()
    }

    /// The piece at a place among them; no byte where there is none.
    pub(crate) fn get(&self, at: usize) -> &'a [u8] {
        match self.list.get(at) {
            Some(piece) => self.text.get(piece.begins..piece.ends).unwrap_or(b""),
            None => b"",
        }
    }

    /// The piece so many before that one; no byte where there is none.
    pub(crate) fn before(&self, at: usize, count: usize) -> &'a [u8] {
        match at.checked_sub(count) {
            Some(place) => self.get(place),
            None => b"",
        }
    }

    /// Which of them the byte at a place belongs to, or else the next one.
    pub(crate) fn find(&self, byte: u64) -> usize {
        match self.list.iter().position(|piece| piece.ends as u64 > byte) {
            Some(place) => place,
            None => self.list.len(),
        }
    }

    /// Whether a piece begins with the byte at a place; the end of the text begins anywhere.
    pub(crate) fn begins_at(&self, at: usize, byte: u64) -> bool {
        match self.list.get(at) {
            Some(piece) => piece.begins as u64 == byte,
            None => true,
        }
    }

    /// The bracket that is open in front of a piece, if one is.
    pub(crate) fn open_before(&self, at: usize) -> Option<usize> {
        let mut closed = 0u64;
        for place in (0..at).rev() {
            match self.get(place) {
                b")" | b"]" => closed = closed.saturating_add(1),
                b"(" | b"[" if closed == 0 => return Some(place),
                b"(" | b"[" => closed = closed.saturating_sub(1),
                _ => {}
            }
        }
        None
    }

    /// The last keyword of a clause in front of a piece, outside of the brackets that are closed there; no
    /// byte where there is none.
    pub(crate) fn clause(&self, at: usize) -> &'a [u8] {
        let mut closed = 0u64;
        for place in (0..at).rev() {
            let word = self.get(place);
            match word {
                b")" | b"]" => closed = closed.saturating_add(1),
                b"(" | b"[" => closed = closed.saturating_sub(1),
                _ if closed == 0 && is_one_of(word, &CLAUSES) => return word,
                _ => {}
            }
        }
        b""
    }
}

// The keywords with which a clause begins.
const CLAUSES: [&[u8]; 9] = [
    b"select", b"from", b"where", b"by", b"into", b"in", b"groups", b"each", b"having",
];
