//! The pieces of a row.

use gl_bits::Memory;
use percent_encoding::percent_decode;
use std::alloc::Global;

/// The bytes that a text stands for.
pub fn bytes_of(alloc: Global, text: &str) -> Result<Vec<u8>, Memory> {
    let mut bytes = Vec::new(alloc);
    percent_decode(text.as_bytes()).append_to(&mut bytes)?;
    Ok(bytes)
}

/// A number in front of a blank, and what stands behind it.
pub fn number_before(text: &str) -> (u64, &str) {
    let (number, rest) = word_before(text);
    (number.parse::<u64>().unwrap_or(0), rest)
}

/// A word in front of a blank, and what stands behind it.
pub fn word_before(text: &str) -> (&str, &str) {
    text.split_once(' ').unwrap_or((text, ""))
}

/// The numbers between these separators.
pub fn numbers_of(alloc: Global, text: &str, separator: char) -> Result<Vec<u128>, Memory> {
    let mut numbers = Vec::new(alloc);
    for word in text.split(separator) {
        if let Ok(number) = word.parse::<u128>() {
            numbers.push(number)?;
        }
    }
    Ok(numbers)
}
