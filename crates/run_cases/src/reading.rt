//! Reading the values of lines.

use std::alloc::Global;
use wl_elem::Memory;
use wl_io::Calls;

/// A number in decimal digits, and what stands behind the space after it.
pub fn counted(value: &str) -> Option<(u32, &str)> {
    let (digits, rest) = value.split_once(' ')?;
    let count = digits.parse::<u32>().ok()?;
    Some((count, rest))
}

/// Numbers of calls with single spaces between them.
pub fn calls(alloc: Global, value: &str) -> Option<Calls> {
    let mut calls = Calls::new(alloc);
    for digits in value.split(' ') {
        let number = digits.parse::<u64>().ok()?;
        calls.push(number).ok()?;
    }
    Some(calls)
}

/// Words with single spaces between them; no words of nothing.
pub fn words(alloc: Global, value: &str) -> Option<Vec<String>> {
    let mut words = Vec::new(alloc);
    if value.is_empty() {
        return Some(words);
    }
    for word in value.split(' ') {
        let word = String::from_str(alloc, word).ok()?;
        words.push(word).ok()?;
    }
    Some(words)
}

/// Adds a text so many times.
pub fn push_times(input: &mut Vec<u8>, count: u32, text: &[u8]) -> Result<(), Memory> {
    for _ in 0..count {
        input.extend_from_slice(text)?;
    }
    Ok(())
}

/// A text with the new part in the place of the first old one.
pub fn swapped(alloc: Global, input: &[u8], value: &str) -> Option<Vec<u8>> {
    let (old, new) = value.split_once(" => ")?;
    let text = str::from_utf8(input).ok()?;
    let (front, back) = text.split_once(old)?;
    let mut swapped = Vec::from_slice(alloc, front.as_bytes()).ok()?;
    swapped.extend_from_slice(new.as_bytes()).ok()?;
    swapped.extend_from_slice(back.as_bytes()).ok()?;
    Some(swapped)
}
