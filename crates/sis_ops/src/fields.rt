//! Fields of a line.
use anyhow::{Context, Result};
use std::alloc::{AllocError, Global};

/// A decimal number.
pub fn number(text: &str) -> Result<u64> {
    text.parse::<u64>().context("no number")
}

pub fn numbers(alloc: Global, texts: &[&str]) -> Result<Vec<u64>> {
    let mut numbers = Vec::new(alloc);
    for text in texts {
        numbers.push(number(text)?)?;
    }
    Ok(numbers)
}

/// A byte of two hex digits.
pub fn byte(text: &str) -> Result<u8> {
    u8::from_str_radix(text, 16).context("no byte")
}

/// The words of a line. What stands in quotation marks is one word.
pub fn words<'a>(alloc: Global, line: &'a str) -> Result<Vec<&'a str>, AllocError> {
    let mut words = Vec::new(alloc);
    let mut is_quoted = false;
    for piece in line.split('"') {
        if is_quoted {
            words.push(piece)?;
        } else {
            for word in piece.split_whitespace() {
                words.push(word)?;
            }
        }
        is_quoted = !is_quoted;
    }
    Ok(words)
}

/// The line with each `<COUNT TEXT>` as so many times the text.
pub fn expanded(alloc: Global, line: &str) -> Result<String> {
    let mut pieces = line.split('<');
    let mut all = String::from_str(alloc, pieces.next().unwrap_or(""))?;
    for piece in pieces {
        let (group, rest) = piece.split_once('>').context("no end of a group")?;
        let (count, text) = group.split_once(' ').context("no text in a group")?;
        all.push_str(text.repeat(alloc, number(count)? as usize)?.as_str())?;
        all.push_str(rest)?;
    }
    Ok(all)
}
