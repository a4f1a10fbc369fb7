//! Fields of a line.
use anyhow::{Context, Result, bail};
use sis_disk::Pick;
use std::alloc::Global;

/// A decimal number.
pub fn number(text: &str) -> Result<u64> {
    text.parse::<u64>().context("no number")
}

pub fn numbers(alloc: Global, texts: &[&str]) -> Result<Vec<u64>> {
    let mut numbers = Vec::new(alloc);
    for text in texts {
        numbers.push(number(text)?)?;
    }
    Ok(numbers)
}

/// A byte of two hex digits.
pub fn byte(text: &str) -> Result<u8> {
    u8::from_str_radix(text, 16).context("no byte")
}

/// Bytes in hex, which spaces may divide.
pub fn bytes(alloc: Global, texts: &[&str]) -> Result<Vec<u8>> {
    let mut bytes = Vec::new(alloc);
    for text in texts {
        bytes.extend_from_slice(&hex::decode(alloc, *text)?)?;
    }
    Ok(bytes)
}

/// An image of those that a stop leaves.
pub fn pick(texts: &[&str]) -> Result<Pick> {
    match texts {
        ["old"] => Ok(Pick::Old),
        ["new"] => Ok(Pick::New),
        ["fill", text] => Ok(Pick::Fill(byte(text)?)),
        ["front", text] => Ok(Pick::Front(number(text)?)),
        _ => bail!("no pick"),
    }
}
