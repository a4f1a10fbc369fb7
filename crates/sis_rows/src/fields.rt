//! Fields of a case's lines, and of those that stand behind it.
use anyhow::{Context, Result, bail};
use sis_disk::Pick;
use std::alloc::{AllocError, Global};

/// A decimal number.
pub fn number(text: &str) -> Result<u64> {
    text.parse::<u64>().context("no number")
}

pub fn numbers(alloc: Global, texts: &[&str]) -> Result<Vec<u64>> {
    let mut numbers = Vec::new(alloc);
    for text in texts {
        numbers.push(number(text)?)?;
    }
    Ok(numbers)
}

/// A byte of two hex digits.
pub fn byte(text: &str) -> Result<u8> {
    u8::from_str_radix(text, 16).context("no byte")
}

/// Bytes in hex, which spaces may divide.
pub fn bytes(alloc: Global, texts: &[&str]) -> Result<Vec<u8>> {
    let mut bytes = Vec::new(alloc);
    for text in texts {
        bytes.extend_from_slice(&hex::decode(alloc, *text)?)?;
    }
    Ok(bytes)
}

/// The words that stand in quotation marks.
pub fn quoted(alloc: Global, text: &str) -> Result<Vec<String>> {
    let mut words = Vec::new(alloc);
    for word in text.split('"').skip(1).step_by(2) {
        words.push(String::from_str(alloc, word)?)?;
    }
    Ok(words)
}

/// An image of those that a stop leaves.
pub fn pick(texts: &[&str]) -> Result<Pick> {
    match texts {
        ["old"] => Ok(Pick::Old),
        ["new"] => Ok(Pick::New),
        ["fill", text] => Ok(Pick::Fill(byte(text)?)),
        ["front", text] => Ok(Pick::Front(number(text)?)),
        _ => bail!("no pick"),
    }
}

/// The line with each `<COUNT TEXT>` as so many times the text.
pub fn expanded(alloc: Global, line: &str) -> Result<String> {
    let mut pieces = line.split('<');
    let mut all = String::from_str(alloc, pieces.next().unwrap_or(""))?;
    for piece in pieces {
        let (group, rest) = piece.split_once('>').context("no end of a group")?;
        let (count, text) = group.split_once(' ').context("no text in a group")?;
        all.push_str(text.repeat(alloc, number(count)? as usize)?.as_str())?;
        all.push_str(rest)?;
    }
    Ok(all)
}

/// Adds a line of those that stand behind a case.
pub fn add_line(out: &mut String, line: &str) -> Result<(), AllocError> {
    out.push_str("> ")?;
    out.push_str(line)?;
    out.push_str("\n")
}

/// Adds a text to others, with a gap before it.
pub fn add(texts: &mut String, gap: &str, text: &str) -> Result<(), AllocError> {
    if !texts.is_empty() {
        texts.push_str(gap)?;
    }
    texts.push_str(text)
}
