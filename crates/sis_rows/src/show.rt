//! Bytes of an image that are shown.
use crate::fields::{add, number, numbers};
use anyhow::{Context, Result};
use std::alloc::Global;

/// Neighbouring fields of an image.
#[derive(Drop)]
pub struct Show {
    /// Where the first one begins.
    pub at: u64,
    /// How many bytes each one has.
    lens: Vec<u64>,
}

impl Show {
    /// Reads the offset, and the fields' lengths.
    pub fn read(alloc: Global, at: &str, lens: &[&str]) -> Result<Show> {
        Ok(Show {
            at: number(at)?,
            lens: numbers(alloc, lens)?,
        })
    }

    /// The fields' bytes in hex.
    pub fn text(&self, alloc: Global, image: &[u8]) -> Result<String> {
        let mut text = String::new(alloc);
        let mut rest = image.get(self.at as usize..).context("no such bytes")?;
        for len in &self.lens {
            let (field, behind) = rest
                .split_at_checked(*len as usize)
                .context("no such bytes")?;
            add(&mut text, " ", hex::encode(alloc, field)?.as_str())?;
            rest = behind;
        }
        Ok(text)
    }
}
