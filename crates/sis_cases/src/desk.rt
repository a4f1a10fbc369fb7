//! What the lines before laid out.
use crate::disks::TextDisk;
use crate::fields::{byte, bytes, number, numbers, pick};
use crate::{outside, points, requests, streams, tables};
use anyhow::{Result, bail};
use std::alloc::{AllocError, Global};

/// Some bytes, and the disk that was made of others.
#[derive(Drop)]
pub struct Desk {
    bytes: Vec<u8>,
    disk: TextDisk,
}

// Lays bytes over others. What would stand behind their end is lost.
fn lay(bytes: &mut [u8], at: u64, over: &[u8]) {
    for (place, byte) in bytes.iter_mut().skip(at as usize).zip(over) {
        *place = *byte;
    }
}

// Adds so many bytes of this value.
fn add_filled(bytes: &mut Vec<u8>, len: u64, byte: u8) -> Result<(), AllocError> {
    bytes.resize(bytes.len().saturating_add(len as usize), byte)
}

impl Desk {
    /// No bytes, and a disk without any.
    pub fn new(alloc: Global) -> Result<Desk, AllocError> {
        Ok(Desk {
            bytes: Vec::new(alloc),
            disk: TextDisk::new(alloc, Vec::new(alloc), Vec::new(alloc))?,
        })
    }

    /// Does what a line says, and gives what comes of it.
    pub fn run(&mut self, rt: &HostRuntime, line: &str) -> Result<String> {
        let alloc = rt.alloc();
        if line.is_empty() || line.starts_with('#') {
            return Ok(String::new(alloc));
        }
        let words: Vec<&str> = line.split(' ').collect(alloc)?;
        match words.as_slice() {
            ["request"] => requests::shown(alloc, &self.bytes),
            ["point"] => points::shown(alloc, &self.bytes),
            ["table"] => tables::shown(alloc, &self.bytes),
            ["edits", most] => tables::edited(alloc, number(most)?, &self.bytes),
            ["guids", first] => outside::counted(alloc, number(first)?),
            ["guids"] => outside::random(rt),
            ["file", at, texts @ ..] => {
                outside::file(rt, &self.bytes, number(at)?, &bytes(alloc, texts)?)
            }
            ["stream", texts @ ..] => outside::stream(rt, texts),
            ["source", cut, fails @ ..] => streams::source(alloc, &self.bytes, cut, fails),
            ["sink", room, fails, texts @ ..] => streams::sink(alloc, room, fails, texts),
            words => self.use_disk(alloc, words),
        }
    }

    // Does what a line on the disk says.
    fn use_disk(&mut self, alloc: Global, words: &[&str]) -> Result<String> {
        match words {
            ["format", texts @ ..] => self.disk.format(alloc, bytes(alloc, texts)?),
            ["open"] => self.disk.open(alloc),
            ["commit", texts @ ..] => self.disk.commit(alloc, bytes(alloc, texts)?),
            ["write", at, texts @ ..] => {
                self.disk.write(alloc, number(at)?, &bytes(alloc, texts)?)
            }
            ["sync"] => self.disk.sync(alloc),
            ["stop", calls, texts @ ..] => self.disk.stop(alloc, number(calls)?, pick(texts)?),
            ["compare"] => Ok(String::from_str(alloc, self.compared())?),
            words => {
                self.lay_out(alloc, words)?;
                Ok(String::new(alloc))
            }
        }
    }

    fn compared(&self) -> &'static str {
        if self.disk.bytes() == self.bytes.as_slice() {
            "the disk has the bytes"
        } else {
            "the disk has others"
        }
    }

    // Changes the bytes, or makes a disk of them.
    fn lay_out(&mut self, alloc: Global, words: &[&str]) -> Result<()> {
        match words {
            ["filled", len, text] => {
                self.bytes = Vec::new(alloc);
                add_filled(&mut self.bytes, number(len)?, byte(text)?)?;
            }
            ["more", len, text] => add_filled(&mut self.bytes, number(len)?, byte(text)?)?,
            ["at", at, texts @ ..] => lay(&mut self.bytes, number(at)?, &bytes(alloc, texts)?),
            ["cut", len] => self.bytes.truncate(number(len)? as usize),
            ["disk", calls @ ..] => {
                let fails = numbers(alloc, calls)?;
                self.disk = TextDisk::new(alloc, self.bytes.to_vec(alloc)?, fails)?;
            }
            _ => bail!("no such line"),
        }
        Ok(())
    }
}
