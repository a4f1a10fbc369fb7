//! A case: what a run is given, and what is asked of it.
use crate::desk::Desk;
use crate::fields::{byte, bytes, expanded, number, numbers, pick, quoted};
use crate::serving::{Given, Limits};
use crate::show::Show;
use crate::stops::Look;
use anyhow::{Result, ensure};
use std::alloc::{AllocError, Global};

/// A run with its disk, and what is asked of it.
#[derive(Drop)]
pub struct Case {
    pub given: Given,
    /// The disk's bytes, unless the run goes on.
    pub image: Vec<u8>,
    pub disk: Limits,
    /// Whether the disk is the one that the case before left, with its calls.
    pub goes_on: bool,
    /// Which bytes of the disk are shown.
    pub shows: Vec<Show>,
    /// The name of the image that the disk's bytes are compared with.
    pub compare: Option<String>,
    /// The name under which the disk's bytes are kept.
    pub keep: Option<String>,
    /// Whether it is shown what the words plan.
    pub plan: bool,
    /// Whether the ends are shown that no case has.
    pub ends: bool,
    /// Whether the numbers of the history's entries are shown.
    pub entries: bool,
    /// Whether it is shown what stops leave.
    pub stops: bool,
    pub look: Look,
    /// Whether each call of the disk is made to fail in turn.
    pub fails: bool,
}

fn add_text(script: &mut Vec<u8>, text: &str) -> Result<(), AllocError> {
    script.extend_from_slice(text.as_bytes())?;
    script.extend_from_slice(b"\n")
}

// Lays bytes over an image. What would stand behind its end is lost.
fn lay(image: &mut Vec<u8>, at: u64, bytes: &[u8]) {
    for (place, byte) in image.iter_mut().skip(at as usize).zip(bytes) {
        *place = *byte;
    }
}

impl Case {
    /// `exec` with an empty script on this image.
    pub fn new(alloc: Global, image: &[u8]) -> Result<Case, AllocError> {
        Ok(Case {
            given: Given::exec(alloc, b"")?,
            image: image.to_vec(alloc)?,
            disk: Limits::new(alloc),
            goes_on: false,
            shows: Vec::new(alloc),
            compare: None,
            keep: None,
            plan: false,
            ends: false,
            entries: false,
            stops: false,
            look: Look::new(alloc),
            fails: false,
        })
    }

    /// Reads a line of the case.
    pub fn read(&mut self, alloc: Global, desk: &Desk, line: &str) -> Result<()> {
        if line.starts_with('#') {
            return Ok(());
        }
        let line = expanded(alloc, line)?;
        let line = line.as_str();
        if let Some(text) = line.strip_prefix('|') {
            add_text(&mut self.given.script, text)?;
        } else if let Some(text) = line.strip_prefix('?') {
            add_text(&mut self.look.script, text)?;
        } else if let Some(text) = line.strip_prefix("words") {
            self.given.words = quoted(alloc, text)?;
        } else {
            let words: Vec<&str> = line.split(' ').collect(alloc)?;
            self.read_words(alloc, desk, &words)?;
        }
        Ok(())
    }

    fn read_words(&mut self, alloc: Global, desk: &Desk, words: &[&str]) -> Result<()> {
        let is_read = self.read_disk(alloc, desk, words)?
            || self.read_given(alloc, words)?
            || self.read_asks(alloc, words)?;
        ensure!(is_read, "no such line");
        Ok(())
    }

    // Reads a line on the disk, and says whether it is one.
    fn read_disk(&mut self, alloc: Global, desk: &Desk, words: &[&str]) -> Result<bool> {
        match words {
            ["filled", len, text] => {
                self.image = vec![in alloc; byte(text)?; number(len)? as usize]?;
            }
            ["image", name] => self.image = desk.kept(name)?.to_vec(alloc)?,
            ["stop", calls, texts @ ..] => {
                self.image = desk.stopped(alloc, number(calls)?, pick(texts)?)?;
            }
            ["goes", "on"] => self.goes_on = true,
            ["at", at, texts @ ..] => lay(&mut self.image, number(at)?, &bytes(alloc, texts)?),
            ["fail", "disk", calls @ ..] => self.disk.fails = numbers(alloc, calls)?,
            ["room", "disk", len] => self.disk.room = number(len)?,
            _ => return Ok(false),
        }
        Ok(true)
    }

    // The same of a line on what else the run is given.
    fn read_given(&mut self, alloc: Global, words: &[&str]) -> Result<bool> {
        let given = &mut self.given;
        match words {
            ["hex", texts @ ..] => given.script.extend_from_slice(&bytes(alloc, texts)?)?,
            ["cut", count] => given.cut = number(count)? as usize,
            ["fail", "source", calls @ ..] => given.source = numbers(alloc, calls)?,
            ["fail", "sink", calls @ ..] => given.sink.fails = numbers(alloc, calls)?,
            ["room", "sink", len] => given.sink.room = number(len)?,
            _ => return Ok(false),
        }
        Ok(true)
    }

    // The same of a line on what is asked.
    fn read_asks(&mut self, alloc: Global, words: &[&str]) -> Result<bool> {
        match words {
            ["show", at, lens @ ..] => self.shows.push(Show::read(alloc, at, lens)?)?,
            ["look", at, lens @ ..] => self.look.shows.push(Show::read(alloc, at, lens)?)?,
            ["compare", name] => self.compare = Some(String::from_str(alloc, name)?),
            ["keep", name] => self.keep = Some(String::from_str(alloc, name)?),
            ["plan"] => self.plan = true,
            ["ends"] => self.ends = true,
            ["entries"] => self.entries = true,
            ["stops"] => self.stops = true,
            ["fails"] => self.fails = true,
            _ => return Ok(false),
        }
        Ok(true)
    }
}
