//! A disk that keeps a text: made an image, opened, and committed to.
use crate::plain::Plain;
use crate::tables::LAYOUT;
use anyhow::{Context, Result, bail, ensure};
use sis_disk::{BLOCK_LEN, Disk, Memory, Pick};
use sis_journal::{FormatFault, Journal, Kept, OpenFault};
use std::alloc::{AllocError, Global};
use std::fmt::Write;

/// The room for a disk's record, in bytes.
const ROOM: u64 = 1_000_000;

/// A disk in memory, and the journal that was opened on it.
#[derive(Drop)]
pub struct TextDisk {
    disk: Memory,
    journal: Option<Journal>,
}

impl TextDisk {
    /// A disk with these bytes, which fails at these calls.
    pub fn new(alloc: Global, bytes: Vec<u8>, fails: Vec<u64>) -> Result<TextDisk, AllocError> {
        Ok(TextDisk {
            disk: Memory::new(alloc, bytes, fails, ROOM)?,
            journal: None,
        })
    }

    /// The disk's bytes.
    pub fn bytes(&self) -> &[u8] {
        self.disk.bytes()
    }

    // What came of a call, with the numbers of calls and faults so far.
    fn ended(&self, alloc: Global, came: &str) -> Result<String> {
        let (calls, faults) = (self.disk.calls(), self.disk.faults());
        Ok(format!(in alloc; "{came}; calls {calls}, faults {faults}")?)
    }

    /// Writes these bytes.
    pub fn write(&mut self, alloc: Global, at: u64, bytes: &[u8]) -> Result<String> {
        let len = self.disk.len();
        ensure!(at <= len && bytes.len() as u64 <= len - at, "no such bytes");
        match self.disk.write(at, bytes) {
            Ok(()) => self.ended(alloc, "written"),
            Err(fault) => self.ended(alloc, fault.to_string(alloc)?.as_str()),
        }
    }

    pub fn sync(&mut self, alloc: Global) -> Result<String> {
        match self.disk.sync() {
            Ok(()) => self.ended(alloc, "synced"),
            Err(fault) => self.ended(alloc, fault.to_string(alloc)?.as_str()),
        }
    }

    /// The image of those that a stop after so many calls leaves.
    pub fn stop(&self, alloc: Global, calls: u64, pick: Pick) -> Result<String> {
        Ok(hex::encode(alloc, &self.disk.image(alloc, calls, pick)?)?)
    }

    /// Makes the disk an image that keeps these bytes.
    pub fn format(&mut self, alloc: Global, bytes: Vec<u8>) -> Result<String> {
        let text = Plain { bytes };
        ensure!(
            text.encoded_len() <= LAYOUT.cap(),
            "no room for so many bytes"
        );
        match Journal::format(alloc, &mut self.disk, LAYOUT, &text) {
            Ok(()) => self.ended(alloc, "formatted"),
            Err(FormatFault::Memory) => bail!("out of memory"),
            Err(fault) => self.ended(alloc, fault.to_string(alloc)?.as_str()),
        }
    }

    /// Opens the disk, and shows what it keeps.
    pub fn open(&mut self, alloc: Global) -> Result<String> {
        match Journal::open::<Memory, Plain>(alloc, &mut self.disk) {
            Ok((journal, layout, text)) => {
                self.journal = Some(journal);
                let (total, area) = (layout.total, layout.area);
                let (letter, kept) = (char::from(layout.letter), hex::encode(alloc, &text.bytes)?);
                let came = format!(in alloc; "opened {total} {area} {letter}, {kept}")?;
                self.ended(alloc, came.as_str())
            }
            Err(OpenFault::Memory) => bail!("out of memory"),
            Err(fault) => self.ended(alloc, fault.to_string(alloc)?.as_str()),
        }
    }

    /// Commits these bytes by the journal that was opened.
    pub fn commit(&mut self, alloc: Global, bytes: Vec<u8>) -> Result<String> {
        let text = Plain { bytes };
        let journal = self.journal.as_mut().context("not opened")?;
        let layout = journal.layout();
        ensure!(self.disk.len() == BLOCK_LEN * layout.total, "another disk");
        ensure!(
            text.encoded_len() <= layout.cap(),
            "no room for so many bytes"
        );
        match journal.commit(&mut self.disk, &text) {
            Ok(()) => self.ended(alloc, "committed"),
            Err(fault) => self.ended(alloc, fault.to_string(alloc)?.as_str()),
        }
    }
}
