//! The volume that the lines before left.
ghost use Rattle.std.specs.Prelude.{◌≡◌, IfOk};
ghost use Rattle.sis_disk.specs.Layout.{IsLayout};

use crate::fields::{byte, expanded, number, numbers, words};
use crate::refusal::Refusal;
use crate::{operations, shown};
use anyhow::{Context, Result, bail};
use sis_copyclose::ByteRange;
use sis_disk::{BLOCK_LEN, Layout, Memory};
use sis_volume::Volume;
use std::alloc::{AllocError, Global};
use std::time::Instant;

/// The room for a disk's record: so many times the length of its image.
const ROOM: u64 = 16;

/// The image of the disk that was opened last, and the volume that it was opened as.
#[derive(Drop)]
pub struct Desk {
    image: Vec<u8>,
    volume: Option<Volume<Memory>>,
    /// When the last line `clock` was done.
    since: Instant,
}

// The layout of an image of so many blocks.
fn layout(total: u64, area: u64) -> Result<Layout>
    ensures layout { IfOk result IsLayout }
    ensures log { IfOk result (λ l. l.log ≡ 0) }
{
    let allowed = (16..=1_048_576).contains(&total) && (1..=16_384).contains(&area);
    if !allowed || 2 + 2 * area >= total {
        bail!("no such layout");
    }
    Ok(Layout {
        total,
        area,
        log: 0,
        letter: b'C',
    })
}

// A disk with these bytes, which fails at these calls.
fn disk(alloc: Global, bytes: &[u8], fails: Vec<u64>) -> Result<Memory, AllocError> {
    let room = (bytes.len() as u64).saturating_mul(ROOM);
    Memory::new(alloc, bytes.to_vec(alloc)?, fails, room)
}

fn range(at: &str, len: &str) -> Result<ByteRange> {
    Ok(ByteRange {
        at: number(at)?,
        len: number(len)?,
    })
}

// Does an operation that changes files.
fn change(
    alloc: Global,
    volume: &mut Volume<Memory>,
    words: &[&str],
) -> Result<Result<(), Refusal>> {
    Ok(match words {
        ["put", name, len, fill] => {
            operations::put(alloc, volume, name, number(len)?, byte(fill)?)
        }
        ["write", id, at, len, fill] => {
            operations::write(alloc, volume, number(id)?, range(at, len)?, byte(fill)?)
        }
        ["size", id, len] => operations::set_size(alloc, volume, number(id)?, number(len)?),
        ["remove", id] => operations::remove(alloc, volume, number(id)?),
        ["rename", id, name] => operations::rename(alloc, volume, number(id)?, name),
        ["version", id, version] => {
            operations::set_version(alloc, volume, number(id)?, number(version)?)
        }
        ["commit"] => volume.commit().map_err(Refusal::Hindered),
        _ => bail!("no such line"),
    })
}

// Does what a line on the volume says.
fn answer(alloc: Global, volume: &mut Volume<Memory>, words: &[&str]) -> Result<String> {
    let came = match words {
        ["stat", id] => return Ok(shown::file(alloc, volume, number(id)?)?),
        ["space"] => return Ok(shown::space(alloc, volume)?),
        ["read", id, at, len] => {
            let read = operations::read(alloc, volume, number(id)?, range(at, len)?);
            shown::bytes(alloc, read)?
        }
        words => shown::done(alloc, change(alloc, volume, words)?)?,
    };
    Ok(shown::ended(alloc, volume, came.as_str())?)
}

impl Desk {
    /// No volume yet.
    pub fn new(rt: &HostRuntime) -> Result<Desk> {
        Ok(Desk {
            image: Vec::new(rt.alloc()),
            volume: None,
            since: Instant::now(rt)?,
        })
    }

    /// Does what a line says, and gives what comes of it.
    pub fn run(&mut self, rt: &HostRuntime, line: &str) -> Result<String> {
        let alloc = rt.alloc();
        if line.starts_with('#') {
            return Ok(String::new(alloc));
        }
        let line = expanded(alloc, line)?;
        let words = words(alloc, line.as_str())?;
        match words.as_slice() {
            [] => Ok(String::new(alloc)),
            ["volume", total, area, calls @ ..] => {
                self.format(alloc, layout(number(total)?, number(area)?)?)?;
                self.open(alloc, numbers(alloc, calls)?)
            }
            ["reopen", calls @ ..] => {
                self.close(alloc)?;
                self.open(alloc, numbers(alloc, calls)?)
            }
            ["clock"] => self.lap(rt),
            words => {
                let volume = self.volume.as_mut().context("no volume")?;
                answer(alloc, volume, words)
            }
        }
    }

    // How long it is since the last line `clock`.
    fn lap(&mut self, rt: &HostRuntime) -> Result<String> {
        let nanos = self.since.elapsed(rt)?.as_nanos();
        self.since = Instant::now(rt)?;
        Ok(format!(in rt.alloc(); "{nanos} ns")?)
    }

    // Makes zeros an image.
    fn format(&mut self, alloc: Global, layout: Layout) -> Result<()>
        requires layout { IsLayout layout }
        requires log { layout.log ≡ 0 }
    {
        let zeros = vec![in alloc; 0; (BLOCK_LEN * layout.total) as usize]?;
        let mut disk = disk(alloc, &zeros, Vec::new(alloc))?;
        Volume::format(alloc, &mut disk, layout)?;
        self.volume = None;
        self.image = disk.bytes().to_vec(alloc)?;
        Ok(())
    }

    // Drops the volume. What wasn't committed is lost.
    fn close(&mut self, alloc: Global) -> Result<()> {
        if let Some(volume) = self.volume.take() {
            self.image = volume.into_disk().bytes().to_vec(alloc)?;
        }
        Ok(())
    }

    // Opens a disk with the bytes of the image, which fails at these calls.
    fn open(&mut self, alloc: Global, fails: Vec<u64>) -> Result<String> {
        let disk = disk(alloc, &self.image, fails)?;
        match Volume::open(alloc, disk) {
            Ok(volume) => {
                let came = shown::ended(alloc, &volume, "opened")?;
                self.volume = Some(volume);
                Ok(came)
            }
            Err(refused) => Ok(refused.fault.to_string(alloc)?),
        }
    }
}
