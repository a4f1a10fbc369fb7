//! Runs over a disk, a source and a sink in memory.
use sis_cli::{Exit, Outcome, run};
use sis_disk::{CounterGuids, Memory, MemorySink, MemorySource};
use sis_model::History;
use std::alloc::{AllocError, Global};

/// The room of a disk's record or of a sink, in bytes, where a case gives none.
const ROOM: u64 = 1_000_000;

/// When an object in memory fails: at the calls with these numbers, and once its room is full.
#[derive(Drop)]
pub struct Limits {
    pub fails: Vec<u64>,
    pub room: u64,
}

impl Limits {
    pub fn new(alloc: Global) -> Limits {
        Limits {
            fails: Vec::new(alloc),
            room: ROOM,
        }
    }

    /// The same, and a call more that fails.
    pub fn failing_at(&self, alloc: Global, call: u64) -> Result<Limits, AllocError> {
        let mut fails = self.fails.to_vec(alloc)?;
        fails.push(call)?;
        Ok(Limits {
            fails,
            room: self.room,
        })
    }
}

/// A disk with these bytes.
pub fn disk_of(alloc: Global, image: &[u8], limits: &Limits) -> Result<Memory, AllocError> {
    let fails = limits.fails.to_vec(alloc)?;
    Memory::new(alloc, image.to_vec(alloc)?, fails, limits.room)
}

/// What a run is given besides its disk.
#[derive(Drop)]
pub struct Given {
    pub words: Vec<String>,
    pub script: Vec<u8>,
    /// How many bytes of the script a read gives.
    pub cut: usize,
    /// The reads that fail.
    pub source: Vec<u64>,
    pub sink: Limits,
}

impl Given {
    /// `exec i` with this script, where nothing fails.
    pub fn exec(alloc: Global, script: &[u8]) -> Result<Given, AllocError> {
        let mut words = Vec::new(alloc);
        for word in ["exec", "i"] {
            words.push(String::from_str(alloc, word)?)?;
        }
        Ok(Given {
            words,
            script: script.to_vec(alloc)?,
            cut: 4096,
            source: Vec::new(alloc),
            sink: Limits::new(alloc),
        })
    }
}

/// The numbers of calls by which an entry was decided and answered.
#[derive(Clone, Copy)]
pub struct Counts {
    pub decided: u64,
    pub answered: u64,
}

/// What a run leaves.
#[derive(Drop)]
pub struct Left {
    pub exit: Exit,
    pub entries: Vec<Counts>,
    pub disk: Memory,
    pub printed: String,
}

fn counts_of(alloc: Global, history: &History) -> Result<Vec<Counts>, AllocError> {
    let mut entries = Vec::new(alloc);
    for entry in history.as_slice() {
        entries.push(Counts {
            decided: entry.decided,
            answered: entry.answered,
        })?;
    }
    Ok(entries)
}

/// Lends the words.
pub fn as_strs(alloc: Global, words: &[String]) -> Result<Vec<&str>, AllocError> {
    let mut strs = Vec::new(alloc);
    for word in words {
        strs.push(word.as_str())?;
    }
    Ok(strs)
}

/// Serves the words on a disk. A run that ends for want of memory is none.
pub fn serve(alloc: Global, given: &Given, disk: Memory) -> Result<Left, AllocError> {
    let words = as_strs(alloc, &given.words)?;
    let script = given.script.to_vec(alloc)?;
    let mut input = MemorySource::new(script, given.cut.max(1), given.source.to_vec(alloc)?);
    let mut out = MemorySink::new(alloc, given.sink.fails.to_vec(alloc)?, given.sink.room)?;
    let guids = CounterGuids::new(1);
    let Outcome {
        status,
        history,
        disk,
    } = run(alloc, &words, disk, &mut input, &mut out, guids);
    if status == Exit::Memory {
        return Err(AllocError);
    }
    Ok(Left {
        exit: status,
        entries: counts_of(alloc, &history)?,
        disk,
        printed: String::from_utf8_lossy(alloc, out.written())?,
    })
}
