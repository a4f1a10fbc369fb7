//! A source and a sink in memory.
use crate::fields::{number, numbers};
use anyhow::Result;
use sis_disk::{MemorySink, MemorySource, Sink, Source};
use std::alloc::Global;
use std::fmt::Write;

/// What four reads give of these bytes, at most `cut` of them at a time, where some reads fail.
pub fn source(alloc: Global, bytes: &[u8], cut: &str, fails: &[&str]) -> Result<String> {
    let cut = number(cut)?.max(1) as usize;
    let mut source = MemorySource::new(bytes.to_vec(alloc)?, cut, numbers(alloc, fails)?);
    let mut out = String::new(alloc);
    let mut got = [0; 64];
    for _ in 0..4 {
        match source.read(&mut got) {
            Ok(0) => out.push_str("read -\n")?,
            Ok(count) => writeln!(out, "read {}", hex::encode(alloc, &got[..count])?)?,
            Err(fault) => writeln!(out, "{fault}")?,
        }
    }
    Ok(out)
}

/// What a sink with so much room keeps of these writes, where the one of this number fails.
pub fn sink(alloc: Global, room: &str, fails: &str, texts: &[&str]) -> Result<String> {
    let mut sink = MemorySink::new(alloc, numbers(alloc, &[fails])?, number(room)?)?;
    let mut out = String::new(alloc);
    for text in texts {
        match sink.write(&hex::decode(alloc, *text)?) {
            Ok(()) => out.push_str("written\n")?,
            Err(fault) => writeln!(out, "{fault}")?,
        }
    }
    writeln!(out, "kept {}", hex::encode(alloc, sink.written())?)?;
    Ok(out)
}
