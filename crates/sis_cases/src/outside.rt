//! What lies outside of the program: a file as a disk, as a sink and as a source; and GUIDs.
use anyhow::{Result, ensure};
use sis_disk::{
    CounterGuids, Disk, Guids, ImageFile, RandomGuids, Sink, Source, StdSink, StdSource,
};
use std::alloc::Global;
use std::fs;
use std::fs::{File, OpenOptions};

/// The file, which is made where the program runs, and removed again.
const PATH: &str = "file.bin";

/// Gives a file these bytes, writes others over them as to a disk, and reads all of them.
pub fn file(rt: &HostRuntime, bytes: &[u8], at: u64, over: &[u8]) -> Result<String> {
    let alloc = rt.alloc();
    fs::write(rt, PATH, bytes)?;
    let file = OpenOptions::new().read(true).write(true).open(rt, PATH)?;
    let mut disk = ImageFile::new(file)?;
    let len = disk.len();
    ensure!(at <= len && over.len() as u64 <= len - at, "no such bytes");
    let mut got = vec![in alloc; 0; len as usize]?;
    disk.write(at, over)?;
    disk.sync()?;
    disk.read(0, &mut got)?;
    let (calls, faults) = (disk.calls(), disk.faults());
    let read = hex::encode(alloc, &got)?;
    let kept = hex::encode(alloc, &fs::read(rt, PATH)?)?;
    fs::remove_file(rt, PATH)?;
    Ok(format!(in alloc; "read {read}, kept {kept}; calls {calls}, faults {faults}")?)
}

/// Writes each of these bytes to a file as to a sink, and reads it as a source to its end.
pub fn stream(rt: &HostRuntime, texts: &[&str]) -> Result<String> {
    let alloc = rt.alloc();
    let mut sink = StdSink::new(File::create(rt, PATH)?);
    for text in texts {
        sink.write(&hex::decode(alloc, *text)?)?;
    }
    let mut source = StdSource::new(File::open(rt, PATH)?);
    let mut got = [0; 64];
    let count = source.read(&mut got)?;
    let rest = source.read(&mut [0; 64])?;
    fs::remove_file(rt, PATH)?;
    let read = hex::encode(alloc, &got[..count])?;
    Ok(format!(in alloc; "read {read}, and then {rest} bytes")?)
}

/// The GUIDs with this number and the next one.
pub fn counted(alloc: Global, number: u64) -> Result<String> {
    let mut guids = CounterGuids::new(number);
    let (one, two) = (guids.next(), guids.next());
    let (one, two) = (hex::encode(alloc, &one)?, hex::encode(alloc, &two)?);
    Ok(format!(in alloc; "{one} {two}")?)
}

/// Whether two random GUIDs differ, and their versions.
pub fn random(rt: &HostRuntime) -> Result<String> {
    let mut guids = RandomGuids::new(rt);
    let (one, two) = (guids.next(), guids.next());
    let differ = one != two;
    let (first, second) = (one[7] >> 4, two[7] >> 4);
    Ok(format!(in rt.alloc(); "different: {differ}, versions {first} and {second}")?)
}
