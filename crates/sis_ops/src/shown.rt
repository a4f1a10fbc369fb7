//! What comes of a line.
use crate::refusal::Refusal;
use sis_disk::Memory;
use sis_volume::Volume;
use std::alloc::{AllocError, Global};
use std::fmt::Write;

/// What came of a call, with the disk's numbers of calls and faults so far.
pub fn ended(alloc: Global, volume: &Volume<Memory>, came: &str) -> Result<String, AllocError> {
    let (calls, faults) = (volume.calls(), volume.faults());
    format!(in alloc; "{came}; calls {calls}, faults {faults}")
}

/// How an operation ended.
pub fn done(alloc: Global, came: Result<(), Refusal>) -> Result<String, AllocError> {
    match came {
        Ok(()) => String::from_str(alloc, "done"),
        Err(refusal) => refusal.to_string(alloc),
    }
}

/// Bytes that were read, as runs of equal ones.
pub fn bytes(alloc: Global, came: Result<Vec<u8>, Refusal>) -> Result<String, AllocError> {
    match came {
        Ok(bytes) if bytes.is_empty() => String::from_str(alloc, "nothing"),
        Ok(bytes) => runs(alloc, &bytes),
        Err(refusal) => refusal.to_string(alloc),
    }
}

fn runs(alloc: Global, bytes: &[u8]) -> Result<String, AllocError> {
    let mut out = String::new(alloc);
    for run in bytes.chunk_by(|one, next| one == next) {
        if !out.is_empty() {
            out.push_str(" ")?;
        }
        if let Some(byte) = run.first() {
            write!(out, "{byte:02x}*{}", run.len())?;
        }
    }
    Ok(out)
}

/// A file's numbers.
pub fn file(alloc: Global, volume: &Volume<Memory>, file: u64) -> Result<String, AllocError> {
    match volume.node(file) {
        Some(node) => {
            let (size, version, runs) = (node.size, node.version, node.map.runs().len());
            format!(in alloc; "size {size}, version {version}, runs {runs}")
        }
        None => Refusal::NoFile.to_string(alloc),
    }
}

/// How many data blocks are mapped, how many can be taken without a commit, and how many there are;
/// and the table's length, with the greatest one.
pub fn space(alloc: Global, volume: &Volume<Memory>) -> Result<String, AllocError> {
    let (used, spare, total) = (volume.used(), volume.spare(), volume.total());
    let (len, cap) = (volume.table_len(), volume.table_cap());
    format!(in alloc; "used {used}, spare {spare} of {total}; table {len} of {cap}")
}
