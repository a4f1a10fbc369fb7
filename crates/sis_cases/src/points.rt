//! What bytes are as the reparse buffer of a SIS link.
use anyhow::Result;
use sis_reparse::{SisPoint, read, write};
use std::alloc::Global;
use std::fmt::Write;

// The buffer's fields, and its bytes when it is written again.
fn add_point(alloc: Global, out: &mut String, point: &SisPoint) -> Result<()> {
    let SisPoint {
        index,
        file,
        store,
        ..
    } = *point;
    let guid = hex::encode(alloc, &point.guid)?;
    let signature = hex::encode(alloc, &point.signature)?;
    let again = hex::encode(alloc, &write(point))?;
    writeln!(out, "guid {guid}")?;
    writeln!(out, "index {index}, file {file}, store {store}")?;
    writeln!(out, "signature {signature}")?;
    writeln!(out, "written {again}")?;
    Ok(())
}

/// The reparse buffer that the bytes are, or their first fault.
pub fn shown(alloc: Global, bytes: &[u8]) -> Result<String> {
    let mut out = String::new(alloc);
    match read(bytes) {
        Ok(point) => add_point(alloc, &mut out, &point)?,
        Err(fault) => writeln!(out, "{fault}")?,
    }
    Ok(out)
}
