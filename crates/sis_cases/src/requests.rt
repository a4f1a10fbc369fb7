//! What bytes are as a copy request.
ghost use Rattle.sis_request.specs.Request.{IsLentName};

use anyhow::Result;
use sis_request::{CopyRequest, read, write};
use std::alloc::Global;
use std::fmt::Write;

// The request's fields, and its bytes when it is written again.
fn add_request(alloc: Global, out: &mut String, request: &CopyRequest<'_>) -> Result<()>
    requires source { IsLentName request.now.source.now }
    requires destination { IsLentName request.now.destination.now }
{
    let source = hex::encode(alloc, request.source)?;
    let destination = hex::encode(alloc, request.destination)?;
    let mut bytes = Vec::new(alloc);
    write(request, &mut bytes)?;
    let again = hex::encode(alloc, &bytes)?;
    writeln!(out, "flags {:08x}", request.flags)?;
    writeln!(out, "source {source}")?;
    writeln!(out, "destination {destination}")?;
    writeln!(out, "written {again}")?;
    Ok(())
}

/// The request that the bytes are, or their first fault.
pub fn shown(alloc: Global, bytes: &[u8]) -> Result<String> {
    let mut out = String::new(alloc);
    match read(bytes) {
        Ok(request) => add_request(alloc, &mut out, &request)?,
        Err(fault) => writeln!(out, "{fault}")?,
    }
    Ok(out)
}
