//! The lines that stand behind a case. Each begins with `>`.
use crate::case::Case;
use crate::desk::Desk;
use crate::fields::{add, add_line};
use crate::serving::{Left, disk_of, serve};
use crate::stops::add_stops;
use crate::words::{add_ends, plan_of};
use anyhow::Result;
use sis_disk::Disk;
use std::alloc::{AllocError, Global};
use std::fmt::Write;

// Adds what was printed, byte for byte: where the last line has no end, nothing ends it here.
fn add_printed(out: &mut String, printed: &str) -> Result<(), AllocError> {
    for line in printed.split_inclusive('\n') {
        out.push_str("> ")?;
        out.push_str(line)?;
    }
    Ok(())
}

// What became of a disk that had these bytes before.
fn became(before: &[u8], now: &[u8]) -> &'static str {
    if now == before {
        "unchanged"
    } else {
        "changed"
    }
}

// How a run ended on a disk that had these bytes before.
fn end_of(alloc: Global, before: &[u8], left: &Left) -> Result<String, AllocError> {
    let disk = &left.disk;
    let image = became(before, disk.bytes());
    let mut text = format!(in alloc; "exit {} {}; ", left.exit.status(), left.exit)?;
    write!(
        text,
        "calls {}, faults {}; image {image}",
        disk.calls(),
        disk.faults()
    )?;
    Ok(text)
}

// The numbers of calls by which each entry was decided and answered.
fn entries_of(alloc: Global, left: &Left) -> Result<String, AllocError> {
    let mut text = String::from_str(alloc, "entries:")?;
    for entry in &left.entries {
        write!(text, " {}/{}", entry.decided, entry.answered)?;
    }
    Ok(text)
}

// A run and how it ended, in one line.
fn run_of(alloc: Global, before: &[u8], left: &Left) -> Result<String, AllocError> {
    let mut text = String::new(alloc);
    for line in left.printed.as_str().lines() {
        add(&mut text, ", ", line)?;
    }
    add(&mut text, ", ", end_of(alloc, before, left)?.as_str())?;
    Ok(text)
}

// The case once more, where one call of its disk fails besides.
fn failing_at(alloc: Global, case: &Case, call: u64) -> Result<Left, AllocError> {
    let limits = case.disk.failing_at(alloc, call)?;
    serve(alloc, &case.given, disk_of(alloc, &case.image, &limits)?)
}

// Adds what comes of the case where each call of its disk fails in turn.
fn add_fails(alloc: Global, out: &mut String, case: &Case) -> Result<()> {
    for call in 0..u64::MAX {
        let left = failing_at(alloc, case, call)?;
        if left.disk.calls() <= call {
            break;
        }
        let run = run_of(alloc, &case.image, &left)?;
        add_line(out, format!(in alloc; "fail {call}: {run}")?.as_str())?;
        if case.stops {
            add_stops(alloc, out, &left.disk, call + 1, &case.look)?;
        }
    }
    Ok(())
}

// Adds the bytes of a disk that the case asks for.
fn add_bytes(
    alloc: Global,
    out: &mut String,
    desk: &Desk,
    case: &Case,
    image: &[u8],
) -> Result<()> {
    for show in &case.shows {
        let text = show.text(alloc, image)?;
        add_line(out, format!(in alloc; "at {}: {text}", show.at)?.as_str())?;
    }
    if let Some(name) = &case.compare {
        let same = if desk.kept(name.as_str())? == image {
            "as"
        } else {
            "not as"
        };
        add_line(out, format!(in alloc; "{same} {name}")?.as_str())?;
    }
    Ok(())
}

/// What came of a case, whose disk had these bytes before.
pub fn report(
    alloc: Global,
    desk: &Desk,
    case: &Case,
    before: &[u8],
    left: &Left,
) -> Result<String> {
    let mut out = String::new(alloc);
    add_printed(&mut out, left.printed.as_str())?;
    add_line(&mut out, end_of(alloc, before, left)?.as_str())?;
    add_bytes(alloc, &mut out, desk, case, left.disk.bytes())?;
    if case.plan {
        add_line(&mut out, plan_of(alloc, &case.given.words)?.as_str())?;
    }
    if case.ends {
        add_ends(alloc, &mut out)?;
    }
    if case.entries {
        add_line(&mut out, entries_of(alloc, left)?.as_str())?;
    }
    if case.stops {
        add_stops(alloc, &mut out, &left.disk, 0, &case.look)?;
    }
    if case.fails {
        add_fails(alloc, &mut out, case)?;
    }
    Ok(out)
}
