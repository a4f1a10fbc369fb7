//! What stops leave.
use crate::fields::{add, add_line};
use crate::serving::{Given, Left, Limits, disk_of, serve};
use crate::show::Show;
use anyhow::Result;
use sis_cli::Exit;
use sis_disk::{Disk, Memory, Pick};
use std::alloc::{AllocError, Global};

/// How an image is looked at that a stop left.
#[derive(Drop)]
pub struct Look {
    /// The script that is run on it.
    pub script: Vec<u8>,
    /// Which of its bytes are shown.
    pub shows: Vec<Show>,
}

impl Look {
    /// No script, and no bytes.
    pub fn new(alloc: Global) -> Look {
        Look {
            script: Vec::new(alloc),
            shows: Vec::new(alloc),
        }
    }

    // The script, or `1 list` where there is none.
    fn script(&self) -> &[u8] {
        if self.script.is_empty() {
            b"1 list"
        } else {
            &self.script
        }
    }
}

// The picks of images that a stop after so many calls leaves: three that are filled with a byte,
// and each front that differs from the one before it. Where nothing is loose, there is one image.
fn picks(alloc: Global, disk: &Memory, calls: u64) -> Result<Vec<Pick>, AllocError> {
    let zeros = disk.image(alloc, calls, Pick::Fill(0))?;
    let ones = disk.image(alloc, calls, Pick::Fill(255))?;
    if zeros == ones {
        return Ok(vec![in alloc; Pick::New]?);
    }
    let old = disk.image(alloc, calls, Pick::Old)?;
    let new = disk.image(alloc, calls, Pick::New)?;
    let is_loose = zeros.iter().zip(ones.iter()).map(|(zero, one)| zero != one);
    let is_changed = old.iter().zip(new.iter()).map(|(old, new)| old != new);
    let mut picks = vec![in alloc; Pick::Old]?;
    let mut count = 0u64;
    for (is_loose, is_changed) in is_loose.zip(is_changed) {
        if is_loose {
            count = count.saturating_add(1);
        }
        if is_changed {
            picks.push(Pick::Front(count))?;
        }
    }
    picks.extend_from_slice(&[Pick::New, Pick::Fill(0), Pick::Fill(1), Pick::Fill(255)])?;
    Ok(picks)
}

// What a printed line shows: the names of a `list`, and nothing of an end.
fn shown_of(line: &str) -> Option<&str> {
    match line.strip_prefix("1 list 00000000") {
        Some("") => Some("none"),
        Some(names) => Some(names.trim_start()),
        None if line == "1 end 00000000 0" => None,
        None => Some(line),
    }
}

// What a run's printed lines show, and its exit where it didn't end well.
fn shown_by(alloc: Global, left: &Left) -> Result<String, AllocError> {
    let mut text = String::new(alloc);
    if left.exit != Exit::Done {
        add(&mut text, "", left.exit.to_string(alloc)?.as_str())?;
    }
    for line in left.printed.as_str().lines().filter_map(shown_of) {
        add(&mut text, ", ", line)?;
    }
    Ok(text)
}

// What an image shows, in one line.
fn shown(alloc: Global, image: &[u8], look: &Look) -> Result<String> {
    let given = Given::exec(alloc, look.script())?;
    let left = serve(alloc, &given, disk_of(alloc, image, &Limits::new(alloc))?)?;
    let mut text = shown_by(alloc, &left)?;
    for show in &look.shows {
        add(&mut text, ", ", show.text(alloc, image)?.as_str())?;
    }
    Ok(text)
}

// What the images show that a stop after so many calls leaves, each text once.
fn shown_after(alloc: Global, disk: &Memory, calls: u64, look: &Look) -> Result<String> {
    let mut texts = Vec::new(alloc);
    for pick in picks(alloc, disk, calls)? {
        let text = shown(alloc, &disk.image(alloc, calls, pick)?, look)?;
        if !texts.contains(&text) {
            texts.push(text)?;
        }
    }
    let mut all = String::new(alloc);
    for text in &texts {
        add(&mut all, " | ", text.as_str())?;
    }
    Ok(all)
}

// What is shown after these numbers of calls.
fn stop_line(alloc: Global, first: u64, last: u64, text: &str) -> Result<String, AllocError> {
    if first == last {
        format!(in alloc; "stop after {first}: {text}")
    } else {
        format!(in alloc; "stop after {first} to {last}: {text}")
    }
}

/// Adds what the images show that stops leave, from so many calls on. Numbers of calls after which
/// they show the same have one line.
pub fn add_stops(
    alloc: Global,
    out: &mut String,
    disk: &Memory,
    from: u64,
    look: &Look,
) -> Result<()> {
    let (mut first, mut last) = (from, from);
    let mut text = shown_after(alloc, disk, from, look)?;
    for calls in (from..=disk.calls()).skip(1) {
        let next = shown_after(alloc, disk, calls, look)?;
        if next != text {
            add_line(out, stop_line(alloc, first, last, text.as_str())?.as_str())?;
            first = calls;
            text = next;
        }
        last = calls;
    }
    add_line(out, stop_line(alloc, first, last, text.as_str())?.as_str())?;
    Ok(())
}
