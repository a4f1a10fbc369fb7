//! Worked cases of what lies below a volume: copy requests, reparse buffers, tables, images that
//! keep a text, disks, streams and GUIDs.
//!
//! Standard input has lines, which README.md describes. Each is written to standard output again,
//! and behind it what comes of it.
#![tactic(auto)]

mod desk;
mod disks;
mod fields;
mod outside;
mod plain;
mod points;
mod requests;
mod streams;
mod tables;

use anyhow::{Context, Result};
use desk::Desk;
use std::io;

fn main(rt: HostRuntime) -> Result<()> {
    let alloc = rt.alloc();
    let input = io::read_to_string(alloc, rt.stdin())?;
    let mut desk = Desk::new(alloc)?;
    for line in input.as_str().lines() {
        rt.println(line)?;
        let came = desk
            .run(&rt, line)
            .context(format_args!("the line `{line}`"))?;
        for text in came.as_str().lines() {
            println!(rt; "> {text}")?;
        }
    }
    Ok(())
}
