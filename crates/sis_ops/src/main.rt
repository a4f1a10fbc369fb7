//! Worked cases of the operations on the files of a volume.
//!
//! Standard input has lines, which README.md describes. Each is written to standard output again,
//! and behind it what comes of it.
#![tactic(auto)]

mod desk;
mod fields;
mod operations;
mod refusal;
mod shown;

use anyhow::{Context, Result};
use desk::Desk;
use std::io;

fn main(rt: HostRuntime) -> Result<()> {
    let alloc = rt.alloc();
    let input = io::read_to_string(alloc, rt.stdin())?;
    let mut desk = Desk::new(&rt)?;
    for line in input.as_str().lines() {
        rt.println(line)?;
        let came = desk
            .run(&rt, line)
            .context(format_args!("the line `{line}`"))?;
        for text in came.as_str().lines() {
            println!(rt; "> {text}")?;
        }
    }
    Ok(())
}
