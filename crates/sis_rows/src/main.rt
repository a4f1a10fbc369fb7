//! Worked rows: runs over objects in memory, and what came of each.
//!
//! Standard input has cases, which README.md describes. Each is written to standard output again,
//! and behind it what came of it.
#![tactic(auto)]

mod case;
mod desk;
mod fields;
mod report;
mod serving;
mod show;
mod stops;
mod words;

use anyhow::Result;
use desk::Desk;
use std::io;

fn main(rt: HostRuntime) -> Result<()> {
    let alloc = rt.alloc();
    let input = io::read_to_string(alloc, rt.stdin())?;
    let mut desk = Desk::new(alloc);
    for (index, block) in input.as_str().trim_end().split("\n\n").enumerate() {
        if index > 0 {
            rt.println("")?;
        }
        rt.println(block)?;
        rt.print(desk.run(alloc, block)?)?;
    }
    Ok(())
}
