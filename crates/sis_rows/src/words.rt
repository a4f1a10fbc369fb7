//! What words plan, and the ends that no case has.
use crate::fields::add_line;
use crate::serving::as_strs;
use anyhow::{Result, bail};
use sis_cli::{Exit, UsageFault, plan};
use sis_script::LineKind;
use std::alloc::Global;

/// Ends for a field of a verb that no script may have yet, and for want of memory.
const OTHERS: [Exit; 2] = [
    Exit::Script {
        line: 8,
        kind: LineKind::Code,
    },
    Exit::Memory,
];

/// Adds those ends.
pub fn add_ends(alloc: Global, out: &mut String) -> Result<()> {
    for exit in OTHERS {
        let status = exit.status();
        add_line(out, format!(in alloc; "exit {status} {exit}")?.as_str())?;
    }
    Ok(())
}

/// What the words plan, or the first wrong one.
pub fn plan_of(alloc: Global, words: &[String]) -> Result<String> {
    match plan(alloc, &as_strs(alloc, words)?) {
        Ok(plan) => Ok(format!(in alloc; "{plan:?}")?),
        Err(UsageFault::Memory) => bail!("out of memory"),
        Err(fault) => Ok(fault.to_string(alloc)?),
    }
}
