//! Scripts read from a source of bytes, and histories printed to a sink.
//!
//! The whole syntax of a script stands in `specs/Script.antt`, `specs/Verbs.antt` and
//! `specs/Fields.antt`, and each printed line in `specs/Printed.antt` and `specs/Details.antt`.
#![tactic(auto)]

mod commands;
mod faults;
mod fields;
mod limits;
mod printing;
#[cfg(test)]
mod printing_tests;
mod reading;
#[cfg(test)]
mod tests;
mod verbs;

pub use faults::{LineKind, PrintFault, ScriptFault, ScriptLimit};
pub use limits::{LAST_CLIENT, MOST_LINES, MOST_SCRIPT_BYTES};
pub use printing::print_history;
pub use reading::{Script, read_script};
