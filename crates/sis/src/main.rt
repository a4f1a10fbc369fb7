//! Single Instance Storage over a volume in one image file: the program `sis`.
//!
//! `main` makes the real things (the image file, standard input and output, random GUIDs) and calls
//! `run` of `sis_cli`, whose contract says what it does.
#![tactic(auto)]

mod argument;
mod image;
mod streams;

use argument::arguments;
use image::open_image;
use sis_cli::{Exit, Plan, plan, run};
use sis_disk::{RandomGuids, StdSink, StdSource};
use std::alloc::{AllocError, Global};
use std::process::ExitCode;
use streams::{hold_descriptors, may_be_standard_error};

/// The status where the image file can be neither opened nor made.
const NOT_OPENED: u8 = 11;

fn words_of(alloc: Global, arguments: &[String]) -> Result<Vec<&str>, AllocError> {
    let mut words = Vec::new(alloc);
    for argument in arguments {
        words.push(argument.as_str())?;
    }
    Ok(words)
}

// Prints the fault line where the run didn't end well. A line that can't be printed is lost.
fn ended(rt: &HostRuntime, exit: &Exit) -> ExitCode {
    if *exit != Exit::Done {
        let _ = eprintln!(rt; "sis: {exit}");
    }
    ExitCode::from(exit.status())
}

// Prints the fault line, unless that were to write over the image.
fn not_opened(rt: &HostRuntime, plan: &Plan) -> ExitCode {
    if !may_be_standard_error(rt, plan.image.as_str()) {
        let _ = eprintln!(rt; "sis: open");
    }
    ExitCode::from(NOT_OPENED)
}

fn main(rt: HostRuntime) -> ExitCode {
    let alloc = rt.alloc();
    let Ok(arguments) = arguments(&rt) else {
        return ended(&rt, &Exit::Memory);
    };
    let Ok(words) = words_of(alloc, &arguments) else {
        return ended(&rt, &Exit::Memory);
    };
    let plan = match plan(alloc, &words) {
        Ok(plan) => plan,
        Err(fault) => return ended(&rt, &Exit::from(fault)),
    };
    // Held to the end: else the image could be opened as standard output, and be printed over.
    let Ok(_held) = hold_descriptors(&rt) else {
        return not_opened(&rt, &plan);
    };
    let Ok(disk) = open_image(&rt, &plan) else {
        return not_opened(&rt, &plan);
    };
    let mut input = StdSource::new(rt.stdin());
    let mut out = StdSink::new(rt.stdout());
    let guids = RandomGuids::new(&rt);
    let outcome = run(alloc, &words, disk, &mut input, &mut out, guids);
    ended(&rt, &outcome.status)
}
