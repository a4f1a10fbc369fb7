//! Histories, printed one line an entry.
ghost use Rattle.std.specs.Prelude.{◌≡◌, ◌≤◌, ◌++◌, IfOk, OnOk, OnErr, IsErrOf, string_bytes};
ghost use Rattle.sis_disk.specs.Record.{Rose};
ghost use Rattle.sis_disk.specs.Streams.{Appended, AppendedFront};
ghost use Rattle.sis_name.specs.Status.{status_number};
ghost use Rattle.sis_script.specs.Details.{word};
ghost use Rattle.sis_script.specs.Printed.{eight_digits, entry_text, printed};

mod details;
mod statuses;

use crate::faults::PrintFault;
use details::add_details;
use sis_disk::Sink;
use sis_model::{Entry, History};
use sis_name::Status;
use statuses::{reply_status, verb};
use std::alloc::{AllocError, Global};
use std::fmt::Write;

fn add_status(text: &mut String, alloc: Global, status: Status) -> Result<(), AllocError>
    ensures { OnOk result (string_bytes text.new
        ≡ string_bytes text.old ++ word (eight_digits (status_number status))) }
{
    let digits = hex::encode_upper(alloc, status.number().to_be_bytes())?;
    text.push(' ')?;
    text.push_str(&digits)
}

fn entry_line(alloc: Global, entry: &Entry) -> Result<String, AllocError>
    ensures { IfOk result (λ text. string_bytes text ≡ entry_text entry.now) }
{
    let mut text = String::new(alloc);
    let client = entry.client;
    let verb = verb(&entry.command);
    write!(text, "{client} {verb}")?;
    add_status(&mut text, alloc, reply_status(&entry.reply))?;
    add_details(&mut text, alloc, &entry.reply)?;
    text.push('\n')?;
    Ok(text)
}

fn print_entry<K: Sink>(alloc: Global, entry: &Entry, sink: &mut K) -> Result<(), PrintFault>
    ensures ok { OnOk result
        (Appended (K.written sink.old) (K.written sink.new) (entry_text entry.now)) }
    ensures err { OnErr result
        (AppendedFront (K.written sink.old) (K.written sink.new) (entry_text entry.now)) }
    ensures cause { IsErrOf result PrintFault.Sink → Rose (K.faults sink.old) (K.faults sink.new) }
    ensures later { K.faults sink.old ≤ K.faults sink.new }
{
    let Ok(line) = entry_line(alloc, entry) else {
        return Err(PrintFault::Memory);
    };
    match sink.write(line.as_bytes()) {
        Ok(()) => Ok(()),
        Err(_) => Err(PrintFault::Sink),
    }
}

/// Prints each entry on a line of its own, in the history's order.
///
/// The text of one entry at a time is kept in memory.
pub fn print_history<K: Sink>(
    alloc: Global,
    history: &History,
    sink: &mut K,
) -> Result<(), PrintFault>
    ensures ok { OnOk result
        (Appended (K.written sink.old) (K.written sink.new) (printed history.now.entries)) }
    ensures err { OnErr result
        (AppendedFront (K.written sink.old) (K.written sink.new) (printed history.now.entries)) }
    ensures cause { IsErrOf result PrintFault.Sink → Rose (K.faults sink.old) (K.faults sink.new) }
    ensures later { K.faults sink.old ≤ K.faults sink.new }
{
    for entry in history.as_slice() {
        match print_entry(alloc, entry, sink) {
            Ok(()) => {}
            Err(fault) => return Err(fault),
        }
    }
    Ok(())
}
