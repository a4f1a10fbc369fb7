//! How a command ended, and the exit that this is.
ghost use Rattle.std.specs.Prelude.{◌≡◌, []};
ghost use Rattle.sis_cli.specs.Exit.{exit_of, length_at, risen};

use crate::{Exit, Outcome};
use sis_disk::{Disk, ImageKind};
use sis_model::History;
use sis_script::{PrintFault, ScriptFault};
use sis_volume::{FormatFault, OpenFault};
use std::alloc::Global;

/// How a command ended.
#[derive(Clone, Copy)]
pub(crate) enum Ending {
    /// The disk was formatted, or was not.
    Format(Result<(), FormatFault>),
    /// The script was not read.
    Script(ScriptFault),
    /// The image was not opened.
    Image(OpenFault),
    /// There was no memory for the entries, and no line ran.
    NoRoom,
    /// The lines ran, and their history was printed, or was not.
    Ran {
        printed: Result<(), PrintFault>,
        /// A commit failed.
        is_down: bool,
    },
}

// The offset of the field that the disk's length contradicts.
fn length_at(have: u64) -> u64
    ensures { result ≡ length_at have }
{
    if have < 4096 { 0 } else { 16 }
}

// How many faults there were from one count to a later one, of which at least one came.
fn fault_count(before: u64, now: u64) -> u64
    ensures { result ≡ risen before now }
{
    now.saturating_sub(before).max(1)
}

impl Ending {
    // The exit, where the disk had so many faults.
    fn exit(&self, count: u64) -> Exit
        ensures { result ≡ exit_of count self.now }
    {
        match *self {
            Ending::Format(Ok(())) => Exit::Done,
            Ending::Format(Err(FormatFault::Disk)) => Exit::Disk { count },
            Ending::Format(Err(FormatFault::Length { have, need: _ })) => Exit::Image {
                at: length_at(have),
                kind: ImageKind::Length,
            },
            Ending::Format(Err(FormatFault::Memory)) => Exit::Memory,
            Ending::Script(ScriptFault::Source) => Exit::Source,
            Ending::Script(ScriptFault::Line { line, kind }) => Exit::Script { line, kind },
            Ending::Script(ScriptFault::Limit { kind, count }) => {
                Exit::ScriptLimit { kind, count }
            }
            Ending::Script(ScriptFault::Memory) => Exit::Memory,
            Ending::Image(OpenFault::Disk) => Exit::Disk { count },
            Ending::Image(OpenFault::Image { at, kind }) => Exit::Image { at, kind },
            Ending::Image(OpenFault::Bad { kind, file, index }) => {
                Exit::Bad { kind, file, index }
            }
            Ending::Image(OpenFault::Memory) => Exit::Memory,
            Ending::NoRoom => Exit::Memory,
            Ending::Ran {
                printed: Ok(()),
                is_down,
            } => {
                if is_down {
                    Exit::Disk { count }
                } else {
                    Exit::Done
                }
            }
            Ending::Ran {
                printed: Err(PrintFault::Sink),
                is_down: _,
            } => Exit::Sink,
            Ending::Ran {
                printed: Err(PrintFault::Memory),
                is_down: _,
            } => Exit::Memory,
        }
    }
}

/// A command that ended, and what it leaves.
#[derive(Drop)]
pub(crate) struct Ended<D> {
    pub(crate) ending: Ending,
    pub(crate) history: History,
    pub(crate) disk: D,
}

impl<D: Disk> Ended<D> {
    /// A command that ended before its first line.
    pub(crate) fn without_lines(alloc: Global, ending: Ending, disk: D) -> Ended<D>
        ensures ending { result.ending ≡ ending }
        ensures entries { result.history.entries ≡ [] }
        ensures disk { result.disk ≡ disk }
    {
        Ended {
            ending,
            history: History::new(alloc),
            disk,
        }
    }

    /// What the run leaves, where the disk had had so many faults before it.
    pub(crate) fn outcome(self, before: u64) -> Outcome<D>
        ensures status { result.status
            ≡ exit_of (risen before (D.seen self.disk).faults) self.ending }
        ensures history { result.history ≡ self.history }
        ensures disk { result.disk ≡ self.disk }
    {
        let count = fault_count(before, self.disk.faults());
        Outcome {
            status: self.ending.exit(count),
            history: self.history,
            disk: self.disk,
        }
    }
}
