//! The call that the program makes.
ghost use Rattle.std.specs.Prelude.{◌≡◌, ◌≢◌, ◌⊎◌, ⊤, [], All, OnErr, OnOk};
ghost use Rattle.sis_core.specs.Jobs.{AreIdle};
ghost use Rattle.sis_core.specs.Sound.{IsSound};
ghost use Rattle.sis_core.specs.Steps.{IsSaved};
ghost use Rattle.sis_core.specs.View.{opening_of};
ghost use Rattle.sis_disk.specs.Layout.{IsLayout};
ghost use Rattle.sis_disk.specs.Record.{live_of};
ghost use Rattle.sis_disk.specs.Streams.{Appended, AppendedFront};
ghost use Rattle.sis_script.specs.Printed.{printed};
ghost use Rattle.sis_script.specs.Script.{IsBuilt, IsClient};
ghost use Rattle.sis_script.specs.Views.{parts_of};
ghost use Rattle.sis_cli.specs.Exit.{exit_of, risen};
ghost use Rattle.sis_cli.specs.Words.{texts, plan_of};
ghost use Rattle.sis_cli.specs.Run.{IfScript, IfFormat, ExitCause, IsAccepted, HasCalls, IsHistory};
ghost use Rattle.sis_cli.specs.Run.{Formats, IsFormatted, LaysNew, RunsLines, Serves};
ghost use Rattle.sis_cli.specs.Run.{TellsDown, WritesAll, Spares, TakesScript};

use crate::ending::{Ended, Ending};
use crate::{Exit, Outcome, Verb, plan};
use sis_core::{Core, CoreParts};
use sis_disk::{Disk, Guids, Layout, Sink, Source};
use sis_model::History;
use sis_script::{LAST_CLIENT, Script, print_history, read_script};
use sis_volume::{Refused, Volume};
use std::alloc::{AllocError, Global};

// Makes room for the entries of a script's lines and of its clients' ends, and runs the lines.
#[tactic(auto, using(crate::proofs::Lines::order_length, crate::proofs::Lines::all_served))]
fn run_lines<D: Disk, G: Guids>(
    core: &mut Core<D, G>,
    verb: Verb,
    script: Script,
) -> Result<(), AllocError>
    requires verb { verb ≢ Verb.Format }
    requires fresh { core.old.entries ≡ [] }
    requires idle { AreIdle core.old.jobs }
    requires clients { All (λ l. IsClient l.client) script.lines.items }
    requires built { All (λ l. IsBuilt l.command) script.lines.items }
    ensures runs { OnOk result (RunsLines verb (parts_of script) core.new.entries) }
    ensures saved { IsSaved core.old → IsSaved core.new }
    ensures idle { AreIdle core.new.jobs }
    ensures opening { opening_of core.new ≡ opening_of core.old }
    ensures none { OnErr result (core.new.entries ≡ []) }
    ensures sound { IsSound core.new }
{
    let Script { lines, schedule } = script;
    core.reserve(lines.len() as u64 + LAST_CLIENT)?;
    match verb {
        Verb::Format => unreachable!(),
        Verb::Exec => core.exec(lines),
        Verb::Replay => core.replay(lines, &schedule),
    }
    Ok(())
}

// Reads a script, runs it on the disk's image, and prints what was answered.
fn serve<D: Disk, S: Source, K: Sink, G: Guids>(
    alloc: Global,
    verb: Verb,
    disk: D,
    input: &mut S,
    out: &mut K,
    guids: G,
) -> Ended<D>
    requires verb { verb ≢ Verb.Format }
    ensures { Serves verb (S.left input.old) (S.left input.new) (D.seen disk) (D.seen result.disk)
        (record {
          disk = (D.seen disk).faults;
          disk_now = (D.seen result.disk).faults;
          source = S.faults input.old;
          source_now = S.faults input.new;
          sink = K.faults out.old;
          sink_now = K.faults out.new;
        }) (K.written out.old) (K.written out.new)
        (exit_of (risen (D.seen disk).faults (D.seen result.disk).faults) result.ending)
        result.history.entries }
{
    let script = match read_script(alloc, input) {
        Ok(script) => script,
        Err(fault) => return Ended::without_lines(alloc, Ending::Script(fault), disk),
    };
    let mut core = match Core::open(alloc, disk, guids) {
        Ok(core) => core,
        Err(Refused { disk, fault }) => {
            return Ended::without_lines(alloc, Ending::Image(fault), disk);
        }
    };
    match run_lines(&mut core, verb, script) {
        Ok(()) => {
            let printed = print_history(alloc, core.history(), out);
            let is_down = core.down().is_some();
            let CoreParts { disk, history } = core.into_parts();
            Ended {
                ending: Ending::Ran { printed, is_down },
                history,
                disk,
            }
        }
        Err(_) => Ended::without_lines(alloc, Ending::NoRoom, core.into_parts().disk),
    }
}

// Makes the disk an image without files.
fn format<D: Disk>(alloc: Global, disk: D, layout: Layout) -> Ended<D>
    requires layout { IsLayout layout }
    requires log { layout.log ≡ 0 }
    ensures { Formats layout (D.seen disk) (D.seen result.disk)
        (exit_of (risen (D.seen disk).faults (D.seen result.disk).faults) result.ending)
        result.history.entries }
{
    let mut disk = disk;
    let formatted = Volume::format(alloc, &mut disk, layout);
    Ended::without_lines(alloc, Ending::Format(formatted), disk)
}

/// Serves the command that the words are: reads its input, carries it out on the disk's image, and
/// writes its output.
///
/// The words are judged first, then the whole script, then the image. The returned history is what
/// was answered, also where it was not printed.
pub fn run<D: Disk, S: Source, K: Sink, G: Guids>(
    alloc: Global,
    words: &[&str],
    disk: D,
    input: &mut S,
    out: &mut K,
    guids: G,
) -> Outcome<D>
    // A script's answers are those of one legal history of separate files, which the image holds at
    // the start and at the end; each hindrance has its cause in the table before it. A stop at any
    // call behind opening's first leaves an image that opens as the files after some first entries,
    // among them each sync, close and end that was answered by then.
    ensures history { IfScript (plan_of (texts words.now)) (IsHistory (D.seen disk)
        (D.seen result.disk) result.status result.history.entries) ⊤ }

    // It has the script's calls, each once, in the order that the verb has; or none, where the run
    // ended before the first.
    ensures calls { HasCalls (plan_of (texts words.now)) result.status (S.left input.old)
        result.history.entries }

    // Words and scripts that are refused leave the disk as it was. An image that is refused, and a
    // script without lines, have it called no more than opening does. An opening that ended well
    // met no fault of the disk, and one that the disk made fail met one at most.
    ensures spared { Spares (plan_of (texts words.now)) result.status
        (D.seen disk) (D.seen result.disk) result.history.entries }

    // Only a script is taken of the input.
    ensures input { IfScript (plan_of (texts words.now))
        (TakesScript result.status (S.left input.old) (S.left input.new))
        (S.left input.new ≡ S.left input.old) }

    // `Done` comes only where no commit failed, and `Disk` after the lines only where one did.
    ensures down { IfScript (plan_of (texts words.now))
        (TellsDown result.status result.history.entries) ⊤ }

    // The bytes written are the printed history, or a front of it where the sink or memory failed.
    ensures written { WritesAll result.status
        (Appended (K.written out.old) (K.written out.new) (printed result.history.entries)) }
    ensures front { AppendedFront (K.written out.old) (K.written out.new)
        (printed result.history.entries) }

    // A formatted image has no files, and is stable. Whatever its end, only the first blocks
    // change.
    ensures formatted { IfFormat (plan_of (texts words.now)) (λ layout. result.status ≡ Exit.Done
        → IsFormatted layout (D.seen disk) (D.seen result.disk)) }
    ensures blocks { IfFormat (plan_of (texts words.now)) (λ layout.
        LaysNew layout (D.seen disk) (D.seen result.disk)) }

    // Why it ends so.
    ensures cause { ExitCause (plan_of (texts words.now)) (S.left input.old)
        (live_of (D.seen disk)) (D.seen disk).size (record {
          disk = (D.seen disk).faults;
          disk_now = (D.seen result.disk).faults;
          source = S.faults input.old;
          source_now = S.faults input.new;
          sink = K.faults out.old;
          sink_now = K.faults out.new;
        }) result.status }
    ensures complete { IsAccepted (plan_of (texts words.now)) (S.left input.old)
        (live_of (D.seen disk)) (D.seen disk).size (record {
          disk = (D.seen disk).faults;
          disk_now = (D.seen result.disk).faults;
          source = S.faults input.old;
          source_now = S.faults input.new;
          sink = K.faults out.old;
          sink_now = K.faults out.new;
        }) → (result.status ≡ Exit.Done) ⊎ (result.status ≡ Exit.Memory) }
{
    let plan = match plan(alloc, words) {
        Ok(plan) => plan,
        Err(fault) => {
            return Outcome {
                status: Exit::from(fault),
                history: History::new(alloc),
                disk,
            };
        }
    };
    let before = disk.faults();
    match plan.layout {
        Some(layout) => format(alloc, disk, layout).outcome(before),
        None => serve(alloc, plan.verb, disk, input, out, guids).outcome(before),
    }
}
