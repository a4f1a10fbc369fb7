//! One event: a command that is begun, or a step of a job.
ghost use Rattle.std.specs.Prelude.{◌≡◌, ◌≢◌, ◌⊎◌, ◌<◌, ◌≤◌, ◌+◌, ◌++◌, ◌∷◌, [], ℕ, length, true, false, IsOk, IfErr, None, OnOk, Some, slice_set};
ghost use Rattle.sis_history.specs.Replies.{IsServed};
ghost use Rattle.sis_history.specs.Rows.{Begins};
ghost use Rattle.sis_history.specs.Runs.{IsRow};
ghost use Rattle.sis_model.specs.Answer.{holds_memory};
ghost use Rattle.sis_model.specs.Order.{is_end};
ghost use Rattle.sis_model.specs.World.{World};
ghost use Rattle.sis_disk.specs.Record.{IsCounted};
ghost use Rattle.sis_table.specs.Good.{IsGood};
ghost use Rattle.sis_table.specs.Volume.{IsTable};
ghost use Rattle.sis_volume.specs.Stopping.{StopsWell};
ghost use Rattle.sis_core.specs.declared.job.Job.TheVariants as job;
ghost use Rattle.sis_core.specs.Deciding.{DecidesFor, IsDurable};
ghost use Rattle.sis_core.specs.Jobs.{IsClient, count_jobs};
ghost use Rattle.sis_core.specs.Session.{AreThere, FitsArea, ShowsWorld, session};
ghost use Rattle.sis_core.specs.Sound.{IsSound};
ghost use Rattle.sis_core.specs.Steps.{Steps, entry_of};
ghost use Rattle.sis_core.specs.View.{job_of, opening_of, session_of, stage_in};

use crate::answering::answer;
use crate::opens::Opens;
use crate::{Core, Job, NoRoom, Turn};
use sis_disk::{Disk, Guids};
use sis_model::{Command, Entry, Hindrance, History, Reply};
use sis_volume::Volume;
use std::alloc::{AllocError, Global};
use std::mem;

// How many clients have a command in hand.
fn jobs_in_hand(jobs: &[Option<Job>]) -> usize
    requires { length jobs.now ≡ 17 }
    ensures count { result ≡ count_jobs jobs.now }
    ensures most { result ≤ 17 }
{
    let mut count = 0;
    for job in jobs {
        if job.is_some() {
            count += 1;
        }
    }
    count
}

// Makes room for one entry more than are still to come.
fn make_room(history: &mut History, jobs: &[Option<Job>]) -> Result<(), AllocError>
    requires { length jobs.now ≡ 17 }
    ensures ok { OnOk result (count_jobs jobs.now < history.new.spare) }
    ensures entries { history.new.entries ≡ history.old.entries }
    ensures spare { history.old.spare ≤ history.new.spare }
    ensures room { count_jobs jobs.now < history.old.spare
        → IsOk result × (history.new.spare ≡ history.old.spare) }
{
    let owed = jobs_in_hand(jobs);
    if owed < history.spare() {
        return Ok(());
    }
    history.reserve(owed + 1)
}

// The reply twice, for the client and for the history. A copy takes memory where the reply has
// bytes, names or unsettled files; no command leaves such files so far. Where it finds no memory,
// the reply is dropped, and both are want of memory in its place. The command was then a read or a
// list, which had changed no file and no open.
fn twice(alloc: Global, reply: Reply) -> (Reply, Reply)
    ensures both { result.1 ≡ result.0 }
    ensures reply { (result.0 ≡ reply)
        ⊎ ((holds_memory reply ≡ true) × (result.0 ≡ Reply.Hindered Hindrance.Memory)) }
{
    match reply.copy(alloc) {
        Ok(copy) => (reply, copy),
        Err(_) => (
            Reply::Hindered {
                by: Hindrance::Memory,
            },
            Reply::Hindered {
                by: Hindrance::Memory,
            },
        ),
    }
}

// Decides a client's command, and adds its entry.
fn decide<D: Disk>(
    volume: &mut Volume<D>,
    opens: &mut Opens,
    history: &mut History,
    alloc: Global,
    client: u8,
    command: Command,
) -> Reply
    requires served { IsServed command }
    requires there { AreThere volume.old.table opens.old }
    requires spare { 0 < history.old.spare }
    ensures decides { (w : World) → ShowsWorld w (session volume.old opens.old)
        → DecidesFor w (session volume.old opens.old) (session volume.new opens.new) client
        command result }
    ensures stops { StopsWell volume.old volume.new }
    ensures durable { IsDurable volume.new command result }
    ensures saved { is_end command ≡ true → volume.new.down ≡ None
        → volume.new.is_changed ≡ false }
    ensures entries { history.new.entries
        ≡ history.old.entries ++ entry_of client command result volume.new.seen.calls ∷ [] }
    ensures spare { history.old.spare ≤ history.new.spare + 1 }
    ensures counted { IsCounted volume.new.seen }
    ensures old_table { IsTable volume.old.table }
    ensures table { IsTable volume.new.table }
    ensures good { IsGood volume.new.table }
    ensures fits { FitsArea volume.new.table }
{
    let (reply, copy) = twice(alloc, answer(volume, opens, alloc, client, &command));
    let calls = volume.calls();
    history.push(Entry {
        client,
        command,
        reply: copy,
        decided: calls,
        answered: calls,
    });
    reply
}

impl<D: Disk, G: Guids> Core<D, G> {
    /// Takes a client's next command. Where there is room for more entries than there are commands
    /// in hand, this takes no memory.
    pub fn begin(&mut self, client: u8, command: Command) -> Result<(), NoRoom>
        requires client { IsClient client }
        requires job { job_of self.old.jobs client ≡ None }
        requires served { IsServed command }
        ensures ok { OnOk result (self.new ≡ record self.old {
          spare = self.new.spare;
          jobs = slice_set self.old.jobs client (Some (job.Begun command));
        }) }
        ensures err { IfErr result (λ r. (r.command ≡ command)
            × (self.new ≡ record self.old { spare = self.new.spare })) }
        ensures opening { opening_of self.new ≡ opening_of self.old }
        ensures spare { self.old.spare ≤ self.new.spare }
        ensures room { count_jobs self.old.jobs < self.old.spare
            → IsOk result × (self.new.spare ≡ self.old.spare) }
        ensures row { OnOk result ((w : World) → IsRow (stage_in w self.old) (Begins client command)
            (stage_in w self.new)) }
        ensures sound { IsSound self.new }
    {
        if make_room(&mut self.history, &self.jobs).is_err() {
            return Err(NoRoom { command });
        }
        self.jobs[client as usize] = Some(Job::Begun { command });
        Ok(())
    }

    /// A step of a client's job.
    pub fn step(&mut self, client: u8) -> Turn
        requires { job_of self.old.jobs client ≢ None }
        ensures steps { Steps self.old client result self.new }
        ensures sound { IsSound self.new }
    {
        match mem::replace(&mut self.jobs[client as usize], None) {
            None => unreachable!(),
            Some(Job::Begun { command }) => {
                let reply = decide(
                    &mut self.volume,
                    &mut self.opens,
                    &mut self.history,
                    self.alloc,
                    client,
                    command,
                );
                Turn::Answered { reply }
            }
        }
    }
}
