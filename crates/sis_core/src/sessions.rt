//! The core: a volume, the history of what was decided on it, and each client's job.
ghost use Rattle.std.specs.Prelude.{◌≡◌, ◌≤◌, ◌<◌, ◌^◌, ℕ, false, length, None, IfOk, IfErr, IfSome, OnOk};
ghost use Rattle.sis_disk.specs.Record.{live_of};
ghost use Rattle.sis_history.specs.Runs.{AreOfClients};
ghost use Rattle.sis_journal.specs.Opening.{Caused, CountsFault, IsSynced, SyncThenReads};
ghost use Rattle.sis_table.specs.Image.{image_at, Holds};
ghost use Rattle.sis_volume.specs.Opening.{FailsAs};
ghost use Rattle.sis_core.specs.Jobs.{AreIdle};
ghost use Rattle.sis_core.specs.Opening.{IsOpenedFrom};
ghost use Rattle.sis_core.specs.Sound.{IsSound};

use crate::opens::Opens;
use crate::{CoreStart, Job};
use sis_disk::{Disk, Guids};
use sis_model::History;
use sis_volume::{OpenFault, Refused, Volume};
use std::alloc::{AllocError, Global};
use std::marker::Model;

/// A volume on which several clients have sessions. Each has at most one command in hand.
#[derive(Drop)]
pub struct Core<D: Disk, G: Guids> {
    pub(crate) volume: Volume<D>,
    pub(crate) opens: Opens,
    guids: G,
    pub(crate) history: History,
    /// The jobs of the clients 1 to 16; the first is nobody's.
    pub(crate) jobs: [Option<Job>; 17],
    /// Which call of the disk opening's sync was.
    pub(crate) synced: u64,
    pub(crate) start: CoreStart,
    pub(crate) alloc: Global,
}

impl<D: Disk, G: Guids> Model for Core<D, G> {
    ghost use Rattle.std.specs.Coded.{codes};
    ghost use Rattle.sis_ranges.specs.contracts.extents.Extents as extents;
    ghost use Rattle.sis_core.specs.View.{CoreView};

    ghost Value = { CoreView };

    ghost coded = { Prim.hlevel (codes, extents.the_row.coded) };

    ghost use Rattle.sis_core.specs.View.{core_view};
    ghost use Rattle.sis_core.specs.Sound.{IsSound};

    ghost view = { λ c. core_view c.volume c.opens c.history c.jobs c.synced c.start };

    ghost invariant = { λ c.
        IsSound (core_view c.volume c.opens c.history c.jobs c.synced c.start) };
}

/// What a core leaves.
#[derive(Drop)]
pub struct CoreParts<D: Disk> {
    /// The disk.
    pub disk: D,
    /// What was decided on it.
    pub history: History,
}

fn idle_jobs() -> [Option<Job>; 17]
    ensures { AreIdle result }
{
    [
        None, None, None, None, None, None, None, None, None, None, None, None, None, None, None,
        None, None,
    ]
}

impl<D: Disk, G: Guids> Core<D, G> {
    /// Opens a disk, by a sync and at most four reads.
    pub fn open(alloc: Global, disk: D, guids: G) -> Result<Core<D, G>, Refused<D, OpenFault>>
        ensures opened { IfOk result (IsOpenedFrom (D.seen disk)) }
        ensures sound { IfOk result IsSound }

        // A refusal names the image's first fault, or its table's first defect, unless the disk
        // failed or memory ran out.
        ensures fault { IfErr result (λ r. IfSome (live_of (D.seen disk))
            (λ live. FailsAs r.fault (image_at live))) }
        ensures cause { IfErr result
            (λ r. Caused r.fault (D.seen disk).faults (D.seen r.disk).faults) }
        ensures refused { IfErr result (λ r. SyncThenReads 4 (D.seen disk) (D.seen r.disk)) }
        ensures refused_quiet { IfErr result
            (λ r. CountsFault r.fault (D.seen disk).faults (D.seen r.disk).faults) }
        ensures synced { IfErr result (λ r. (r.fault ≡ OpenFault.Disk → ⊥)
            → IsSynced (D.seen disk) (D.seen r.disk)) }
    {
        let synced = disk.calls();
        let volume = Volume::open(alloc, disk)?;
        let start = CoreStart {
            calls: volume.calls(),
            faults: volume.faults(),
        };
        Ok(Core {
            volume,
            opens: Opens::new(alloc),
            guids,
            history: History::new(alloc),
            jobs: idle_jobs(),
            synced,
            start,
            alloc,
        })
    }

    /// What the disk had counted when the opening had ended. Takes no memory.
    pub fn start(&self) -> CoreStart
        ensures start { result ≡ self.now.start }
        ensures sound { IsSound self.now }
    {
        self.start
    }

    /// What was decided. Takes no memory.
    pub fn history(&self) -> &History
        ensures entries { result.now.entries ≡ self.now.entries }
        ensures clients { AreOfClients self.now.entries }
        ensures spare { result.now.spare ≡ self.now.spare }
        ensures sound { IsSound self.now }
    {
        &self.history
    }

    /// How many entries there are. Takes no memory.
    pub fn entries(&self) -> u64
        ensures entries { result ≡ length self.now.entries }
        ensures small { result < 2 ^ 63 }
    {
        self.history.len() as u64
    }

    /// The current volume. Takes no memory.
    pub fn volume(&self) -> &Volume<D>
        ensures volume { result.now ≡ self.now.volume }
        ensures sound { IsSound self.now }
    {
        &self.volume
    }

    /// The disk's call by which a commit failed. Takes no memory.
    pub fn down(&self) -> Option<u64>
        ensures { result ≡ self.now.volume.down }
    {
        self.volume.down()
    }

    /// For how many entries more there is room. Takes no memory.
    pub fn spare(&self) -> u64
        ensures { result ≡ self.now.spare }
    {
        self.history.spare() as u64
    }

    /// Makes room for so many entries.
    pub fn reserve(&mut self, calls: u64) -> Result<(), AllocError>
        ensures ok { OnOk result (calls ≤ self.new.spare) }
        ensures same { self.new ≡ record self.old { spare = self.new.spare } }
        ensures spare { self.old.spare ≤ self.new.spare }
        ensures sound { IsSound self.new }
    {
        self.history.reserve(calls as usize)
    }

    /// The disk and the history.
    pub fn into_parts(self) -> CoreParts<D>
        ensures seen { D.seen result.disk ≡ self.volume.seen }
        ensures entries { result.history.entries ≡ self.entries }
        ensures holds { self.volume.is_changed ≡ false → self.volume.down ≡ None
            → IfSome (live_of self.volume.seen) (λ live. Holds live self.volume.table) }
        ensures sound { IsSound self }
    {
        let Core {
            volume,
            history,
            ..
        } = self;
        CoreParts {
            disk: volume.into_disk(),
            history,
        }
    }
}
