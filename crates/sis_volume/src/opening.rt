//! Opens a disk as a volume: the journal reads it, and the table's files are judged.
ghost use Rattle.std.specs.Prelude.{◌≡◌, ◌≢◌, ◌*◌, None, Ok, false, IfOk, IfErr, IfSome, IsErrOf, OnOk};
ghost use Rattle.sis_disk.specs.Record.{live_of};
ghost use Rattle.sis_journal.specs.Opening.{Caused, CountsFault, IsSynced, SyncThenReads};
ghost use Rattle.sis_journal.specs.declared.fault.OpenFault.TheVariants as faults;
ghost use Rattle.sis_table.specs.Good.{IsGood};
ghost use Rattle.sis_table.specs.Image.{image_at};
ghost use Rattle.sis_table.specs.Volume.{IsTable, used_places};
ghost use Rattle.sis_volume.specs.Invariant.{IsVolume};
ghost use Rattle.sis_volume.specs.Opening.{FailsAs};
ghost use Rattle.sis_volume.specs.Stopping.{OpensTable};

use crate::data_blocks::DataBlocks;
use crate::kept_table::KeptTable;
use crate::{Refused, Volume};
use sis_disk::Disk;
use sis_journal::{Journal, OpenFault};
use sis_table::{GoodFault, Table};
use sis_view::Blocks;
use std::alloc::Global;

/// Judges whether the table's files go together.
fn judge(alloc: Global, table: &Table) -> Result<(), OpenFault>
    ensures good { OnOk result (IsGood table.now) }
    ensures fault { IfErr result (λ fault. FailsAs fault (Ok table.now)) }
    ensures cause { IfErr result (λ fault. fault ≢ faults.Disk) }
{
    match table.good(alloc) {
        Ok(()) => Ok(()),
        Err(GoodFault::Bad { kind, file, index }) => Err(OpenFault::Bad { kind, file, index }),
        Err(GoodFault::Memory) => Err(OpenFault::Memory),
    }
}

/// What was read of an image, and which places its table maps.
#[derive(Drop)]
struct Opened {
    journal: Journal,
    kept: KeptTable,
    places: DataBlocks,
}

/// Reads the image, and judges its table.
fn read_volume<D: Disk>(alloc: Global, disk: &mut D) -> Result<Opened, OpenFault>
    ensures image { IfOk result (λ opened. IfSome (live_of (D.seen disk.old))
        (λ live. image_at live ≡ Ok opened.kept)) }
    ensures good { IfOk result (λ opened. IsGood opened.kept) }
    ensures kept { IfOk result (λ opened. IsVolume opened.kept opened.journal opened.places
        false None (D.seen disk.new)) }
    ensures fault { IfErr result (λ fault. IfSome (live_of (D.seen disk.old))
        (λ live. FailsAs fault (image_at live))) }
    ensures cause { IfErr result
        (λ fault. Caused fault (D.seen disk.old).faults (D.seen disk.new).faults) }
    ensures quiet { OnOk result ((D.seen disk.new).faults ≡ (D.seen disk.old).faults) }
    ensures refused_quiet { IfErr result
        (λ fault. CountsFault fault (D.seen disk.old).faults (D.seen disk.new).faults) }
    ensures reads { SyncThenReads 4 (D.seen disk.old) (D.seen disk.new) }
    ensures synced { (IsErrOf result OpenFault.Disk → ⊥)
        → IsSynced (D.seen disk.old) (D.seen disk.new) }
{
    let (journal, _, kept) = Journal::open::<D, KeptTable>(alloc, disk)?;
    judge(alloc, &kept.table)?;
    let places = DataBlocks::of_table(alloc, &kept.table)?;
    Ok(Opened {
        journal,
        kept,
        places,
    })
}

impl<D: Disk> Volume<D> {
    /// Opens a disk as a volume, by a sync and at most four reads.
    ///
    /// After the sync no stop takes back what is read then. A fault of the image is the first one in
    /// its order. Where it has none, the table's files are judged.
    pub fn open(alloc: Global, disk: D) -> Result<Volume<D>, Refused<D, OpenFault>>
        // The table is the one that the image holds, its files go together, and a stop leaves just
        // these files.
        ensures image { IfOk result (λ v. IfSome (live_of (D.seen disk))
            (λ live. image_at live ≡ Ok v.table)) }
        ensures table { IfOk result (λ v. IsTable v.table) }
        ensures good { IfOk result (λ v. IsGood v.table) }
        ensures size { IfOk result (λ v. v.seen.size ≡ 4096 * v.table.layout.total) }
        ensures opens { IfOk result (λ v. OpensTable v.table v.seen) }
        ensures log { IfOk result (λ v. v.table.layout.log ≡ 0) }
        ensures changed { IfOk result (λ v. v.is_changed ≡ false) }
        ensures down { IfOk result (λ v. v.down ≡ None) }
        ensures held { IfOk result (λ v. v.committed ≡ used_places v.table) }

        // A refusal names the image's first fault, or its table's first defect, unless the disk
        // failed or memory ran out.
        ensures fault { IfErr result (λ r. IfSome (live_of (D.seen disk))
            (λ live. FailsAs r.fault (image_at live))) }
        ensures cause { IfErr result
            (λ r. Caused r.fault (D.seen disk).faults (D.seen r.disk).faults) }

        // No call that failed is tried again.
        ensures quiet { IfOk result (λ v. v.seen.faults ≡ (D.seen disk).faults) }
        ensures refused_quiet { IfErr result
            (λ r. CountsFault r.fault (D.seen disk).faults (D.seen r.disk).faults) }

        // Either way the disk's first call is a sync, and it is only read then. The sync succeeded,
        // unless the disk failed.
        ensures reads { IfOk result (λ v. SyncThenReads 4 (D.seen disk) v.seen) }
        ensures refused { IfErr result (λ r. SyncThenReads 4 (D.seen disk) (D.seen r.disk)) }
        ensures synced { IfOk result (λ v. IsSynced (D.seen disk) v.seen) }
        ensures refused_synced { IfErr result (λ r. (r.fault ≡ faults.Disk → ⊥)
            → IsSynced (D.seen disk) (D.seen r.disk)) }
    {
        let mut disk = disk;
        let opened = match read_volume(alloc, &mut disk) {
            Ok(opened) => opened,
            Err(fault) => return Err(Refused { disk, fault }),
        };
        match Blocks::new(alloc, disk) {
            Ok(disk) => Ok(Volume {
                disk,
                journal: opened.journal,
                kept: opened.kept,
                places: opened.places,
                is_changed: false,
                down: None,
            }),
            Err(refused) => Err(Refused {
                disk: refused.disk,
                fault: OpenFault::Memory,
            }),
        }
    }
}
