//! Blocks of a file, written to fresh places. Where there are none the disk is left alone.
ghost use Rattle.std.specs.Prelude.{◌≡◌, ◌+◌, ◌/◌, ◌%◌, ◌^◌, ◌≤◌, List, None, length, IfErr, OnOk};
ghost use Rattle.sis_disk.specs.Record.{live_of};
ghost use Rattle.sis_journal.specs.Committing.{Both};
ghost use Rattle.sis_ranges.specs.declared.run.Run.{Run};
ghost use Rattle.sis_table.specs.Volume.{IsTable};
ghost use Rattle.sis_volume.specs.Staging.{KeepsOthers, Stages};
ghost use Rattle.sis_volume.specs.View.{fresh, held};
ghost use Rattle.sis_copyclose.specs.Inside.{Works};
ghost use Rattle.sis_copyclose.specs.Reading.{HindersReading};

use sis_disk::Disk;
use sis_model::Hindrance;
use sis_volume::{Txn, Volume};

/// Writes whole blocks of a file, from block `first` on, to fresh places, and adds the edits that
/// map them.
pub(crate) fn stage_blocks<D: Disk>(
    volume: &mut Volume<D>,
    txn: &mut Txn,
    file: u64,
    first: u64,
    blocks: &[u8],
) -> Result<(), Hindrance>
    requires up { volume.old.down ≡ None }
    requires table { IsTable volume.old.table }
    requires whole { length blocks.now % 4096 ≡ 0 }
    requires room { length blocks.now / 4096 ≤ fresh volume.old txn.old }
    requires blocks { first + length blocks.now / 4096 ≤ 2 ^ 24 }
    ensures ok { OnOk result ((runs : List Run) × Stages volume.old.table.layout
        (held volume.old) txn.old txn.new file first (length blocks.now / 4096) blocks.now
        (live_of volume.new.seen) runs) }
    ensures fresh { OnOk result
        (fresh volume.new txn.new + length blocks.now / 4096 ≡ fresh volume.old txn.old) }
    ensures cause { IfErr result (HindersReading (length blocks.now / 4096)
        volume.old.seen volume.new.seen) }
    ensures quiet { OnOk result (volume.new.seen.faults ≡ volume.old.seen.faults) }
    ensures others { Both (KeepsOthers volume.old.table.layout (held volume.old) txn.old.edits)
        (live_of volume.old.seen) (live_of volume.new.seen) }
    ensures works { Works (length blocks.now / 4096) volume.old volume.new }
{
    // A write of no bytes is a call as well, and could fail.
    if blocks.is_empty() {
        return Ok(());
    }
    volume.stage(txn, file, first, blocks)
}
