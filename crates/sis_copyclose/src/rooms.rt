//! Room for the blocks of an operation.
ghost use Rattle.std.specs.Prelude.{◌≡◌, ◌*◌, ◌≤◌, None, length, IfErr, IfSome, OnOk};
ghost use Rattle.sis_disk.specs.Record.{live_of};
ghost use Rattle.sis_history.specs.Needs.{IsUnhindered, Need};
ghost use Rattle.sis_table.specs.Volume.{IsTable};
ghost use Rattle.sis_volume.specs.View.{spare};
ghost use Rattle.sis_copyclose.specs.Inside.{AsksBlocks, GivesUp, NoTable, Readies, blocks_alone};

use sis_disk::Disk;
use sis_model::Hindrance;
use sis_volume::Volume;

/// Makes sure that so many blocks can be staged. It commits only where too few places are spare.
pub(crate) fn make_room<D: Disk>(volume: &mut Volume<D>, blocks: u64) -> Result<(), Hindrance>
    requires up { volume.old.down ≡ None }
    requires table { IsTable volume.old.table }
    requires sized { IfSome (live_of volume.old.seen)
        (λ live. length live ≡ 4096 * volume.old.table.layout.total) }
    ensures spare { OnOk result (blocks ≤ spare volume.new) }
    ensures fits { OnOk result (IsUnhindered volume.old.table (blocks_alone blocks)) }
    ensures quiet { OnOk result (volume.new.seen.faults ≡ volume.old.seen.faults) }
    ensures ready { OnOk result ((need : Need) → need.blocks ≡ blocks
        → Readies need 0 volume.old volume.new) }
    ensures fails { IfErr result (λ by. (need : Need) → need.blocks ≡ blocks
        → AsksBlocks volume.old.table need
        → GivesUp need NoTable 0 volume.old volume.new by) }
{
    volume.room(blocks)
}
