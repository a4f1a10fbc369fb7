//! Commands that make durable what was done.
ghost use Rattle.std.specs.Prelude.{◌≡◌, ℕ, false, List, None};
ghost use Rattle.sis_model.specs.World.{World};
ghost use Rattle.sis_model.specs.declared.command.Command.TheVariants as asked;
ghost use Rattle.sis_volume.specs.Stopping.{StopsWell};
ghost use Rattle.sis_table.specs.Volume.{IsTable};
ghost use Rattle.sis_core.specs.Deciding.{DecidesFor, IsDurable};
ghost use Rattle.sis_core.specs.Session.{ShowsWorld, session};
ghost use Rattle.sis_core.specs.declared.opens.Open.{Open as AnOpen};

use crate::opens::Opens;
use sis_disk::Disk;
use sis_model::{Reply, UnsettledList};
use sis_volume::Volume;
use std::alloc::Global;

/// Commits.
pub(crate) fn sync<D: Disk>(volume: &mut Volume<D>) -> Reply
    requires up { volume.old.down ≡ None }
    requires table { IsTable volume.old.table }
    ensures decides { (w : World) (opens : List AnOpen) (client : ℕ)
        → ShowsWorld w (session volume.old opens)
        → DecidesFor w (session volume.old opens) (session volume.new opens) client
        asked.Sync result }
    ensures stops { StopsWell volume.old volume.new }
    ensures durable { IsDurable volume.new asked.Sync result }
{
    match volume.commit() {
        Ok(()) => Reply::Done,
        Err(by) => Reply::Hindered { by },
    }
}

/// Commits, and lets all opens of the client go.
pub(crate) fn end<D: Disk>(
    volume: &mut Volume<D>,
    opens: &mut Opens,
    alloc: Global,
    client: u8,
) -> Reply
    requires up { volume.old.down ≡ None }
    requires table { IsTable volume.old.table }
    ensures decides { (w : World) → ShowsWorld w (session volume.old opens.old)
        → DecidesFor w (session volume.old opens.old) (session volume.new opens.new) client
        asked.End result }
    ensures stops { StopsWell volume.old volume.new }
    ensures durable { IsDurable volume.new asked.End result }
    ensures saved { volume.new.down ≡ None → volume.new.is_changed ≡ false }
{
    if let Err(by) = volume.commit() {
        return Reply::Hindered { by };
    }
    let closed = opens.count(client);
    opens.drop_client(client);
    Reply::Ended {
        closed,
        unsettled: UnsettledList::new(alloc),
    }
}
