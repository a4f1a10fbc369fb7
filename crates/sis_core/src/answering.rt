//! Decides commands.
ghost use Rattle.std.specs.Prelude.{◌≡◌, ℕ, true, false, None};
ghost use Rattle.sis_history.specs.Replies.{IsServed};
ghost use Rattle.sis_model.specs.Order.{is_end};
ghost use Rattle.sis_model.specs.World.{World};
ghost use Rattle.sis_table.specs.Volume.{IsTable};
ghost use Rattle.sis_volume.specs.Stopping.{StopsWell};
ghost use Rattle.sis_core.specs.Deciding.{DecidesFor, IsDurable};
ghost use Rattle.sis_core.specs.Session.{AreThere, ShowsWorld, session};

use crate::changing::{read, set_size, write};
use crate::making::{put, remove, rename};
use crate::opening::{close, open};
use crate::opens::Opens;
use crate::saving::{end, sync};
use crate::telling::{list, space, stat};
use sis_disk::Disk;
use sis_model::{ByteRange, Command, Hindrance, Reply};
use sis_volume::Volume;
use std::alloc::Global;

/// Carries out a client's command. Once a commit failed, each command is answered so.
pub(crate) fn answer<D: Disk>(
    volume: &mut Volume<D>,
    opens: &mut Opens,
    alloc: Global,
    client: u8,
    command: &Command,
) -> Reply
    requires served { IsServed command.now }
    requires there { AreThere volume.old.table opens.old }
    ensures decides { (w : World) → ShowsWorld w (session volume.old opens.old)
        → DecidesFor w (session volume.old opens.old) (session volume.new opens.new) client
        command.now result }
    ensures stops { StopsWell volume.old volume.new }
    ensures durable { IsDurable volume.new command.now result }
    ensures old_table { IsTable volume.old.table }
    ensures saved { is_end command.now ≡ true → volume.new.down ≡ None
        → volume.new.is_changed ≡ false }
{
    if let Some(at) = volume.down() {
        return Reply::Hindered {
            by: Hindrance::Down { at },
        };
    }
    match command {
        Command::Put { name, bytes } => put(volume, alloc, name, bytes),
        Command::Open { name, write } => open(volume, opens, client, name, *write),
        Command::Read { number, at, len } => {
            let range = ByteRange { at: *at, len: *len };
            read(volume, opens, alloc, client, *number, range)
        }
        Command::Write { number, at, bytes } => {
            write(volume, opens, alloc, client, *number, *at, bytes)
        }
        Command::Size { number, len } => set_size(volume, opens, alloc, client, *number, *len),
        Command::Close { number } => close(volume, opens, client, *number),
        Command::Remove { name } => remove(volume, opens, alloc, name),
        Command::Rename { old, new } => rename(volume, opens, alloc, old, new),
        Command::Stat { name } => stat(volume, name),
        Command::List { after } => list(volume, alloc, after.as_ref()),
        Command::Space => space(volume),
        Command::Sync => sync(volume),
        Command::End => end(volume, opens, alloc, client),
        Command::Tell { .. } | Command::Fsctl { .. } | Command::Grovel => unreachable!(),
    }
}
