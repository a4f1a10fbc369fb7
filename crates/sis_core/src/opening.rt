//! Commands that open files, and let them go.
ghost use Rattle.std.specs.Prelude.{◌≡◌, ℕ, None};
ghost use Rattle.sis_model.specs.World.{World};
ghost use Rattle.sis_model.specs.declared.command.Command.TheVariants as asked;
ghost use Rattle.sis_volume.specs.Stopping.{StopsWell};
ghost use Rattle.sis_table.specs.Volume.{IsTable};
ghost use Rattle.sis_core.specs.Deciding.{DecidesFor, IsDurable};
ghost use Rattle.sis_core.specs.Opens.{fate_in};
ghost use Rattle.sis_core.specs.Session.{ShowsWorld, session};

use crate::opens::{MOST_OPENS, Open, Opens};
use sis_disk::Disk;
use sis_model::{Fate, Hindrance, LimitKind, Reply};
use sis_name::Name;
use sis_volume::Volume;

/// Opens a file under the least number that the client has free.
pub(crate) fn open<D: Disk>(
    volume: &Volume<D>,
    opens: &mut Opens,
    client: u8,
    name: &Name,
    writes: bool,
) -> Reply
    requires up { volume.now.down ≡ None }
    requires table { IsTable volume.now.table }
    ensures { (w : World) → ShowsWorld w (session volume.now opens.old)
        → DecidesFor w (session volume.now opens.old) (session volume.now opens.new) client
        (asked.Open name.now writes) result }
{
    if name.is_store() {
        return Reply::AccessDenied;
    }
    let Some(file) = volume.find(name) else {
        return Reply::NotFound;
    };
    if opens.count(client) >= MOST_OPENS {
        return Reply::Hindered {
            by: Hindrance::Limit {
                kind: LimitKind::Opens,
            },
        };
    }
    let number = opens.free_number(client);
    let this = Open {
        client,
        number,
        file,
        writes,
    };
    match opens.add(this) {
        Ok(()) => Reply::Opened { number },
        Err(_) => Reply::Hindered {
            by: Hindrance::Memory,
        },
    }
}

// What a close leaves of the file.
fn fate_of(opens: &Opens, this: &Open) -> Fate
    ensures { result ≡ fate_in opens.now this.now }
{
    if !this.writes {
        return Fate::Read;
    }
    if opens.has_other_writer(this) {
        return Fate::Writer;
    }
    Fate::Plain
}

/// Lets an open go, behind a commit.
pub(crate) fn close<D: Disk>(
    volume: &mut Volume<D>,
    opens: &mut Opens,
    client: u8,
    number: u64,
) -> Reply
    requires up { volume.old.down ≡ None }
    requires table { IsTable volume.old.table }
    ensures decides { (w : World) → ShowsWorld w (session volume.old opens.old)
        → DecidesFor w (session volume.old opens.old) (session volume.new opens.new) client
        (asked.Close number) result }
    ensures stops { StopsWell volume.old volume.new }
    ensures durable { IsDurable volume.new (asked.Close number) result }
{
    let Some(this) = opens.find(client, number) else {
        return Reply::InvalidOpen;
    };
    if let Err(by) = volume.commit() {
        return Reply::Hindered { by };
    }
    let fate = fate_of(opens, &this);
    opens.drop_one(client, number);
    Reply::Closed { fate }
}
