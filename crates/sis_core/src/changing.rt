//! Commands on the bytes of open files.
ghost use Rattle.std.specs.Prelude.{◌≡◌, ℕ, false, true, None, Some, IfErr, IfOk, MatchOption};
ghost use Rattle.sis_model.specs.World.{World};
ghost use Rattle.sis_model.specs.declared.command.Command.TheVariants as asked;
ghost use Rattle.sis_model.specs.declared.reply.Reply.TheVariants as reply;
ghost use Rattle.sis_volume.specs.Stopping.{StopsWell};
ghost use Rattle.sis_table.specs.Volume.{IsTable};
ghost use Rattle.sis_core.specs.Deciding.{DecidesFor};
ghost use Rattle.sis_core.specs.Opens.{open_as};
ghost use Rattle.sis_core.specs.Session.{AreThere, ShowsWorld, session};

use crate::opens::{Open, Opens};
use sis_copyclose::ByteRange;
use sis_disk::Disk;
use sis_model::{Bytes, Reply};
use sis_table::GREATEST_SIZE;
use sis_volume::Volume;
use std::alloc::Global;

/// The most bytes of one read or write.
const MOST_BYTES: u64 = 65_536;

/// Reads bytes of an open file.
pub(crate) fn read<D: Disk>(
    volume: &mut Volume<D>,
    opens: &Opens,
    alloc: Global,
    client: u8,
    number: u64,
    range: ByteRange,
) -> Reply
    requires up { volume.old.down ≡ None }
    requires table { IsTable volume.old.table }
    requires there { AreThere volume.old.table opens.now }
    ensures decides { (w : World) → ShowsWorld w (session volume.old opens.now)
        → DecidesFor w (session volume.old opens.now) (session volume.new opens.now) client
        (asked.Read number range.at range.len) result }
    ensures stops { StopsWell volume.old volume.new }
{
    let Some(this) = opens.find(client, number) else {
        return Reply::InvalidOpen;
    };
    if range.len > MOST_BYTES || range.at > GREATEST_SIZE {
        return Reply::InvalidParameter;
    }
    let mut bytes = Vec::new(alloc);
    match sis_copyclose::read(volume, this.file, range, &mut bytes) {
        Ok(()) => Reply::Read {
            bytes: Bytes::from_vec(bytes),
        },
        Err(by) => Reply::Hindered { by },
    }
}

// The client's open of this number, where it may write.
fn writer(opens: &Opens, client: u8, number: u64) -> Result<Open, Reply>
    ensures ok { IfOk result (λ this. (open_as client number opens.now ≡ Some this)
        × (this.writes ≡ true)) }
    ensures err { IfErr result (λ refusal. MatchOption (open_as client number opens.now)
        (refusal ≡ reply.InvalidOpen)
        (λ this. (this.writes ≡ false) × (refusal ≡ reply.AccessDenied))) }
{
    let Some(this) = opens.find(client, number) else {
        return Err(Reply::InvalidOpen);
    };
    if !this.writes {
        return Err(Reply::AccessDenied);
    }
    Ok(this)
}

/// Writes bytes into an open file.
pub(crate) fn write<D: Disk>(
    volume: &mut Volume<D>,
    opens: &Opens,
    alloc: Global,
    client: u8,
    number: u64,
    at: u64,
    bytes: &Bytes,
) -> Reply
    requires up { volume.old.down ≡ None }
    requires table { IsTable volume.old.table }
    requires there { AreThere volume.old.table opens.now }
    ensures decides { (w : World) → ShowsWorld w (session volume.old opens.now)
        → DecidesFor w (session volume.old opens.now) (session volume.new opens.now) client
        (asked.Write number at bytes.now) result }
    ensures stops { StopsWell volume.old volume.new }
{
    let this = match writer(opens, client, number) {
        Ok(this) => this,
        Err(refusal) => return refusal,
    };
    let len = bytes.as_slice().len() as u64;
    if len > MOST_BYTES || at > GREATEST_SIZE - len {
        return Reply::InvalidParameter;
    }
    match sis_copyclose::write(alloc, volume, this.file, at, bytes.as_slice()) {
        Ok(()) => Reply::Done,
        Err(by) => Reply::Hindered { by },
    }
}

/// Gives an open file another size.
pub(crate) fn set_size<D: Disk>(
    volume: &mut Volume<D>,
    opens: &Opens,
    alloc: Global,
    client: u8,
    number: u64,
    len: u64,
) -> Reply
    requires up { volume.old.down ≡ None }
    requires table { IsTable volume.old.table }
    requires there { AreThere volume.old.table opens.now }
    ensures decides { (w : World) → ShowsWorld w (session volume.old opens.now)
        → DecidesFor w (session volume.old opens.now) (session volume.new opens.now) client
        (asked.Size number len) result }
    ensures stops { StopsWell volume.old volume.new }
{
    let this = match writer(opens, client, number) {
        Ok(this) => this,
        Err(refusal) => return refusal,
    };
    if len > GREATEST_SIZE {
        return Reply::InvalidParameter;
    }
    match sis_copyclose::set_size(alloc, volume, this.file, len) {
        Ok(()) => Reply::Done,
        Err(by) => Reply::Hindered { by },
    }
}
