//! Commands on files by their names: new ones, removals and other names.
ghost use Rattle.std.specs.Prelude.{◌≡◌, ℕ, List, None};
ghost use Rattle.sis_model.specs.World.{World};
ghost use Rattle.sis_model.specs.declared.command.Command.TheVariants as asked;
ghost use Rattle.sis_volume.specs.Stopping.{StopsWell};
ghost use Rattle.sis_table.specs.Volume.{IsTable};
ghost use Rattle.sis_core.specs.Deciding.{DecidesFor};
ghost use Rattle.sis_core.specs.Session.{ShowsWorld, session};
ghost use Rattle.sis_core.specs.declared.opens.Open.{Open as AnOpen};

use crate::opens::Opens;
use sis_disk::Disk;
use sis_model::{Bytes, Hindrance, Reply};
use sis_name::Name;
use sis_volume::Volume;
use std::alloc::Global;

/// The most bytes of one put.
const MOST_PUT_BYTES: usize = 65536;

/// Makes a file.
pub(crate) fn put<D: Disk>(
    volume: &mut Volume<D>,
    alloc: Global,
    name: &Name,
    bytes: &Bytes,
) -> Reply
    requires up { volume.old.down ≡ None }
    requires table { IsTable volume.old.table }
    ensures decides { (w : World) (opens : List AnOpen) (client : ℕ)
        → ShowsWorld w (session volume.old opens)
        → DecidesFor w (session volume.old opens) (session volume.new opens) client
        (asked.Put name.now bytes.now) result }
    ensures stops { StopsWell volume.old volume.new }
{
    if bytes.as_slice().len() > MOST_PUT_BYTES {
        return Reply::InvalidParameter;
    }
    if name.is_store() {
        return Reply::AccessDenied;
    }
    if volume.find(name).is_some() {
        return Reply::Collision;
    }
    match sis_copyclose::put(alloc, volume, name, bytes.as_slice()) {
        Ok(()) => Reply::Done,
        Err(by) => Reply::Hindered { by },
    }
}

/// Takes a file out that isn't open.
pub(crate) fn remove<D: Disk>(
    volume: &mut Volume<D>,
    opens: &Opens,
    alloc: Global,
    name: &Name,
) -> Reply
    requires up { volume.old.down ≡ None }
    requires table { IsTable volume.old.table }
    ensures decides { (w : World) (client : ℕ)
        → ShowsWorld w (session volume.old opens.now)
        → DecidesFor w (session volume.old opens.now) (session volume.new opens.now) client
        (asked.Remove name.now) result }
    ensures stops { StopsWell volume.old volume.new }
{
    if name.is_store() {
        return Reply::AccessDenied;
    }
    let Some(file) = volume.find(name) else {
        return Reply::NotFound;
    };
    if opens.has_file(file) {
        return Reply::InUse;
    }
    match sis_copyclose::remove(alloc, volume, file) {
        Ok(_) => Reply::Done,
        Err(by) => Reply::Hindered { by },
    }
}

/// Gives a file that isn't open another name.
pub(crate) fn rename<D: Disk>(
    volume: &mut Volume<D>,
    opens: &Opens,
    alloc: Global,
    old: &Name,
    new: &Name,
) -> Reply
    requires up { volume.old.down ≡ None }
    requires table { IsTable volume.old.table }
    ensures decides { (w : World) (client : ℕ)
        → ShowsWorld w (session volume.old opens.now)
        → DecidesFor w (session volume.old opens.now) (session volume.new opens.now) client
        (asked.Rename old.now new.now) result }
    ensures stops { StopsWell volume.old volume.new }
{
    if old.is_store() || new.is_store() {
        return Reply::AccessDenied;
    }
    let Some(file) = volume.find(old) else {
        return Reply::NotFound;
    };
    if volume.find(new).is_some() {
        return Reply::Collision;
    }
    if opens.has_file(file) {
        return Reply::InUse;
    }
    match sis_copyclose::rename(alloc, volume, file, new) {
        Ok(()) => Reply::Done,
        Err(by) => Reply::Hindered { by },
    }
}
