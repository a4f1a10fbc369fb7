//! Commands that only tell what there is.
ghost use Rattle.std.specs.Prelude.{◌≡◌, ℕ, List, None, IfOk, length, take, nat_lt};
ghost use Rattle.std.specs.Option.{option_map, option_copied};
ghost use Rattle.sis_model.specs.Answer.{most_names};
ghost use Rattle.sis_model.specs.World.{World};
ghost use Rattle.sis_model.specs.declared.command.Command.TheVariants as asked;
ghost use Rattle.sis_table.specs.Volume.{IsTable, names_after, node_named};
ghost use Rattle.sis_core.specs.Deciding.{DecidesFor};
ghost use Rattle.sis_core.specs.Session.{ShowsWorld, session};
ghost use Rattle.sis_core.specs.declared.opens.Open.{Open as AnOpen};

use sis_disk::Disk;
use sis_model::{Hindrance, NameList, Reply};
use sis_name::Name;
use sis_volume::Volume;
use std::alloc::{AllocError, Global};

/// The most names of one list.
const MOST_NAMES: usize = 100;

fn size_of<D: Disk>(volume: &Volume<D>, name: &Name) -> Option<u64>
    ensures { result ≡ option_map (λ n. n.size) (node_named volume.now.table name.now) }
{
    let id = volume.find(name)?;
    match volume.node(id) {
        Some(node) => Some(node.size),
        None => None,
    }
}

/// Tells a file's size.
pub(crate) fn stat<D: Disk>(volume: &Volume<D>, name: &Name) -> Reply
    requires up { volume.now.down ≡ None }
    requires table { IsTable volume.now.table }
    ensures { (w : World) (opens : List AnOpen) (client : ℕ)
        → ShowsWorld w (session volume.now opens)
        → DecidesFor w (session volume.now opens) (session volume.now opens) client
        (asked.Stat name.now) result }
{
    if name.is_store() {
        return Reply::AccessDenied;
    }
    match size_of(volume, name) {
        Some(size) => Reply::Sized { size },
        None => Reply::NotFound,
    }
}

// The first names that are greater than another, and whether more follow.
fn first_names<D: Disk>(
    volume: &Volume<D>,
    alloc: Global,
    after: Option<&Name>,
) -> Result<(NameList, bool), AllocError>
    ensures names { IfOk result (λ found. found.0
        ≡ take most_names (names_after volume.now.table (option_copied after.entry))) }
    ensures more { IfOk result (λ found. found.1
        ≡ nat_lt most_names (length (names_after volume.now.table (option_copied after.entry)))) }
{
    let mut names = NameList::new(alloc);
    let mut next = volume.next_file(after);
    while let Some(id) = next {
        if names.as_slice().len() == MOST_NAMES {
            return Ok((names, true));
        }
        let node = volume.node(id).unwrap();
        names.push(node.name.copy(alloc)?)?;
        next = volume.next_file(Some(&node.name));
    }
    Ok((names, false))
}

/// Tells the first names behind another one.
pub(crate) fn list<D: Disk>(volume: &Volume<D>, alloc: Global, after: Option<&Name>) -> Reply
    requires up { volume.now.down ≡ None }
    requires table { IsTable volume.now.table }
    ensures { (w : World) (opens : List AnOpen) (client : ℕ)
        → ShowsWorld w (session volume.now opens)
        → DecidesFor w (session volume.now opens) (session volume.now opens) client
        (asked.List (option_copied after.entry)) result }
{
    match first_names(volume, alloc, after) {
        Ok((names, more)) => Reply::Names { names, more },
        Err(_) => Reply::Hindered {
            by: Hindrance::Memory,
        },
    }
}

/// Tells how many data blocks are mapped, and how many there are.
pub(crate) fn space<D: Disk>(volume: &Volume<D>) -> Reply
    requires up { volume.now.down ≡ None }
    requires table { IsTable volume.now.table }
    ensures { (w : World) (opens : List AnOpen) (client : ℕ)
        → ShowsWorld w (session volume.now opens)
        → DecidesFor w (session volume.now opens) (session volume.now opens) client
        asked.Space result }
{
    Reply::Space {
        used: volume.used(),
        total: volume.total(),
    }
}
