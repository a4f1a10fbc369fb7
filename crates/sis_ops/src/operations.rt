//! Operations by fields of lines. What an operation wants of its call is tested first.
ghost use Rattle.std.specs.Prelude.{◌≡◌, ◌+◌, ◌≤◌, length, true, false, IfOk, OnOk};
ghost use Rattle.std.specs.List.{list_any};
ghost use Rattle.sis_name.specs.Units.{is_store_name};
ghost use Rattle.sis_table.specs.Edits.{IfThere};
ghost use Rattle.sis_table.specs.Kinds.{plain_node};
ghost use Rattle.sis_table.specs.Volume.{greatest_size, has_name, node_with};

use crate::refusal::Refusal;
use sis_copyclose::ByteRange;
use sis_disk::Memory;
use sis_name::Name;
use sis_table::{Edit, GREATEST_NUMBER, GREATEST_SIZE};
use sis_volume::{Txn, Volume};
use std::alloc::Global;

// A plain file has the id.
fn is_file(volume: &Volume<Memory>, file: u64) -> Result<(), Refusal>
    ensures { OnOk result (IfThere (node_with volume.now.table file)
        (λ n. plain_node n ≡ true)) }
{
    match volume.node(file) {
        Some(node) if node.kind.is_plain() => Ok(()),
        _ => Err(Refusal::NoFile),
    }
}

// So many bytes from one on end at the greatest size or before.
fn is_near(at: u64, len: u64) -> Result<(), Refusal>
    ensures { OnOk result (at + len ≤ greatest_size) }
{
    if at <= GREATEST_SIZE && len <= GREATEST_SIZE - at {
        Ok(())
    } else {
        Err(Refusal::TooFar)
    }
}

// A name that a user may give, and that no file has.
#[tactic(auto, using(crate::proofs::Names::is_free))]
fn free_name(alloc: Global, volume: &Volume<Memory>, text: &str) -> Result<Name, Refusal>
    ensures user { IfOk result (λ name. is_store_name name ≡ false) }
    ensures free { IfOk result (λ name. list_any (has_name name) volume.now.table.nodes ≡ false) }
{
    let name = Name::from_text(alloc, text)?;
    if name.is_store() {
        return Err(Refusal::StoreName);
    }
    if volume.find(&name).is_some() {
        return Err(Refusal::NameTaken);
    }
    Ok(name)
}

/// Makes a file of so many bytes with this value.
pub fn put(
    alloc: Global,
    volume: &mut Volume<Memory>,
    name: &str,
    len: u64,
    fill: u8,
) -> Result<(), Refusal> {
    let name = free_name(alloc, volume, name)?;
    is_near(0, len)?;
    let bytes = vec![in alloc; fill; len as usize]?;
    Ok(sis_copyclose::put(alloc, volume, &name, &bytes)?)
}

/// The bytes of a range of a file.
pub fn read(
    alloc: Global,
    volume: &mut Volume<Memory>,
    file: u64,
    range: ByteRange,
) -> Result<Vec<u8>, Refusal> {
    is_file(volume, file)?;
    let mut bytes = Vec::new(alloc);
    sis_copyclose::read(volume, file, range, &mut bytes)?;
    Ok(bytes)
}

/// Writes so many bytes with this value.
pub fn write(
    alloc: Global,
    volume: &mut Volume<Memory>,
    file: u64,
    range: ByteRange,
    fill: u8,
) -> Result<(), Refusal> {
    is_file(volume, file)?;
    is_near(range.at, range.len)?;
    let bytes = vec![in alloc; fill; range.len as usize]?;
    Ok(sis_copyclose::write(alloc, volume, file, range.at, &bytes)?)
}

/// Gives a file another size.
pub fn set_size(
    alloc: Global,
    volume: &mut Volume<Memory>,
    file: u64,
    len: u64,
) -> Result<(), Refusal> {
    is_file(volume, file)?;
    is_near(0, len)?;
    Ok(sis_copyclose::set_size(alloc, volume, file, len)?)
}

/// Takes a file out.
pub fn remove(alloc: Global, volume: &mut Volume<Memory>, file: u64) -> Result<(), Refusal> {
    is_file(volume, file)?;
    sis_copyclose::remove(alloc, volume, file)?;
    Ok(())
}

/// Gives a file another name.
pub fn rename(
    alloc: Global,
    volume: &mut Volume<Memory>,
    file: u64,
    name: &str,
) -> Result<(), Refusal> {
    is_file(volume, file)?;
    let name = free_name(alloc, volume, name)?;
    Ok(sis_copyclose::rename(alloc, volume, file, &name)?)
}

/// Gives a file a greater version by an edit of its own.
pub fn set_version(
    alloc: Global,
    volume: &mut Volume<Memory>,
    file: u64,
    version: u64,
) -> Result<(), Refusal> {
    match volume.node(file) {
        None => return Err(Refusal::NoFile),
        Some(node) if node.version < version && version <= GREATEST_NUMBER => {}
        Some(_) => return Err(Refusal::Version),
    }
    let mut txn = Txn::begin(alloc);
    txn.push(Edit::Version { id: file, version })?;
    Ok(volume.apply(&txn)?)
}
