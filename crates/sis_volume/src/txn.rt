//! Edits that are applied together.
ghost use Rattle.std.specs.Prelude.{◌≡◌, ◌+◌, ◌^◌, ◌<◌, ◌≤◌, [], ◌∷◌, ◌++◌, take, OnOk, OnErr};
ghost use Rattle.sis_table.specs.Edits.{map_edit};
ghost use Rattle.sis_volume.specs.Keeping.{IsFront};

use sis_ranges::Run;
use sis_table::Edit;
use std::alloc::{AllocError, Global};
use std::marker::Model;

/// Edits that are applied together, or not at all.
#[derive(Drop)]
pub struct Txn {
    edits: Vec<Edit>,
}

impl Model for Txn {
    ghost use Rattle.sis_volume.specs.View.{TxnView};

    ghost Value = { TxnView };

    ghost view = { λ t. record { edits = t.edits.items } };
}

/// What edits map of neighbouring places, from the first one on.
#[derive(Clone, Copy)]
pub(crate) enum Front {
    /// All places up to before this one.
    Mapped { end: u64 },
    /// None of so many.
    Free { count: u64 },
}

// What one edit maps of them.
fn front_of(edit: &Edit, place: u64, count: u64) -> Front
    requires some { 1 ≤ count }
    requires end { place + count < 2 ^ 64 }
    ensures { IsFront (edit.now ∷ []) place count result }
{
    match edit {
        Edit::Map {
            count: mapped,
            place: at,
            ..
        } => {
            if *at > place {
                return Front::Free {
                    count: count.min(*at - place),
                };
            }
            if place - *at < *mapped {
                return Front::Mapped {
                    end: at.saturating_add(*mapped),
                };
            }
            Front::Free { count }
        }
        Edit::Make { .. }
        | Edit::Drop { .. }
        | Edit::Rename { .. }
        | Edit::Size { .. }
        | Edit::Unmap { .. }
        | Edit::Version { .. } => Front::Free { count },
    }
}

// What edits map of them.
fn front_in(edits: &[Edit], place: u64, count: u64) -> Front
    requires some { 1 ≤ count }
    requires end { place + count < 2 ^ 64 }
    ensures { IsFront edits.now place count result }
{
    let mut free = count;
    for edit in edits {
        match front_of(edit, place, free) {
            Front::Mapped { end } => return Front::Mapped { end },
            Front::Free { count } => free = count,
        }
    }
    Front::Free { count: free }
}

impl Txn {
    /// A transaction without edits. Takes no memory.
    pub fn begin(alloc: Global) -> Txn
        ensures { result ≡ record { edits = [] } }
    {
        Txn {
            edits: Vec::new(alloc),
        }
    }

    /// Adds an edit behind the others.
    pub fn push(&mut self, edit: Edit) -> Result<(), AllocError>
        ensures ok { OnOk result (self.new ≡ record { edits = self.old.edits ++ edit ∷ [] }) }
        ensures err { OnErr result (self.new ≡ self.old) }
    {
        self.edits.push(edit)?;
        Ok(())
    }

    /// The edits.
    pub fn edits(&self) -> &[Edit]
        ensures { result.now ≡ self.now.edits }
    {
        &self.edits
    }

    /// What the edits map of so many places, from the first one on.
    pub(crate) fn front(&self, place: u64, count: u64) -> Front
        requires some { 1 ≤ count }
        requires end { place + count < 2 ^ 64 }
        ensures { IsFront self.now.edits place count result }
    {
        front_in(&self.edits, place, count)
    }

    /// Maps a run of a file's blocks.
    pub(crate) fn map(&mut self, file: u64, run: Run) -> Result<(), AllocError>
        ensures ok { OnOk result (self.new
            ≡ record { edits = self.old.edits ++ map_edit file run ∷ [] }) }
        ensures err { OnErr result (self.new ≡ self.old) }
    {
        self.push(Edit::Map {
            id: file,
            first: run.first,
            count: run.count,
            place: run.place,
        })
    }

    /// Drops the edits behind the first `count`.
    pub(crate) fn cut(&mut self, count: usize)
        ensures { self.new ≡ record { edits = take count self.old.edits } }
    {
        self.edits.truncate(count);
    }
}
