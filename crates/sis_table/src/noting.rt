//! Notes what edits do to the places of the image.
ghost use Rattle.std.specs.Prelude.{◌≡◌, ◌≤◌, ◌++◌, map, OnOk};
ghost use Rattle.std.specs.FinMap.{get};
ghost use Rattle.sis_table.specs.Drafts.{Drafts};
ghost use Rattle.sis_table.specs.Edits.{MayEdit};
ghost use Rattle.sis_table.specs.Inside.{Frees, Notes, freed, lies_between, maps_by};
ghost use Rattle.sis_table.specs.Volume.{VolumeTable, node_with, place_in};

use crate::draft::Draft;
use crate::files::Files;
use crate::{Edit, PlaceUse};
use sis_ranges::{Extents, Run};
use std::alloc::AllocError;

/// Notes what an edit is about to do: the places of blocks that it maps elsewhere or takes out are
/// free then, and those that it maps are used.
pub fn note(
    files: &Files,
    draft: &Draft,
    edit: &Edit,
    uses: &mut Vec<PlaceUse>,
) -> Result<(), AllocError>
    requires { (v now : VolumeTable) × (v.nodes ≡ files.now) × Drafts v draft.now now
        × MayEdit now edit.now }
    ensures { OnOk result ((v now : VolumeTable) → v.nodes ≡ files.now → Drafts v draft.now now
        → MayEdit now edit.now → Notes now edit.now uses.old.items uses.new.items) }
{
    match edit {
        Edit::Drop { id } => {
            note_all(files, draft, *id, uses)?;
            Ok(())
        }
        Edit::Unmap { id, first, count } => {
            // A sum past u64::MAX is cut there, far behind each block that is mapped.
            note_stretch(
                files,
                draft,
                *id,
                *first,
                first.saturating_add(*count),
                uses,
            )?;
            Ok(())
        }
        Edit::Map {
            id,
            first,
            count,
            place,
        } => {
            let end = *first + *count;
            note_stretch(files, draft, *id, *first, end, uses)?;
            uses.push(PlaceUse {
                place: *place,
                count: *count,
                is_taken: true,
            })?;
            Ok(())
        }
        Edit::Make { .. } | Edit::Rename { .. } | Edit::Size { .. } | Edit::Version { .. } => Ok(
            (),
        ),
    }
}

// Notes that the places of a file are free.
fn note_all(
    files: &Files,
    draft: &Draft,
    id: u64,
    uses: &mut Vec<PlaceUse>,
) -> Result<(), AllocError>
    ensures { OnOk result ((v now : VolumeTable) → v.nodes ≡ files.now → Drafts v draft.now now
        → Frees (maps_by (node_with now id)) (place_in now id) uses.old.items uses.new.items) }
{
    match draft.node(files, id) {
        Some(node) => {
            note_runs(node.map.runs(), uses)?;
            Ok(())
        }
        None => Ok(()),
    }
}

// Notes that the places of the runs are free.
fn note_runs(runs: &[Run], uses: &mut Vec<PlaceUse>) -> Result<(), AllocError>
    ensures { OnOk result (uses.new.items ≡ uses.old.items ++ map freed runs.now) }
{
    for run in runs {
        uses.push(PlaceUse {
            place: run.place,
            count: run.count,
            is_taken: false,
        })?;
    }
    Ok(())
}

// Notes that the places of a file's blocks from `first` up to before `end` are free.
fn note_stretch(
    files: &Files,
    draft: &Draft,
    id: u64,
    first: u64,
    end: u64,
    uses: &mut Vec<PlaceUse>,
) -> Result<(), AllocError>
    requires { first ≤ end }
    ensures { OnOk result ((v now : VolumeTable) → v.nodes ≡ files.now → Drafts v draft.now now
        → Frees (lies_between (place_in now id) first end) (place_in now id)
        uses.old.items uses.new.items) }
{
    match draft.node(files, id) {
        Some(node) => {
            note_part(&node.map, first, end, uses)?;
            Ok(())
        }
        None => Ok(()),
    }
}

// Notes that the places of a map's blocks from `first` up to before `end` are free.
fn note_part(
    map: &Extents,
    first: u64,
    end: u64,
    uses: &mut Vec<PlaceUse>,
) -> Result<(), AllocError>
    requires { first ≤ end }
    ensures { OnOk result (Frees (lies_between (get map.now) first end) (get map.now)
        uses.old.items uses.new.items) }
{
    let mut at = first;
    'parts: while let Some(run) = map.next_part(at, end) {
        uses.push(PlaceUse {
            place: run.place,
            count: run.count,
            is_taken: false,
        })?;
        at = run.first + run.count;
    }
    Ok(())
}
