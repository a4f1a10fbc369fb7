//! Takes files out.
ghost use Rattle.std.specs.Prelude.{◌≡◌, None, IfOk, true};
ghost use Rattle.std.specs.FinMap.{remove};
ghost use Rattle.sis_history.specs.Needs.{no_need};
ghost use Rattle.sis_table.specs.Edits.{IfThere};
ghost use Rattle.sis_table.specs.Kinds.{plain_node};
ghost use Rattle.sis_table.specs.Volume.{node_with};
ghost use Rattle.sis_copyclose.specs.Changed.{IsWithoutFile};
ghost use Rattle.sis_copyclose.specs.Operating.{Operates};

use crate::Stale;
use sis_disk::Disk;
use sis_model::Hindrance;
use sis_table::Edit;
use sis_volume::{Txn, Volume};
use std::alloc::Global;

/// Takes a file out. Its places are free.
///
/// Where the file was a link, the note is answered that its store file still has of it.
pub fn remove<D: Disk>(
    alloc: Global,
    volume: &mut Volume<D>,
    file: u64,
) -> Result<Option<Stale>, Hindrance>
    requires { IfThere (node_with volume.old.table file) (λ n. plain_node n ≡ true) }
    ensures leaves { IfThere (node_with volume.old.table file) (λ n.
        Operates no_need (IsWithoutFile volume.old.table file) (λ files. remove files n.name)
        0 result volume.old volume.new) }
    ensures stale { IfOk result (λ stale. stale ≡ None) }
{
    if let Some(at) = volume.down() {
        return Err(Hindrance::Down { at });
    }
    let mut txn = Txn::begin(alloc);
    txn.push(Edit::Drop { id: file })?;
    volume.apply(&txn)?;
    Ok(None)
}
