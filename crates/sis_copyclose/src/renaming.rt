//! Gives files other names.
ghost use Rattle.std.specs.Prelude.{◌≡◌, false, true};
ghost use Rattle.std.specs.List.{list_any};
ghost use Rattle.sis_history.specs.Needs.{no_need};
ghost use Rattle.sis_name.specs.Units.{is_store_name};
ghost use Rattle.sis_table.specs.Edits.{IfThere};
ghost use Rattle.sis_table.specs.Kinds.{plain_node};
ghost use Rattle.sis_table.specs.Volume.{has_name, node_with};
ghost use Rattle.sis_copyclose.specs.Changed.{IsRenamed, with_new_name};
ghost use Rattle.sis_copyclose.specs.Operating.{Operates};

use sis_disk::Disk;
use sis_model::Hindrance;
use sis_name::Name;
use sis_table::Edit;
use sis_volume::{Txn, Volume};
use std::alloc::Global;

/// Gives a file another name, which no file has. Its bytes, version and places stay.
pub fn rename<D: Disk>(
    alloc: Global,
    volume: &mut Volume<D>,
    file: u64,
    name: &Name,
) -> Result<(), Hindrance>
    requires there { IfThere (node_with volume.old.table file) (λ n. plain_node n ≡ true) }
    requires user { is_store_name name.now ≡ false }
    requires free { list_any (has_name name.now) volume.old.table.nodes ≡ false }
    ensures { IfThere (node_with volume.old.table file) (λ n.
        Operates no_need (IsRenamed volume.old.table file name.now)
        (with_new_name n.name name.now) 0 result volume.old volume.new) }
{
    if let Some(at) = volume.down() {
        return Err(Hindrance::Down { at });
    }
    let mut txn = Txn::begin(alloc);
    txn.push(Edit::Rename {
        id: file,
        name: name.copy(alloc)?,
    })?;
    volume.apply(&txn)
}
