//! Edits of the table in memory. Nothing is written.
ghost use Rattle.std.specs.Prelude.{◌≡◌, ◌<◌, length, OnOk, OnErr, IfErr, IsErr, ◌||◌};
ghost use Rattle.sis_disk.specs.Layout.{table_cap};
ghost use Rattle.sis_table.specs.Spelling.{spelling};
ghost use Rattle.sis_table.specs.Edits.{edited_by, MayEditBy};
ghost use Rattle.sis_table.specs.Uses.{TakesFresh};
ghost use Rattle.sis_volume.specs.Applying.{HindersApplying, is_edit};

use crate::{Txn, Volume};
use sis_disk::Disk;
use sis_model::Hindrance;
use sis_table::{Edit, EditsFault};

// Whether a table is changed after edits, given whether it was before.
fn is_changed_by(was: bool, edits: &[Edit]) -> bool
    ensures { result ≡ (was || is_edit edits.now) }
{
    was || !edits.is_empty()
}

impl<D: Disk> Volume<D> {
    /// Makes all edits of a transaction, or none. The disk stays as it is.
    ///
    /// No edit may map a place that a file maps when its turn comes. Places that edits free stay
    /// with the committed table up to the next commit.
    pub fn apply(&mut self, txn: &Txn) -> Result<(), Hindrance>
        requires may { MayEditBy self.old.table txn.now.edits }
        requires fresh { TakesFresh self.old.table txn.now.edits }
        ensures ok { OnOk result (self.new ≡ record self.old {
          table = edited_by self.old.table txn.now.edits;
          is_changed = self.old.is_changed || is_edit txn.now.edits;
        }) }
        ensures err { OnErr result (self.new ≡ self.old) }

        // A table that is too long for its area is refused, and else only want of memory hinders.
        ensures full { table_cap self.old.table.layout
            < length (spelling (edited_by self.old.table txn.now.edits)) → IsErr result }
        ensures cause { IfErr result (HindersApplying
            (length (spelling (edited_by self.old.table txn.now.edits)))
            (table_cap self.old.table.layout)) }
    {
        let edits = txn.edits();
        let layout = self.kept.layout();
        let cap = layout.cap();
        match self.kept.apply_all(edits, cap) {
            Ok(uses) => {
                self.places.change(&layout, &uses);
                self.is_changed = is_changed_by(self.is_changed, edits);
                Ok(())
            }
            Err(EditsFault::TooLong { needed }) => Err(Hindrance::TableFull { needed, cap }),
            Err(EditsFault::Memory) => Err(Hindrance::Memory),
        }
    }
}
