//! Formats a disk as an image without files.
ghost use Rattle.std.specs.Prelude.{◌≡◌, ◌⊎◌, ◌+◌, ◌*◌, ◌≤◌, [], drop, length, Err, IfErr, IfSome, OnErr, OnOk};
ghost use Rattle.std.specs.Option.{option_map};
ghost use Rattle.sis_disk.specs.Layout.{IsLayout};
ghost use Rattle.sis_disk.specs.Record.{laid, live_of};
ghost use Rattle.sis_disk.specs.Stops.{Elapses, Now};
ghost use Rattle.sis_table.specs.Image.{Holds};
ghost use Rattle.sis_table.specs.Spelling.{spelling};
ghost use Rattle.sis_table.specs.Volume.{empty_table};
ghost use Rattle.sis_journal.specs.Formatting.{CausedFormat, EndsInSync, new_blocks};

use crate::kept_table::KeptTable;
use crate::{FormatFault, Volume};
use sis_disk::{Disk, Layout};
use sis_journal::Journal;
use sis_table::Table;
use std::alloc::Global;

impl<D: Disk> Volume<D> {
    /// Makes the disk an image without files, by one write and one sync. The other area and the
    /// data blocks stay as they are.
    pub fn format(alloc: Global, disk: &mut D, layout: Layout) -> Result<(), FormatFault>
        requires layout { IsLayout layout }
        requires log { layout.log ≡ 0 }
        // The disk holds the table without files, and a stop can't change that.
        ensures holds { OnOk result (IfSome (live_of (D.seen disk.new))
            (λ live. Holds live (empty_table layout))) }
        ensures stable { OnOk result (Now (λ s. s.loose ≡ []) (D.seen disk.new)) }
        ensures synced { OnOk result (IfSome (D.seen disk.new).told EndsInSync) }
        // These are its first bytes, and those behind them are the old ones. Also after an error either
        // these are the first ones, or no live byte has changed.
        ensures bytes { OnOk result (live_of (D.seen disk.new)
            ≡ option_map (λ live. laid live 0 (new_blocks layout (spelling (empty_table layout))))
            (live_of (D.seen disk.old))) }
        ensures either { (live_of (D.seen disk.new) ≡ live_of (D.seen disk.old))
            ⊎ (live_of (D.seen disk.new)
            ≡ option_map (λ live. laid live 0 (new_blocks layout (spelling (empty_table layout))))
            (live_of (D.seen disk.old))) }
        ensures rest { option_map (drop (length (new_blocks layout (spelling (empty_table layout)))))
            (live_of (D.seen disk.new))
            ≡ option_map (drop (length (new_blocks layout (spelling (empty_table layout)))))
            (live_of (D.seen disk.old)) }

        // A disk of another length is refused, and nothing is written.
        ensures length { ¬ ((D.seen disk.old).size ≡ 4096 * layout.total)
            → (result ≡ Err (FormatFault.Length (D.seen disk.old).size (4096 * layout.total)))
            × (D.seen disk.new ≡ D.seen disk.old) }
        ensures cause { IfErr result (λ fault.
            CausedFormat fault layout (D.seen disk.old) (D.seen disk.new)) }
        ensures memory { result ≡ Err FormatFault.Memory
            → D.seen disk.new ≡ D.seen disk.old }

        // No call that failed is tried again.
        ensures quiet { OnOk result ((D.seen disk.new).faults ≡ (D.seen disk.old).faults) }
        ensures once { OnErr result ((D.seen disk.new).faults ≤ (D.seen disk.old).faults + 1) }

        ensures elapses { Elapses (D.seen disk.old) (D.seen disk.new) }
        ensures calls { (D.seen disk.new).calls ≤ (D.seen disk.old).calls + 2 }
    {
        let table = Table::empty(alloc, layout);
        Journal::format(alloc, disk, layout, &KeptTable { table })
    }
}
