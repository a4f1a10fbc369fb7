//! Why some bytes are no table, why the files of a table don't go together, and why edits were not
//! made.
use sis_disk::{GoodKind, TableKind};
use std::alloc::{AllocError, AllocFailed};
use thiserror::Error;

/// Why some bytes were not read as a table.
#[derive(Clone, Copy, Debug, PartialEq, Eq, Error)]
pub enum TableFault {
    /// They are no table.
    #[error("byte {at} of the table: {kind}")]
    At {
        /// The offset of the first field whose rule fails.
        at: u64,
        /// The rule.
        kind: TableKind,
    },
    /// There was no memory.
    #[error("out of memory")]
    Memory,
}

impl From<AllocError> for TableFault {
    ghost use Rattle.std.specs.Prelude.{◌≡◌};
    ghost use Rattle.sis_table.specs.declared.fault.TableFault.TheVariants.{Memory};

    ghost from_gives = { λ _ e. e ≡ Memory };

    fn from(_e: AllocError) -> TableFault {
        TableFault::Memory
    }
}

impl<T: Drop> From<AllocFailed<T>> for TableFault {
    ghost use Rattle.std.specs.Prelude.{◌≡◌};
    ghost use Rattle.sis_table.specs.declared.fault.TableFault.TheVariants.{Memory};

    ghost from_gives = { λ _ e. e ≡ Memory };

    fn from(_e: AllocFailed<T>) -> TableFault {
        TableFault::Memory
    }
}

/// Why the files of a table weren't found to go together.
#[derive(Clone, Copy, Debug, PartialEq, Eq, Error)]
pub enum GoodFault {
    /// They don't.
    #[error("file {file}, link {index}: {kind}")]
    Bad {
        /// The rule.
        kind: GoodKind,
        /// The id of the first file at which it fails.
        file: u64,
        /// The index of its link, 0 for a plain file.
        index: u64,
    },
    /// There was no memory.
    #[error("out of memory")]
    Memory,
}

impl From<AllocError> for GoodFault {
    ghost use Rattle.std.specs.Prelude.{◌≡◌};
    ghost use Rattle.sis_table.specs.declared.fault.GoodFault.TheVariants.{Memory};

    ghost from_gives = { λ _ e. e ≡ Memory };

    fn from(_e: AllocError) -> GoodFault {
        GoodFault::Memory
    }
}

/// Why edits were not made.
#[derive(Clone, Copy, Debug, PartialEq, Eq, Error)]
pub enum EditsFault {
    /// The spelling of the table after them is too long.
    #[error("the table would have {needed} bytes")]
    TooLong {
        /// Its length in bytes.
        needed: u64,
    },
    /// There was no memory.
    #[error("out of memory")]
    Memory,
}

impl From<AllocError> for EditsFault {
    ghost use Rattle.std.specs.Prelude.{◌≡◌};
    ghost use Rattle.sis_table.specs.declared.fault.EditsFault.TheVariants.{Memory};

    ghost from_gives = { λ _ e. e ≡ Memory };

    fn from(_e: AllocError) -> EditsFault {
        EditsFault::Memory
    }
}
