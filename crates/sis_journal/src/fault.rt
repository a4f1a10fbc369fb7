//! Why a disk was not opened or formatted, or a commit failed.
use sis_disk::{DiskFault, GoodKind, ImageKind};
use std::alloc::{AllocError, AllocFailed};
use thiserror::Error;

/// Why a disk was not opened.
#[derive(Clone, Copy, Debug, PartialEq, Eq, Error)]
pub enum OpenFault {
    /// The disk failed.
    #[error("the disk failed")]
    Disk,
    /// The disk's bytes are no image.
    #[error("byte {at} of the image: {kind}")]
    Image {
        /// The offset of the first field whose rule fails.
        at: u64,
        /// The rule.
        kind: ImageKind,
    },
    /// The files of the image's table don't go together. Only callers that judge them answer so.
    #[error("file {file}, link {index}: {kind}")]
    Bad {
        /// The rule.
        kind: GoodKind,
        /// The id of the first file at which it fails.
        file: u64,
        /// The index of its link, 0 for a plain file.
        index: u64,
    },
    /// There was no memory.
    #[error("out of memory")]
    Memory,
}

impl From<DiskFault> for OpenFault {
    ghost use Rattle.std.specs.Prelude.{◌≡◌};
    ghost use Rattle.sis_journal.specs.declared.fault.OpenFault.TheVariants as faults;

    ghost from_gives = { λ _ e. e ≡ faults.Disk };

    fn from(_e: DiskFault) -> OpenFault {
        OpenFault::Disk
    }
}

impl From<AllocError> for OpenFault {
    ghost use Rattle.std.specs.Prelude.{◌≡◌};
    ghost use Rattle.sis_journal.specs.declared.fault.OpenFault.TheVariants as faults;

    ghost from_gives = { λ _ e. e ≡ faults.Memory };

    fn from(_e: AllocError) -> OpenFault {
        OpenFault::Memory
    }
}

impl<T: Drop> From<AllocFailed<T>> for OpenFault {
    ghost use Rattle.std.specs.Prelude.{◌≡◌};
    ghost use Rattle.sis_journal.specs.declared.fault.OpenFault.TheVariants as faults;

    ghost from_gives = { λ _ e. e ≡ faults.Memory };

    fn from(_e: AllocFailed<T>) -> OpenFault {
        OpenFault::Memory
    }
}

/// Why a commit failed.
#[derive(Clone, Copy, Debug, PartialEq, Eq, Error)]
pub enum CommitFault {
    /// The disk failed.
    #[error("call {at} of the disk failed")]
    Down {
        /// The number of the call that failed, or of the calls before one that was refused.
        at: u64,
    },
}

/// Why a disk was not formatted.
#[derive(Clone, Copy, Debug, PartialEq, Eq, Error)]
pub enum FormatFault {
    /// The disk failed.
    #[error("the disk failed")]
    Disk,
    /// The disk's length isn't the layout's.
    #[error("the disk has {have} bytes, and the layout {need}")]
    Length {
        /// Its length in bytes.
        have: u64,
        /// The layout's, in bytes.
        need: u64,
    },
    /// There was no memory.
    #[error("out of memory")]
    Memory,
}

impl From<CommitFault> for FormatFault {
    ghost use Rattle.std.specs.Prelude.{◌≡◌};
    ghost use Rattle.sis_journal.specs.declared.fault.FormatFault.TheVariants as faults;

    ghost from_gives = { λ _ e. e ≡ faults.Disk };

    fn from(_e: CommitFault) -> FormatFault {
        FormatFault::Disk
    }
}

impl From<AllocError> for FormatFault {
    ghost use Rattle.std.specs.Prelude.{◌≡◌};
    ghost use Rattle.sis_journal.specs.declared.fault.FormatFault.TheVariants as faults;

    ghost from_gives = { λ _ e. e ≡ faults.Memory };

    fn from(_e: AllocError) -> FormatFault {
        FormatFault::Memory
    }
}
