//! Why a block isn't lent or put, and that a disk isn't viewed without memory.

use sis_disk::DiskFault;
use std::fmt;
use thiserror::Error;

/// Why a block wasn't lent or put.
#[derive(Clone, Copy, Debug, PartialEq, Eq, Error)]
pub enum ViewFault {
    /// The disk failed, or refused the call.
    #[error("the disk failed")]
    Disk,
}

impl From<DiskFault> for ViewFault {
    fn from(_e: DiskFault) -> ViewFault {
        ViewFault::Disk
    }
}

/// There was no memory for the buffers. The disk is handed back.
#[derive(Drop, Error)]
#[error("out of memory")]
pub struct BlocksRefused<D: Drop> {
    /// The disk that was handed in.
    pub disk: D,
}

impl<D: Drop> fmt::Debug for BlocksRefused<D> {
    fn fmt<W: fmt::Write>(&self, f: &mut fmt::Formatter<W>) -> fmt::Result {
        f.debug_struct("BlocksRefused").finish_non_exhaustive()
    }
}
