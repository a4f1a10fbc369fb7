//! What a client is answered.
ghost use Rattle.std.specs.Prelude.{◌≡◌, true, IfOk, OnErr};
ghost use Rattle.sis_model.specs.Answer.{holds_memory};

use crate::{Bytes, NameList, UnsettledList};
use sis_request::RequestFault;
use std::alloc::{AllocError, Global};

/// What there is too much of.
#[derive(Clone, Copy, Debug, PartialEq, Eq)]
pub enum LimitKind {
    /// The client has 64 opens.
    Opens,
    /// There would be more than 65,536 files, those of the common store included.
    Files,
    /// No id is left for a new file.
    Ids,
    /// No index is left for a new link.
    Indexes,
    /// The file's version is the greatest one.
    Versions,
}

/// Why a command that isn't refused was not carried out. It changed no file.
#[derive(Clone, Copy, Debug, PartialEq, Eq)]
pub enum Hindrance {
    /// A limit was met.
    Limit {
        /// Which one.
        kind: LimitKind,
    },
    /// There are too few free data blocks.
    Full {
        /// How many blocks the command needs.
        needed: u64,
        /// How many data blocks are mapped.
        used: u64,
        /// How many data blocks there are.
        total: u64,
    },
    /// The table would be too long for its area.
    TableFull {
        /// The length that it would have, in bytes.
        needed: u64,
        /// The greatest length, in bytes.
        cap: u64,
    },
    /// The disk failed.
    Disk,
    /// A commit failed in this session, and nothing is committed any more.
    Down {
        /// The number of the disk's call that failed, or that it would have had.
        at: u64,
    },
    /// There was no memory.
    Memory,
}

impl From<AllocError> for Hindrance {
    ghost use Rattle.std.specs.Prelude.{◌≡◌};
    ghost use Rattle.sis_model.specs.declared.reply.Hindrance.TheVariants.{Memory};

    ghost from_gives = { λ _ h. h ≡ Memory };

    fn from(_error: AllocError) -> Hindrance {
        Hindrance::Memory
    }
}

/// What a close left of its file.
#[derive(Clone, Copy, Debug, PartialEq, Eq)]
pub enum Fate {
    /// The open only read.
    Read,
    /// Another open may still write the file.
    Writer,
    /// The file was plain.
    Plain,
    /// The file was a link that shares all its bytes.
    Link,
    /// The file was a link, and this close made it plain.
    Settled,
    /// The file still takes bytes from its store file.
    Unsettled {
        /// How many blocks it still takes.
        left: u64,
        /// Why it wasn't settled.
        cause: Hindrance,
    },
}

/// How a file is kept.
#[derive(Clone, Copy, Debug, PartialEq, Eq)]
pub enum Kind {
    /// By itself.
    Plain,
    /// As a link that shares all its bytes with a store file.
    Link {
        /// The store file's GUID.
        guid: [u8; 16],
    },
    /// As a link that was changed and takes its other bytes from a store file.
    Dirty {
        /// The store file's GUID.
        guid: [u8; 16],
        /// How many blocks it takes.
        left: u64,
    },
}

/// What a grovel did.
#[derive(Clone, Copy, Debug, PartialEq, Eq)]
pub struct GrovelReport {
    /// Files of at least 4,096 bytes that weren't open when it began.
    pub seen: u64,
    /// Files that were made to share their bytes with another one.
    pub merged: u64,
    /// Files that were passed over, since they were open, made or changed meanwhile.
    pub skipped: u64,
    /// Files that a limit stopped, or want of blocks or of room in the table.
    pub refused: u64,
    /// Files that a fault of the disk stopped.
    pub faulted: u64,
}

/// The reply to a command.
#[derive(Debug, Drop)]
pub enum Reply {
    /// The command was carried out.
    Done,
    /// The file is open.
    Opened {
        /// Under this number of the client's.
        number: u64,
    },
    /// The bytes that were read.
    Read {
        /// The bytes.
        bytes: Bytes,
    },
    /// The open was dropped.
    Closed {
        /// What that left of the file.
        fate: Fate,
    },
    /// The file's size.
    Sized {
        /// In bytes.
        size: u64,
    },
    /// Names of files, in order.
    Names {
        /// At most 100 of them.
        names: NameList,
        /// Whether more follow.
        more: bool,
    },
    /// How the file is kept.
    Told {
        /// How.
        kind: Kind,
    },
    /// How many data blocks are mapped.
    Space {
        /// So many.
        used: u64,
        /// How many there are.
        total: u64,
    },
    /// The grovel ended.
    Groveled {
        /// What it did.
        report: GrovelReport,
    },
    /// The session ended.
    Ended {
        /// How many opens the client had.
        closed: u64,
        /// Files that still take bytes from their store files.
        unsettled: UnsettledList,
    },
    /// The client has no open of this number.
    InvalidOpen,
    /// An argument is out of its range.
    InvalidParameter,
    /// The request of a control isn't well formed.
    InvalidRequest {
        /// What is wrong with it.
        fault: RequestFault,
    },
    /// There is no such control.
    InvalidDeviceRequest,
    /// The name is one of the common store's, or the open may not write.
    AccessDenied,
    /// The source isn't a link, and only links were to be copied.
    NotShared,
    /// The destination is no name.
    NameInvalid,
    /// There is no such file.
    NotFound,
    /// The name is taken.
    Collision,
    /// The file is open.
    InUse,
    /// The path isn't one of this volume's.
    NotSameDevice,
    /// The source still takes bytes from its store file.
    Unsettled {
        /// How many blocks.
        left: u64,
    },
    /// The command was hindered.
    Hindered {
        /// By what.
        by: Hindrance,
    },
}

impl Reply {
    /// The same reply once more, for the history.
    pub fn copy(&self, alloc: Global) -> Result<Reply, AllocError>
        ensures ok { IfOk result (λ copy. copy ≡ self.now) }
        ensures err { OnErr result (holds_memory self.now ≡ true) }
    {
        Ok(match self {
            Reply::Done => Reply::Done,
            Reply::Opened { number } => Reply::Opened { number: *number },
            Reply::Read { bytes } => Reply::Read {
                bytes: bytes.copy(alloc)?,
            },
            Reply::Closed { fate } => Reply::Closed { fate: *fate },
            Reply::Sized { size } => Reply::Sized { size: *size },
            Reply::Names { names, more } => Reply::Names {
                names: names.copy(alloc)?,
                more: *more,
            },
            Reply::Told { kind } => Reply::Told { kind: *kind },
            Reply::Space { used, total } => Reply::Space {
                used: *used,
                total: *total,
            },
            Reply::Groveled { report } => Reply::Groveled { report: *report },
            Reply::Ended { closed, unsettled } => Reply::Ended {
                closed: *closed,
                unsettled: unsettled.copy(alloc)?,
            },
            Reply::InvalidOpen => Reply::InvalidOpen,
            Reply::InvalidParameter => Reply::InvalidParameter,
            Reply::InvalidRequest { fault } => Reply::InvalidRequest { fault: *fault },
            Reply::InvalidDeviceRequest => Reply::InvalidDeviceRequest,
            Reply::AccessDenied => Reply::AccessDenied,
            Reply::NotShared => Reply::NotShared,
            Reply::NameInvalid => Reply::NameInvalid,
            Reply::NotFound => Reply::NotFound,
            Reply::Collision => Reply::Collision,
            Reply::InUse => Reply::InUse,
            Reply::NotSameDevice => Reply::NotSameDevice,
            Reply::Unsettled { left } => Reply::Unsettled { left: *left },
            Reply::Hindered { by } => Reply::Hindered { by: *by },
        })
    }
}
