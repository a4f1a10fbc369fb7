//! The verb and the status of a printed line.
ghost use Rattle.std.specs.Prelude.{◌≡◌};
ghost use Rattle.sis_script.specs.Printed.{verb_text, status_of, hindrance_status};

use sis_model::{Command, Hindrance, Reply};
use sis_name::Status;

pub(super) fn verb(command: &Command) -> &'static str
    ensures { result.now ≡ verb_text command.now }
{
    match command {
        Command::Put { .. } => "put",
        Command::Open { .. } => "open",
        Command::Read { .. } => "read",
        Command::Write { .. } => "write",
        Command::Size { .. } => "size",
        Command::Close { .. } => "close",
        Command::Remove { .. } => "remove",
        Command::Rename { .. } => "rename",
        Command::Stat { .. } => "stat",
        Command::List { .. } => "list",
        Command::Tell { .. } => "tell",
        Command::Space => "space",
        Command::Fsctl { .. } => "fsctl",
        Command::Sync => "sync",
        Command::Grovel => "grovel",
        Command::End => "end",
    }
}

fn hindrance_status_of(by: &Hindrance) -> Status
    ensures { result ≡ hindrance_status by.now }
{
    match by {
        Hindrance::Limit { .. } | Hindrance::Full { .. } | Hindrance::TableFull { .. } => {
            Status::DiskFull
        }
        Hindrance::Disk | Hindrance::Down { .. } => Status::IoDeviceError,
        Hindrance::Memory => Status::InsufficientResources,
    }
}

pub(super) fn reply_status(reply: &Reply) -> Status
    ensures { result ≡ status_of reply.now }
{
    match reply {
        Reply::Done
        | Reply::Opened { .. }
        | Reply::Read { .. }
        | Reply::Closed { .. }
        | Reply::Sized { .. }
        | Reply::Names { .. }
        | Reply::Told { .. }
        | Reply::Space { .. }
        | Reply::Groveled { .. }
        | Reply::Ended { .. } => Status::Success,
        Reply::InvalidOpen => Status::InvalidHandle,
        Reply::InvalidParameter | Reply::InvalidRequest { .. } => Status::InvalidParameter,
        Reply::InvalidDeviceRequest => Status::InvalidDeviceRequest,
        Reply::AccessDenied => Status::AccessDenied,
        Reply::NotShared => Status::ObjectTypeMismatch,
        Reply::NameInvalid => Status::ObjectNameInvalid,
        Reply::NotFound => Status::ObjectNameNotFound,
        Reply::Collision => Status::ObjectNameCollision,
        Reply::InUse | Reply::Unsettled { .. } => Status::SharingViolation,
        Reply::NotSameDevice => Status::NotSameDevice,
        Reply::Hindered { by } => hindrance_status_of(by),
    }
}
