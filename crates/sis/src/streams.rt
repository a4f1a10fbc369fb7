//! The standard streams, so that none of them is the image.
use std::fs::{File, Metadata};
use std::os::unix::fs::MetadataExt;
use std::{fs, io};

/// It gives nothing, and a handle that only reads can't be written.
const NULL_DEVICE: &str = "/dev/null";

const STANDARD_OUTPUT: &str = "/proc/self/fd/1";

const STANDARD_ERROR: &str = "/proc/self/fd/2";

/// Opens the null device on each standard stream that is closed, until the handles are dropped.
///
/// A file gets the lowest descriptor that is free. So a file that is opened while these handles are
/// held is no standard stream.
pub(crate) fn hold_descriptors(rt: &HostRuntime) -> io::Result<[File; 3]> {
    let first = File::open(rt, NULL_DEVICE)?;
    let second = File::open(rt, NULL_DEVICE)?;
    let third = File::open(rt, NULL_DEVICE)?;
    Ok([first, second, third])
}

fn is_same(one: &Metadata, other: &Metadata) -> bool {
    one.dev() == other.dev() && one.ino() == other.ino()
}

// Whether a stream goes to this file, or the system doesn't tell.
fn may_go_to(rt: &HostRuntime, stream: &str, file: &Metadata) -> bool {
    match fs::metadata(rt, stream) {
        Ok(stream) => is_same(&stream, file),
        Err(_) => true,
    }
}

/// Whether what the program prints may be written over this file.
pub(crate) fn may_be_printed_to(rt: &HostRuntime, file: &Metadata) -> bool {
    may_go_to(rt, STANDARD_OUTPUT, file) || may_go_to(rt, STANDARD_ERROR, file)
}

/// Whether a fault line may be written over the file of this path.
pub(crate) fn may_be_standard_error(rt: &HostRuntime, path: &str) -> bool {
    match fs::metadata(rt, path) {
        Ok(file) => may_go_to(rt, STANDARD_ERROR, &file),
        Err(_) => false,
    }
}
