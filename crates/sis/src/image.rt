//! The image file: opened, or made by `format`, and locked.
ghost use Rattle.std.specs.Prelude.{IfSome};
ghost use Rattle.sis_disk.specs.Layout.{IsLayout};

use crate::streams::may_be_printed_to;
use sis_cli::Plan;
use sis_disk::{BLOCK_LEN, ImageFile};
use std::fs::{File, OpenOptions};
use std::io;
use std::path::Path;

fn open_file(rt: &HostRuntime, path: &str) -> io::Result<File> {
    OpenOptions::new().read(true).write(true).open(rt, path)
}

// Makes the file's name stable, where the system lets its folder be opened and synced.
fn sync_folder(rt: &HostRuntime, path: &str) -> io::Result<()> {
    let folder = match Path::new(path).parent() {
        Some(folder) if !folder.as_str().is_empty() => folder,
        _ => Path::new("."),
    };
    File::open(rt, folder)?.sync_all()
}

// A new file of this length, all zeros, which is stable and locked.
fn make_file(rt: &HostRuntime, path: &str, len: u64) -> io::Result<File> {
    let file = OpenOptions::new()
        .read(true)
        .write(true)
        .create_new(true)
        .open(rt, path)?;
    file.try_lock()?;
    // Where this fails, the empty file stays: a later `format` finds its length wrong.
    file.set_len(len)?;
    file.sync_all()?;
    let _ = sync_folder(rt, path);
    Ok(file)
}

// A file that was opened, once it is locked. A device, a pipe, and one that the program prints to
// are refused.
fn locked(rt: &HostRuntime, file: File) -> io::Result<File> {
    let metadata = file.metadata()?;
    if !metadata.is_file() || may_be_printed_to(rt, &metadata) {
        return Err(io::Error::from(io::ErrorKind::InvalidInput));
    }
    file.try_lock()?;
    Ok(file)
}

/// The image file, which `format` makes where there is none. No other program that asks for its
/// lock gets it while the disk is there.
///
/// A file that is there keeps its length and its bytes, also for `format`: where it has another
/// length than the image, `run` refuses it, so a file that isn't meant isn't cut.
pub(crate) fn open_image(rt: &HostRuntime, plan: &Plan) -> io::Result<ImageFile<File>>
    requires { IfSome plan.now.layout IsLayout }
{
    let path = plan.image.as_str();
    let file = match (open_file(rt, path), plan.layout) {
        (Err(error), Some(layout)) if error.kind() == io::ErrorKind::NotFound => {
            make_file(rt, path, BLOCK_LEN * layout.total)?
        }
        (opened, _) => locked(rt, opened?)?,
    };
    ImageFile::new(file)
}
