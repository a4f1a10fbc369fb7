//! Operations on the files of a volume: reading, new files, changes of bytes and of size, removals
//! and other names. Each is done whole or not at all, and says why it is hindered.
#![tactic(auto)]

mod plan;
mod putting;
mod reading;
mod removing;
mod renaming;
mod resizing;
mod rooms;
mod staging;
mod texts;
mod zeros;

pub use putting::put;
pub use reading::read;
pub use removing::remove;
pub use renaming::rename;
pub use resizing::{set_size, write};
pub use sis_model::{ByteRange, Stale};
