//! One text in an image of two areas: a commit writes the area that isn't selected and then selects
//! it, so that a stop leaves the old text or the new one.
#![tactic(auto)]

mod areas;
mod committing;
mod fault;
mod formatting;
mod journal;
mod kept;
mod opening;
mod superblock;

pub use fault::{CommitFault, FormatFault, OpenFault};
pub use journal::Journal;
pub use kept::{Kept, KeptFault};
