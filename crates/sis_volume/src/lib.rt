//! A volume over a disk: transactions over its table, spare places for new blocks, and commits.
#![tactic(auto)]

mod applying;
mod committing;
mod data_blocks;
mod fault;
mod formatting;
mod kept_table;
mod laws;
mod lending;
mod opening;
mod room;
mod staging;
mod txn;
mod volume;

pub use fault::Refused;
pub use laws::image_is_read;
pub use sis_journal::{FormatFault, OpenFault};
pub use txn::Txn;
pub use volume::Volume;
