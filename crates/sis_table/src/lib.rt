//! The table of a volume: its files, and where their blocks lie. `specs/` says how a table is
//! spelled and read, what an edit does, and for which files a table and an image stand.
#![tactic(auto)]

mod checking;
mod draft;
mod edit;
mod fault;
mod files;
mod kind;
pub mod laws;
mod limits;
mod node;
mod noting;
mod place_use;
mod reading;
mod table;
mod trees;
mod writing;

pub use edit::Edit;
pub use fault::{EditsFault, GoodFault, TableFault};
pub use kind::NodeKind;
pub use limits::{GREATEST_NUMBER, GREATEST_SIZE, MOST_FILES};
pub use node::Node;
pub use place_use::PlaceUse;
pub use reading::one_spelling;
pub use sis_disk::{GoodKind, ImageKind, Layout, TableKind};
pub use sis_ranges::{Extents, Run};
pub use table::Table;
