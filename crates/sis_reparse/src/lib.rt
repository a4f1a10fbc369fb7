//! The reparse buffer of a SIS link: its bytes read, or their first fault named, and written again.
//! `specs/` says how a point is spelled, and how any bytes are read.
#![tactic(auto)]

mod fault;
mod laws;
mod layout;
mod point;
mod reading;
mod writing;

pub use fault::PointFault;
pub use laws::{one_spelling, read_is_spelled, spelled_is_read, spellings_have_64_bytes};
pub use layout::POINT_LEN;
pub use point::SisPoint;
pub use reading::read;
pub use writing::write;
