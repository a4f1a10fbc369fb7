//! The request of FSCTL_SIS_COPYFILE: its bytes read, or their first fault named, and written
//! again. `specs/` says how a request is spelled, and how any bytes are read.
#![tactic(auto)]

mod fault;
mod laws;
mod reading;
mod request;
mod writing;

pub use fault::{Field, RequestFault};
pub use laws::{no_spelling_goes_on, read_is_spelled, spelled_is_read};
pub use reading::read;
pub use request::CopyRequest;
pub use writing::write;
