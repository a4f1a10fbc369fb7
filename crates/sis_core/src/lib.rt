//! The core: several clients on one volume, each with at most one command in hand, and the one
//! history of what was decided.
#![tactic(auto)]

mod answering;
mod changing;
mod job;
mod making;
mod opening;
mod opens;
mod replaying;
mod rest;
mod running;
mod saving;
mod sessions;
mod start;
mod stepping;
mod telling;
mod turn;

pub use job::Job;
pub use opens::Open;
pub use sessions::{Core, CoreParts};
pub use start::CoreStart;
pub use turn::{NoRoom, Turn};
