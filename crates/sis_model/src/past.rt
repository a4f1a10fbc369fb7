//! What is past, without the disk's numbers.
use crate::{Command, Reply};

/// An entry without its two numbers of calls: what callers compare who don't see the disk's
/// numbers.
#[derive(Debug, Drop)]
pub struct Past {
    /// The client, 1 to 16.
    pub client: u8,
    /// What it asked.
    pub command: Command,
    /// What it was answered.
    pub reply: Reply,
}
