//! What a client has in hand.
use sis_model::Command;

/// A client's command in hand, by how far it is.
#[derive(Debug, Drop)]
pub enum Job {
    /// It was begun, and isn't decided yet.
    Begun {
        /// The command.
        command: Command,
    },
}
