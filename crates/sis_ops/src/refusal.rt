//! Why an operation wasn't done.
use sis_model::Hindrance;
use sis_name::NameFault;
use std::alloc::AllocError;
use thiserror::Error;

/// Why an operation wasn't done: it was hindered, or its condition doesn't hold.
#[derive(Debug, Drop, Error)]
pub enum Refusal {
    /// No file has the id.
    #[error("no such file")]
    NoFile,
    /// The bytes would end behind the greatest size.
    #[error("too far")]
    TooFar,
    /// A file has the name.
    #[error("name taken")]
    NameTaken,
    /// The name is one of the common store's.
    #[error("name of the common store")]
    StoreName,
    /// It is no name.
    #[error("{0}")]
    NoName(#[from] NameFault),
    /// The version isn't above the file's, or is above the greatest one.
    #[error("no greater version")]
    Version,
    /// The operation was called, and hindered.
    #[error("{0:?}")]
    Hindered(#[from] Hindrance),
}

impl From<AllocError> for Refusal {
    fn from(_: AllocError) -> Refusal {
        Refusal::Hindered(Hindrance::Memory)
    }
}
