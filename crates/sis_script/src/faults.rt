//! Why a script was not read, and why a history was not printed.
use thiserror::Error;

/// What is wrong with a line, for the first wrong field from the left.
#[derive(Clone, Copy, Debug, PartialEq, Eq, Error)]
pub enum LineKind {
    /// The line is not UTF-8. This is tried before all fields.
    #[error("encoding")]
    Encoding,
    /// A client is no number that a client may have.
    #[error("client")]
    Client,
    /// There is no such verb, or none that is carried out yet.
    #[error("verb")]
    Verb,
    /// A name is not in quotation marks, or not one that a file may have.
    #[error("name")]
    Name,
    /// Bytes are neither `-` nor pairs of hex digits.
    #[error("hex")]
    Hex,
    /// A number is not below 2^64, or not spelled by digits without a leading zero.
    #[error("number")]
    Number,
    /// The mode of an open is neither `r` nor `w`.
    #[error("mode")]
    Mode,
    /// A control's code is not eight hex digits.
    #[error("code")]
    Code,
    /// A field is missing, or something follows the last one.
    #[error("fields")]
    Fields,
}

/// Of what a script has too much.
#[derive(Clone, Copy, Debug, PartialEq, Eq, Error)]
pub enum ScriptLimit {
    /// Bytes. This is found before any line is read.
    #[error("bytes")]
    Bytes,
    /// Lines, skipped ones too.
    #[error("lines")]
    Lines,
}

/// Why a script was not read.
#[derive(Clone, Copy, Debug, PartialEq, Eq, Error)]
pub enum ScriptFault {
    /// The source failed.
    #[error("the source failed")]
    Source,
    /// A line is wrong, and none before it.
    #[error("line {line} of the script: {kind}")]
    Line {
        /// The line's number, from 1.
        line: u64,
        /// What is wrong.
        kind: LineKind,
    },
    /// The script is too long.
    #[error("the script has {count} {kind} or more")]
    Limit {
        /// In what it is too long.
        kind: ScriptLimit,
        /// The least number that is too many.
        count: u64,
    },
    /// There was no memory.
    #[error("out of memory")]
    Memory,
}

/// Why a history was not printed whole.
#[derive(Clone, Copy, Debug, PartialEq, Eq, Error)]
pub enum PrintFault {
    /// The sink failed.
    #[error("the sink failed")]
    Sink,
    /// There was no memory.
    #[error("out of memory")]
    Memory,
}

/// Why a line was not read.
#[derive(Clone, Copy, Debug, PartialEq, Eq)]
pub(crate) enum LineFault {
    /// There was no memory.
    Memory,
    /// The line is wrong.
    Wrong(LineKind),
}
