//! Why some bytes are no copy request.
use std::fmt;
use thiserror::Error;

/// One of the two names of a request.
#[derive(Clone, Copy, Debug, PartialEq, Eq)]
pub enum Field {
    /// The file that is copied.
    Source,
    /// The file that becomes its copy.
    Destination,
}

impl fmt::Display for Field {
    fn fmt<W: fmt::Write>(&self, f: &mut fmt::Formatter<W>) -> fmt::Result {
        match self {
            Field::Source => write!(f, "source"),
            Field::Destination => write!(f, "destination"),
        }
    }
}

/// Why some bytes were not read as a copy request.
#[derive(Clone, Copy, Debug, PartialEq, Eq, Error)]
pub enum RequestFault {
    /// The bytes end before the request does.
    #[error("the request has {have} bytes, and {need} are needed")]
    Short {
        /// How many bytes there are.
        have: u64,
        /// How many bytes the three numbers take, or else the whole request.
        need: u64,
    },
    /// A name's length in bytes is odd.
    #[error("the {field} name's length is odd")]
    OddLength {
        /// The name.
        field: Field,
    },
    /// A name's length isn't 4 to 65,534.
    #[error("the {field} name's length {value} is not from 4 to 65534")]
    LengthRange {
        /// The name.
        field: Field,
        /// Its length in bytes, with the null.
        value: u32,
    },
    /// A name doesn't end with a null.
    #[error("the {field} name has no null at its end")]
    NoNull {
        /// The name.
        field: Field,
    },
    /// A null stands before the end of a name.
    #[error("the {field} name's unit {at}: a null before its end")]
    EarlyNull {
        /// The name.
        field: Field,
        /// Where the first such null stands, in units from 0.
        at: u64,
    },
}
