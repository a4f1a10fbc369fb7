//! What a client asks.
use crate::Bytes;
use sis_name::Name;

/// A command of a client. `docs/COMMANDS.md` says what each one does and answers.
///
/// A file that a client has open has a number of that client's, 1 to 64.
#[derive(Debug, Drop)]
pub enum Command {
    /// Makes a file of this name with these bytes.
    Put {
        /// The new file's name.
        name: Name,
        /// Its bytes, at most 65,536.
        bytes: Bytes,
    },
    /// Opens a file.
    Open {
        /// The file's name.
        name: Name,
        /// Whether the open may write.
        write: bool,
    },
    /// Reads bytes of an open file.
    Read {
        /// The number of the open.
        number: u64,
        /// Where the first byte stands, at most 2^36.
        at: u64,
        /// How many bytes at most, up to 65,536.
        len: u64,
    },
    /// Writes bytes into an open file. A gap behind its end is filled with zeros.
    Write {
        /// The number of the open.
        number: u64,
        /// Where the first byte goes.
        at: u64,
        /// The bytes, at most 65,536.
        bytes: Bytes,
    },
    /// Cuts an open file to this size, or adds zeros up to it.
    Size {
        /// The number of the open.
        number: u64,
        /// The new size in bytes, at most 2^36.
        len: u64,
    },
    /// Drops an open, and makes all that was done durable.
    Close {
        /// The number of the open.
        number: u64,
    },
    /// Drops a file that isn't open.
    Remove {
        /// The file's name.
        name: Name,
    },
    /// Gives a file that isn't open another name.
    Rename {
        /// The file's name.
        old: Name,
        /// Its new name, which no file has.
        new: Name,
    },
    /// Asks for a file's size.
    Stat {
        /// The file's name.
        name: Name,
    },
    /// Asks for the first 100 names of files, in order.
    List {
        /// Only names greater than this one are given.
        after: Option<Name>,
    },
    /// Asks how a file is kept.
    Tell {
        /// The file's name.
        name: Name,
    },
    /// Asks how many data blocks are mapped.
    Space,
    /// A file system control. The one that there is copies a file.
    Fsctl {
        /// The control code.
        code: u32,
        /// The request's bytes.
        bytes: Bytes,
    },
    /// Makes all that was done durable.
    Sync,
    /// Lets equal files share their bytes.
    Grovel,
    /// Ends the client's session: drops all its opens, and makes all that was done durable.
    End,
}
