//! A change of the table.
use crate::NodeKind;
use sis_name::Name;

/// A change of the table.
#[derive(Debug, Drop)]
pub enum Edit {
    /// Makes a file without bytes.
    Make {
        /// Its id, at least the next id.
        id: u64,
        /// What it is.
        kind: NodeKind,
        /// Its name, which is free.
        name: Name,
    },
    /// Takes a file out.
    Drop {
        /// The file.
        id: u64,
    },
    /// Gives a file another name.
    Rename {
        /// The file.
        id: u64,
        /// The new name, which is free.
        name: Name,
    },
    /// Gives a file another size.
    Size {
        /// The file.
        id: u64,
        /// The new size in bytes. No block behind it is mapped.
        size: u64,
    },
    /// Maps blocks of a file, also those that are mapped already.
    Map {
        /// The file.
        id: u64,
        /// The first block.
        first: u64,
        /// How many blocks, at least 1.
        count: u64,
        /// The place of the first block.
        place: u64,
    },
    /// Takes those blocks of a stretch out of a file's map that are mapped. The stretch may lie
    /// behind all blocks that a file can have, and end past 2^64.
    Unmap {
        /// The file.
        id: u64,
        /// The first block of the stretch, any number.
        first: u64,
        /// How many blocks it has, any number.
        count: u64,
    },
    /// Gives a file a greater version.
    Version {
        /// The file.
        id: u64,
        /// The new version.
        version: u64,
    },
}
