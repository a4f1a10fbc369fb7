//! A file of the table.
ghost use Rattle.std.specs.Prelude.{◌≡◌, IfOk};

use crate::NodeKind;
use sis_name::Name;
use sis_ranges::Extents;
use std::alloc::{AllocError, Global};

/// A file of the table.
#[derive(Debug, Drop)]
pub struct Node {
    /// The file's id, which no other file of the volume ever had.
    pub id: u64,
    /// Its name.
    pub name: Name,
    /// What it is.
    pub kind: NodeKind,
    /// Its size in bytes, at most 2^36.
    pub size: u64,
    /// Its version, which rises with each change of its bytes.
    pub version: u64,
    /// Where its blocks lie. A block that lies nowhere has zeros.
    pub map: Extents,
}

impl Node {
    /// An equal file.
    pub fn copy(&self, alloc: Global) -> Result<Node, AllocError>
        ensures { IfOk result (λ copy. copy ≡ self.now) }
    {
        Ok(Node {
            id: self.id,
            name: self.name.copy(alloc)?,
            kind: self.kind,
            size: self.size,
            version: self.version,
            map: self.map.copy(alloc)?,
        })
    }
}
