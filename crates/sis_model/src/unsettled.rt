//! The files that an end left unsettled, which contracts see as a list.
ghost use Rattle.std.specs.Prelude.{◌≡◌, ◌++◌, ◌∷◌, [], IfOk, IsOk, OnOk, OnErr};

use crate::Hindrance;
use sis_name::Name;
use std::alloc::{AllocError, Global};
use std::marker::Model;

/// A file that still takes bytes from its store file.
#[derive(Debug, Drop)]
pub struct UnsettledFile {
    /// Its name.
    pub name: Name,
    /// How many blocks it still takes from its store file.
    pub left: u64,
    /// Why it wasn't settled.
    pub cause: Hindrance,
}

impl UnsettledFile {
    // The same file.
    fn copy(&self, alloc: Global) -> Result<UnsettledFile, AllocError>
        ensures { IfOk result (λ copy. copy ≡ self.now) }
    {
        Ok(UnsettledFile {
            name: self.name.copy(alloc)?,
            left: self.left,
            cause: self.cause,
        })
    }
}

/// Some files that were not settled.
#[derive(Debug, Drop)]
pub struct UnsettledList {
    files: Vec<UnsettledFile>,
}

impl Model for UnsettledList {
    ghost use Rattle.std.specs.Prelude.{List};
    ghost use Rattle.sis_model.specs.declared.unsettled.UnsettledFile.{UnsettledFile};

    ghost Value = { List UnsettledFile };

    ghost view = { λ l. l.files.items };
}

// These files.
fn copy_of(alloc: Global, files: &[UnsettledFile]) -> Result<UnsettledList, AllocError>
    ensures ok { IfOk result (λ copy. copy ≡ files.now) }
    ensures none { files.now ≡ [] → IsOk result }
{
    let mut copy = UnsettledList::new(alloc);
    for file in files {
        copy.push(file.copy(alloc)?)?;
    }
    Ok(copy)
}

impl UnsettledList {
    /// No files. Takes no memory.
    pub fn new(alloc: Global) -> UnsettledList
        ensures { result ≡ [] }
    {
        UnsettledList {
            files: Vec::new(alloc),
        }
    }

    /// Adds a file behind the others.
    pub fn push(&mut self, file: UnsettledFile) -> Result<(), AllocError>
        ensures ok { OnOk result (self.new ≡ self.old ++ file ∷ []) }
        ensures err { OnErr result (self.new ≡ self.old) }
    {
        self.files.push(file)?;
        Ok(())
    }

    /// The same files. Takes no memory where there are none.
    pub fn copy(&self, alloc: Global) -> Result<UnsettledList, AllocError>
        ensures ok { IfOk result (λ files. files ≡ self.now) }
        ensures none { self.now ≡ [] → IsOk result }
    {
        copy_of(alloc, &self.files)
    }

    /// The files.
    pub fn as_slice(&self) -> &[UnsettledFile]
        ensures { result.now ≡ self.now }
    {
        &self.files
    }
}
