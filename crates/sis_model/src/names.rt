//! Some names, which contracts see as a list.
ghost use Rattle.std.specs.Prelude.{◌≡◌, ◌++◌, ◌∷◌, [], IfOk, OnOk, OnErr};

use sis_name::Name;
use std::alloc::{AllocError, Global};
use std::marker::Model;

/// Some names, in an order.
#[derive(Debug, Drop)]
pub struct NameList {
    names: Vec<Name>,
}

impl Model for NameList {
    ghost use Rattle.std.specs.Prelude.{ℕ, List};

    ghost Value = { List (List ℕ) };

    ghost view = { λ l. l.names.items };
}

// These names.
fn copy_of(alloc: Global, names: &[Name]) -> Result<NameList, AllocError>
    ensures { IfOk result (λ copy. copy ≡ names.now) }
{
    let mut copy = NameList::new(alloc);
    for name in names {
        copy.push(name.copy(alloc)?)?;
    }
    Ok(copy)
}

impl NameList {
    /// No names. Takes no memory.
    pub fn new(alloc: Global) -> NameList
        ensures { result ≡ [] }
    {
        NameList {
            names: Vec::new(alloc),
        }
    }

    /// Adds a name behind the others.
    pub fn push(&mut self, name: Name) -> Result<(), AllocError>
        ensures ok { OnOk result (self.new ≡ self.old ++ name ∷ []) }
        ensures err { OnErr result (self.new ≡ self.old) }
    {
        self.names.push(name)?;
        Ok(())
    }

    /// The same names.
    pub fn copy(&self, alloc: Global) -> Result<NameList, AllocError>
        ensures { IfOk result (λ names. names ≡ self.now) }
    {
        copy_of(alloc, &self.names)
    }

    /// The names.
    pub fn as_slice(&self) -> &[Name]
        ensures { result.now ≡ self.now }
    {
        &self.names
    }
}
