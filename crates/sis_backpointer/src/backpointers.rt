//! The backpointers of a store file, by rising indexes.
ghost use Rattle.std.specs.Prelude.{◌≡◌, ◌+◌, ◌*◌, ◌≤◌, [], ◌++◌, true, length, vec_capacity, Err, IsOk, IfOk, IfErr, OnOk, OnErr};
ghost use Rattle.sis_reading.specs.Steps.{Gives};
ghost use Rattle.sis_backpointer.specs.Backs.{IsRising, RefusesBack, has_index, has_pair, file_of, with_back, without_back, backs_text, backs_at, named};

use crate::back::BACK_LEN;
use crate::reading::list_at;
use crate::searching::{is_above, search};
use crate::writing::put_backs;
use crate::{Back, BackFault};
use std::alloc::{AllocError, Global};
use std::marker::Model;

/// The backpointers of a store file, by rising indexes.
#[derive(Debug, Drop)]
pub struct Backpointers {
    backs: Vec<Back>,
}

impl Model for Backpointers {
    ghost use Rattle.std.specs.Prelude.{List};
    ghost use Rattle.std.specs.Coded.{codes};
    ghost use Rattle.sis_backpointer.specs.declared.back.Back.{Back};
    ghost use Rattle.sis_backpointer.specs.Backs.{IsRising};

    ghost Value = { List Back };

    ghost coded = { Prim.hlevel codes };

    ghost view = { λ b. b.backs.items };

    ghost invariant = { λ b. IsRising b.backs.items };
}

impl Backpointers {
    /// No backpointers. Takes no memory.
    pub fn new(alloc: Global) -> Backpointers
        ensures { result ≡ [] }
    {
        Backpointers {
            backs: Vec::new(alloc),
        }
    }

    /// These backpointers. Takes no memory.
    pub fn from_vec(backs: Vec<Back>) -> Backpointers
        requires { IsRising backs.items }
        ensures { result ≡ backs.items }
    {
        Backpointers { backs }
    }

    /// Reads the backpointers that the bytes spell, all of the bytes.
    pub fn read(alloc: Global, bytes: &[u8]) -> Result<Backpointers, BackFault>
        ensures { Gives named (λ backs. backs) result (backs_at bytes.now) }
    {
        let backs = list_at(alloc, bytes)?;
        Ok(Backpointers { backs })
    }

    /// How many there are.
    pub fn len(&self) -> u64
        ensures { result ≡ length self.now }
    {
        self.backs.len() as u64
    }

    /// All of them, by rising index.
    pub fn list(&self) -> &[Back]
        ensures value { result.now ≡ self.now }
        ensures rising { IsRising result.now }
    {
        &self.backs
    }

    /// The file that is the link of this index.
    pub fn file_of(&self, index: u64) -> Option<u64>
        ensures { result ≡ file_of index self.now }
    {
        match search(&self.backs, index) {
            Ok(at) => Some(self.backs[at].file),
            Err(_) => None,
        }
    }

    /// Whether this file is the link of this index.
    pub fn has(&self, index: u64, file: u64) -> bool
        ensures { result ≡ has_pair index file self.now }
    {
        match search(&self.backs, index) {
            Ok(at) => self.backs[at].file == file,
            Err(_) => false,
        }
    }

    /// Adds one at its place.
    pub fn add(&mut self, back: Back) -> Result<(), BackFault>
        ensures ok { OnOk result (self.new ≡ with_back back self.old) }
        ensures err { OnErr result (self.new ≡ self.old) }

        // An index that is there is refused, also where memory is short, and nothing else is.
        ensures present { has_index back.index self.old ≡ true
            → result ≡ Err (BackFault.Present back.index) }
        ensures cause { IfErr result (RefusesBack back self.old) }
    {
        // Links get rising indexes, so that most stand behind all others.
        if is_above(&self.backs, back.index) {
            self.backs.push(back)?;
            return Ok(());
        }
        match search(&self.backs, back.index) {
            Ok(_) => Err(BackFault::Present { index: back.index }),
            Err(at) => Ok(self.backs.insert(at, back)?),
        }
    }

    /// Takes out the one with this index, and says whether there was one. Takes no memory.
    pub fn drop_index(&mut self, index: u64) -> bool
        ensures there { result ≡ has_index index self.old }
        ensures value { self.new ≡ without_back index self.old }
    {
        match search(&self.backs, index) {
            Ok(at) => {
                self.backs.remove(at);
                true
            }
            Err(_) => false,
        }
    }

    /// Equal backpointers.
    pub fn copy(&self, alloc: Global) -> Result<Backpointers, AllocError>
        ensures { IfOk result (λ copy. copy ≡ self.now) }
    {
        Ok(Backpointers {
            backs: self.backs.as_slice().to_vec(alloc)?,
        })
    }

    /// Appends their bytes. Takes no memory where there is room.
    pub fn write(&self, out: &mut Vec<u8>) -> Result<(), AllocError>
        ensures ok { OnOk result (out.new.items ≡ out.old.items ++ backs_text self.now) }
        ensures err { OnErr result (out.new.items ≡ out.old.items) }
        ensures capacity { vec_capacity out.old ≤ vec_capacity out.new }
        ensures room { length out.old.items + 16 * length self.now ≤ vec_capacity out.old
            → IsOk result }
    {
        out.reserve(self.backs.len().saturating_mul(BACK_LEN))?;
        put_backs(out, &self.backs);
        Ok(())
    }
}
