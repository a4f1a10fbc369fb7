//! Which files are open, and whose opens they are.
ghost use Rattle.std.specs.Prelude.{◌≡◌, ◌==◌, ◌≤◌, ◌++◌, ◌∷◌, [], not, length, filter, None, OnErr, OnOk};
ghost use Rattle.std.specs.List.{list_any};
ghost use Rattle.sis_core.specs.Opens.{free_number, has_file, has_other_writer, is_as, is_of, open_as};

mod index;

use crate::opens::index::Index;
use std::alloc::{AllocError, Global};
use std::marker::Model;

/// The most opens of a client.
pub(crate) const MOST_OPENS: u64 = 64;

/// A file that a client has open.
#[derive(Clone, Copy, Debug, PartialEq, Eq)]
pub struct Open {
    /// The client, 1 to 16.
    pub client: u8,
    /// Under which number of the client's, 1 to 64.
    pub number: u64,
    /// The file's id.
    pub file: u64,
    /// Whether the open may write.
    pub writes: bool,
}

/// The opens of all clients, in the order in which they were opened, with an index of them.
#[derive(Debug, Drop)]
pub(crate) struct Opens {
    opens: Vec<Open>,
    index: Index,
}

impl Open {
    // Whether the open is the client's of this number.
    fn is_as(&self, client: u8, number: u64) -> bool
        ensures { result ≡ is_as client number self.now }
    {
        self.client == client && self.number == number
    }
}

impl Model for Opens {
    ghost use Rattle.std.specs.Prelude.{List};
    ghost use Rattle.sis_core.specs.declared.opens.Open.{Open};
    ghost use Rattle.sis_core.specs.Opens.{IsIndex};

    ghost Value = { List Open };

    ghost view = { λ o. o.opens.items };

    ghost invariant = { λ o. IsIndex o.opens.items o.index };
}

impl Opens {
    /// No opens. Takes no memory.
    pub(crate) fn new(alloc: Global) -> Opens
        ensures { result ≡ [] }
    {
        Opens {
            opens: Vec::new(alloc),
            index: Index::new(alloc),
        }
    }

    /// The client's open of this number.
    pub(crate) fn find(&self, client: u8, number: u64) -> Option<Open>
        ensures { result ≡ open_as client number self.now }
    {
        self.index.find(client, number)
    }

    // Whether the client has an open of this number.
    fn has(&self, client: u8, number: u64) -> bool
        ensures { result ≡ list_any (is_as client number) self.now }
    {
        self.find(client, number).is_some()
    }

    /// How many opens the client has.
    pub(crate) fn count(&self, client: u8) -> u64
        ensures { result ≡ length (filter (is_of client) self.now) }
    {
        self.index.count(client)
    }

    /// The least number from 1 that the client has free, 0 where there is none.
    pub(crate) fn free_number(&self, client: u8) -> u64
        ensures { result ≡ free_number client self.now }
    {
        for number in 1..=MOST_OPENS {
            if !self.has(client, number) {
                return number;
            }
        }
        0
    }

    /// Whether somebody has the file open.
    pub(crate) fn has_file(&self, file: u64) -> bool
        ensures { result ≡ has_file file self.now }
    {
        self.index.opens_in(file).opens > 0
    }

    /// Whether another open than this one may write its file.
    pub(crate) fn has_other_writer(&self, this: &Open) -> bool
        ensures { result ≡ has_other_writer this.now self.now }
    {
        // This open is one of the file's writers itself, where it may write.
        let own = match self.find(this.client, this.number) {
            Some(open) if open.file == this.file && open.writes => 1,
            _ => 0,
        };
        self.index.opens_in(this.file).writers > own
    }

    /// Adds an open, under a number that the client has free.
    pub(crate) fn add(&mut self, this: Open) -> Result<(), AllocError>
        requires { open_as this.client this.number self.old ≡ None }
        ensures ok { OnOk result (self.new ≡ self.old ++ this ∷ []) }
        ensures err { OnErr result (self.new ≡ self.old) }
    {
        self.opens.reserve(1)?;
        self.index.enter(this)?;
        // There is room for it.
        let _ = self.opens.push(this);
        Ok(())
    }

    /// Drops the client's open of this number. Takes no memory.
    pub(crate) fn drop_one(&mut self, client: u8, number: u64)
        ensures { self.new ≡ filter (λ o. not (is_as client number o)) self.old }
    {
        if let Some(open) = self.find(client, number) {
            self.index.leave(&open);
            self.opens.retain(|open| !open.is_as(client, number));
        }
    }

    /// Drops all opens of the client. Takes no memory.
    pub(crate) fn drop_client(&mut self, client: u8)
        ensures { self.new ≡ filter (λ o. not (is_of client o)) self.old }
    {
        self.index.leave_all(&self.opens, client);
        self.opens.retain(|open| open.client != client);
    }
}
