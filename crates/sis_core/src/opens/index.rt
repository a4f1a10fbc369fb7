//! An index of opens: a look-up in it takes logarithmic time.
ghost use Rattle.std.specs.Prelude.{◌≡◌, ◌<◌, ◌^◌, ◌++◌, ◌∷◌, [], List, length, filter, not, None, OnErr, OnOk, unwrap_or};
ghost use Rattle.std.specs.BTreeMap.{get};
ghost use Rattle.std.specs.Ordering.{nat_cmp};
ghost use Rattle.sis_core.specs.Opens.{CountsClients, CountsFiles, IsIndex, is_of, not_open, open_as, pair_cmp};
ghost use Rattle.sis_core.specs.declared.opens.Open.{Open};

use super::Open;
use std::alloc::{AllocError, Global};
use std::collections::BTreeMap;

/// How many opens a file has.
#[derive(Clone, Copy, Debug)]
pub(crate) struct FileOpens {
    pub opens: u64,
    /// How many of them may write.
    pub writers: u64,
}

impl FileOpens {
    /// Those of a file that isn't open.
    const NONE: FileOpens = FileOpens {
        opens: 0,
        writers: 0,
    };
}

/// Opens by client and number, with how many a client and a file have.
#[derive(Debug, Drop)]
pub(crate) struct Index {
    numbers: BTreeMap<(u8, u64), Open>,
    clients: BTreeMap<u8, u64>,
    files: BTreeMap<u64, FileOpens>,
}

// The client has one open more.
fn enter_client(clients: &mut BTreeMap<u8, u64>, this: &Open) -> Result<(), AllocError>
    requires { (opens : List Open) × CountsClients opens clients.old × (length opens < 2 ^ 63) }
    ensures ok { OnOk result ((opens : List Open) → CountsClients opens clients.old
        → CountsClients (opens ++ this.now ∷ []) clients.new) }
    ensures err { OnErr result ((opens : List Open) → CountsClients opens clients.old
        → CountsClients opens clients.new) }
{
    *clients.entry(this.client)?.or_insert(0) += 1;
    Ok(())
}

// The file has one open more.
fn enter_file(files: &mut BTreeMap<u64, FileOpens>, this: &Open) -> Result<(), AllocError>
    requires { (opens : List Open) × CountsFiles opens files.old × (length opens < 2 ^ 63) }
    ensures ok { OnOk result ((opens : List Open) → CountsFiles opens files.old
        → CountsFiles (opens ++ this.now ∷ []) files.new) }
    ensures err { OnErr result ((opens : List Open) → CountsFiles opens files.old
        → CountsFiles opens files.new) }
{
    let file = files.entry(this.file)?.or_insert(FileOpens::NONE);
    file.opens += 1;
    if this.writes {
        file.writers += 1;
    }
    Ok(())
}

// The client has one open fewer. Takes no memory.
fn leave_client(clients: &mut BTreeMap<u8, u64>, this: &Open)
    ensures { (front rest : List Open) → CountsClients (front ++ this.now ∷ rest) clients.old
        → CountsClients (front ++ rest) clients.new }
{
    let opens = clients.get(&this.client).copied().unwrap_or(0);
    if opens > 1 {
        // The client is there, so this takes no memory.
        let _ = clients.insert(this.client, opens - 1);
    } else {
        clients.remove(&this.client);
    }
}

// The file has one open fewer. Takes no memory.
fn leave_file(files: &mut BTreeMap<u64, FileOpens>, this: &Open)
    ensures { (front rest : List Open) → CountsFiles (front ++ this.now ∷ rest) files.old
        → CountsFiles (front ++ rest) files.new }
{
    let mut left = files.get(&this.file).copied().unwrap_or(FileOpens::NONE);
    left.opens = left.opens.saturating_sub(1);
    if this.writes {
        left.writers = left.writers.saturating_sub(1);
    }
    if left.opens > 0 {
        // The file is there, so this takes no memory.
        let _ = files.insert(this.file, left);
    } else {
        files.remove(&this.file);
    }
}

impl Index {
    /// Of no opens. Takes no memory.
    pub fn new(alloc: Global) -> Index
        ensures { IsIndex [] result }
    {
        Index {
            numbers: BTreeMap::new(alloc),
            clients: BTreeMap::new(alloc),
            files: BTreeMap::new(alloc),
        }
    }

    /// The client's open of this number.
    pub fn find(&self, client: u8, number: u64) -> Option<Open>
        ensures { result ≡ get pair_cmp self.now.numbers (client, number) }
    {
        self.numbers.get(&(client, number)).copied()
    }

    /// How many opens the client has.
    pub fn count(&self, client: u8) -> u64
        ensures { result ≡ unwrap_or (get nat_cmp self.now.clients client) 0 }
    {
        self.clients.get(&client).copied().unwrap_or(0)
    }

    /// How many opens the file has.
    pub fn opens_in(&self, file: u64) -> FileOpens
        ensures { result ≡ unwrap_or (get nat_cmp self.now.files file) not_open }
    {
        self.files.get(&file).copied().unwrap_or(FileOpens::NONE)
    }

    /// Enters an open behind the others, or nothing where memory runs out.
    pub fn enter(&mut self, this: Open) -> Result<(), AllocError>
        requires { (opens : List Open) × IsIndex opens self.old × (length opens < 2 ^ 63)
            × (open_as this.client this.number opens ≡ None) }
        ensures ok { OnOk result ((opens : List Open) → IsIndex opens self.old
            → open_as this.client this.number opens ≡ None
            → IsIndex (opens ++ this ∷ []) self.new) }
        ensures err { OnErr result ((opens : List Open) → IsIndex opens self.old
            → IsIndex opens self.new) }
    {
        enter_client(&mut self.clients, &this)?;
        if enter_file(&mut self.files, &this).is_err() {
            leave_client(&mut self.clients, &this);
            return Err(AllocError);
        }
        let number = (this.client, this.number);
        if self.numbers.insert(number, this).is_err() {
            leave_client(&mut self.clients, &this);
            leave_file(&mut self.files, &this);
            return Err(AllocError);
        }
        Ok(())
    }

    /// Takes an open out. Takes no memory.
    pub fn leave(&mut self, this: &Open)
        ensures { (front rest : List Open) → IsIndex (front ++ this.now ∷ rest) self.old
            → IsIndex (front ++ rest) self.new }
    {
        self.numbers.remove(&(this.client, this.number));
        leave_client(&mut self.clients, this);
        leave_file(&mut self.files, this);
    }

    /// Takes out those of the opens that are the client's. Takes no memory.
    pub fn leave_all(&mut self, opens: &[Open], client: u8)
        ensures { IsIndex opens.now self.old
            → IsIndex (filter (λ o. not (is_of client o)) opens.now) self.new }
    {
        for open in opens {
            if open.client == client {
                self.leave(open);
            }
        }
    }
}
