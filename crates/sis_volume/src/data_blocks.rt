//! Which data blocks the two tables map, and where the next spare ones are looked for.
ghost use Rattle.std.specs.Prelude.{◌≡◌, ◌+◌, ◌-◌, ◌<◌, ◌≤◌, length, All, IfOk};
ghost use Rattle.sis_disk.specs.Layout.{IsLayout, data_blocks, first_place};
ghost use Rattle.sis_places.specs.Places.{after_commit, with_bits};
ghost use Rattle.sis_places.specs.Places as bits;
ghost use Rattle.sis_table.specs.Uses.{IsDataUse};
ghost use Rattle.sis_table.specs.Volume.{IsTable, used_places};
ghost use Rattle.sis_volume.specs.Keeping.{ChangesBits, FindsFresh, IsAmong, IsNextFresh, IsNextRun, TakesRuns};
ghost use Rattle.sis_volume.specs.View.{count_of, is_fresh};

use crate::Txn;
use crate::txn::Front;
use sis_disk::Layout;
use sis_places::{Places, Stretch};
use sis_ranges::Run;
use sis_table::{PlaceUse, Table};
use std::alloc::{AllocError, Global};
use std::marker::Model;

/// For each data block whether the current table maps it, and whether the committed one does.
#[derive(Drop)]
pub(crate) struct DataBlocks {
    places: Places,
    /// Where spare ones are looked for next. No call but a search moves it.
    next: usize,
}

impl Model for DataBlocks {
    ghost use Rattle.sis_places.specs.Places.{PlacesView};

    ghost Value = { PlacesView };

    ghost view = { λ b. b.places };
}

// The next places from `from` on that neither table nor an edit maps, at most `most`.
fn next_fresh(
    places: &Places,
    layout: &Layout,
    txn: &Txn,
    from: usize,
    most: usize,
) -> Option<Stretch>
    requires layout { IsLayout layout.now }
    requires size { length places.now.current ≡ data_blocks layout.now }
    requires most { 1 ≤ most }
    ensures { FindsFresh layout.now places.now txn.now.edits from most result }
{
    let low = layout.first_place();
    let mut from = from;
    'search: while let Some(spare) = places.next_spare(from, most) {
        match txn.front(low + spare.start as u64, spare.count as u64) {
            Front::Mapped { end } => from = (end - low) as usize,
            Front::Free { count } => {
                return Some(Stretch {
                    start: spare.start,
                    count: count as usize,
                });
            }
        }
    }
    None
}

// The same from `from` on, or else from the first one on.
fn fresh_around(places: &Places, layout: &Layout, txn: &Txn, from: usize, most: usize) -> Stretch
    requires layout { IsLayout layout.now }
    requires size { length places.now.current ≡ data_blocks layout.now }
    requires most { 1 ≤ most }
    requires fresh { 0 < count_of layout.now (is_fresh layout.now places.now txn.now.edits) }
    ensures { IsNextFresh layout.now places.now txn.now.edits 0 most result }
{
    match next_fresh(places, layout, txn, from, most) {
        Some(stretch) => stretch,
        None => next_fresh(places, layout, txn, 0, most).unwrap(),
    }
}

// The current table maps the places of runs, too. The first bit is for the place `low`.
fn take_runs(places: &mut Places, runs: &[Run], low: u64)
    requires { All (IsAmong low (length places.old.current)) runs.now }
    ensures { TakesRuns low runs.now places.old places.new }
{
    for run in runs {
        places.take((run.place - low) as usize, run.count as usize);
    }
}

// Some places became used or free.
fn change(places: &mut Places, change: &PlaceUse, low: u64)
    requires low { low ≤ change.now.place }
    requires high { change.now.place + change.now.count ≤ low + length places.old.current }
    ensures { places.new ≡ with_bits (change.now.place - low) change.now.count change.now.is_taken
        places.old }
{
    let start = (change.place - low) as usize;
    let count = change.count as usize;
    if change.is_taken {
        places.take(start, count);
    } else {
        places.free(start, count);
    }
}

// Places became used and free, one after the other.
fn change_all(places: &mut Places, layout: &Layout, uses: &[PlaceUse])
    requires layout { IsLayout layout.now }
    requires size { length places.old.current ≡ data_blocks layout.now }
    requires uses { All (IsDataUse layout.now) uses.now }
    ensures { ChangesBits (first_place layout.now) uses.now places.old places.new }
{
    let low = layout.first_place();
    for one in uses {
        change(places, one, low);
    }
}

impl DataBlocks {
    /// Both tables are this one. Takes time for its runs and blocks.
    pub(crate) fn of_table(alloc: Global, table: &Table) -> Result<DataBlocks, AllocError>
        ensures places { IfOk result (λ blocks. blocks ≡ record {
          current = used_places table.now;
          committed = used_places table.now;
        }) }
        ensures table { IsTable table.now }
    {
        let layout = table.layout();
        let low = layout.first_place();
        let mut places = Places::new(alloc, layout.data_blocks() as usize)?;
        for node in table.nodes() {
            take_runs(&mut places, node.map.runs(), low);
        }
        places.commit();
        Ok(DataBlocks { places, next: 0 })
    }

    /// Places of the current table became used and free, one after the other.
    pub(crate) fn change(&mut self, layout: &Layout, uses: &[PlaceUse])
        requires layout { IsLayout layout.now }
        requires size { length self.old.current ≡ data_blocks layout.now }
        requires uses { All (IsDataUse layout.now) uses.now }
        ensures { ChangesBits (first_place layout.now) uses.now self.old self.new }
    {
        change_all(&mut self.places, layout, uses);
    }

    /// How many of them the current table maps.
    pub(crate) fn used(&self) -> u64
        ensures { result ≡ bits.used self.now }
    {
        self.places.used()
    }

    /// How many of them neither table maps.
    pub(crate) fn spare(&self) -> u64
        ensures { result ≡ bits.spare self.now }
    {
        self.places.spare()
    }

    /// The committed table maps what the current one maps.
    pub(crate) fn commit(&mut self)
        ensures { self.new ≡ after_commit self.old }
    {
        self.places.commit();
    }

    /// The next places that neither table nor an edit maps, for at most so many blocks from `first`
    /// on. The search goes on behind the places that it gave before, and round.
    pub(crate) fn next_run(&mut self, layout: &Layout, txn: &Txn, first: u64, most: u64) -> Run
        requires layout { IsLayout layout.now }
        requires size { length self.old.current ≡ data_blocks layout.now }
        requires most { 1 ≤ most }
        requires fresh { 0 < count_of layout.now (is_fresh layout.now self.old txn.now.edits) }
        ensures next { IsNextRun layout.now self.old txn.now.edits first most result }
        ensures same { self.new ≡ self.old }
    {
        let stretch = fresh_around(&self.places, layout, txn, self.next, most as usize);
        self.next = stretch.start + stretch.count;
        Run {
            first,
            count: stretch.count as u64,
            place: layout.first_place() + stretch.start as u64,
        }
    }
}
