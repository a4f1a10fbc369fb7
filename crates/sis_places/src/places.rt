//! Which places the two tables map.
ghost use Rattle.std.specs.Prelude.{◌≡◌, ◌+◌, ◌%◌, ◌<◌, ◌≤◌, true, false, length, slice_index_or, count_ones, IfOk};
ghost use Rattle.sis_places.specs.Places.{FindsNextSet, after_commit, spare, spare_bits, unmapped, used, with_bits};

use crate::Stretch;
use crate::words::{first, put, word_at};
use std::alloc::{AllocError, Global};
use std::marker::Model;

/// For each place whether the current table maps it, and whether the committed one does.
#[derive(Debug, Drop)]
pub struct Places {
    len: usize,
    current: Vec<u64>,
    committed: Vec<u64>,
    used: u64,
    spare: u64,
}

impl Model for Places {
    ghost use Rattle.sis_places.specs.Places.{PlacesView};
    ghost use Rattle.sis_places.specs.Inside.{ArePlaces, view_of};

    ghost Value = { PlacesView };

    ghost view = { λ p. view_of p.len p.current.items p.committed.items };

    ghost invariant = { λ p. ArePlaces p.len p.current.items p.committed.items p.used p.spare };
}

impl Places {
    /// So many places, which neither table maps.
    pub fn new(alloc: Global, len: usize) -> Result<Places, AllocError>
        ensures { IfOk result (λ places. places ≡ unmapped len) }
    {
        let words = len.div_ceil(64);
        Ok(Places {
            len,
            current: vec![in alloc; 0; words]?,
            committed: vec![in alloc; 0; words]?,
            used: 0,
            spare: len as u64,
        })
    }

    /// How many places there are.
    pub fn len(&self) -> usize
        ensures current { result ≡ length self.now.current }
        ensures committed { result ≡ length self.now.committed }
    {
        self.len
    }

    /// How many places the current table maps.
    pub fn used(&self) -> u64
        ensures { result ≡ used self.now }
    {
        self.used
    }

    /// How many places neither table maps.
    pub fn spare(&self) -> u64
        ensures { result ≡ spare self.now }
    {
        self.spare
    }

    /// Whether the current table maps a place.
    pub fn is_used(&self, place: usize) -> bool
        requires { place < length self.now.current }
        ensures { result ≡ slice_index_or self.now.current place false }
    {
        (word_at(&self.current, place) >> (place % 64)) & 1 == 1
    }

    /// Whether neither table maps a place.
    pub fn is_spare(&self, place: usize) -> bool
        requires { place < length self.now.current }
        ensures { result ≡ slice_index_or (spare_bits self.now) place false }
    {
        let held = word_at(&self.current, place) | word_at(&self.committed, place);
        (held >> (place % 64)) & 1 == 0
    }

    /// The current table maps these places from now on, also where it maps some already.
    pub fn take(&mut self, start: usize, count: usize)
        requires { start + count ≤ length self.old.current }
        ensures { self.new ≡ with_bits start count true self.old }
    {
        self.put(start, count, true);
    }

    /// The current table maps these places no more.
    pub fn free(&mut self, start: usize, count: usize)
        requires { start + count ≤ length self.old.current }
        ensures { self.new ≡ with_bits start count false self.old }
    {
        self.put(start, count, false);
    }

    /// The committed table maps what the current one maps.
    pub fn commit(&mut self)
        ensures { self.new ≡ after_commit self.old }
    {
        self.committed.copy_from_slice(&self.current);
        self.spare = self.len as u64 - self.used;
    }

    /// The next spare places from one on, at most so many.
    pub fn next_spare(&self, from: usize, most: usize) -> Option<Stretch>
        requires { 1 ≤ most }
        ensures { FindsNextSet (spare_bits self.now) from most result }
    {
        if from >= self.len {
            return None;
        }
        let start = first(&self.current, &self.committed, true, from, self.len);
        if start == self.len {
            return None;
        }
        let below = start + most.min(self.len - start);
        let end = first(&self.current, &self.committed, false, start, below);
        Some(Stretch {
            start,
            count: end - start,
        })
    }

    // Sets or clears neighbouring bits of the current table, word by word.
    fn put(&mut self, start: usize, count: usize, value: bool)
        requires { start + count ≤ length self.old.current }
        ensures { self.new ≡ with_bits start count value self.old }
    {
        // The sum is no more than the length, so it fits.
        let end = self.len.min(start + count);
        let mut at = start;
        while at < end {
            let part = (64 - at % 64).min(end - at);
            self.put_in_word(at, part, value);
            at += part;
        }
    }

    // The same within a word. It counts the word's bits before and after.
    fn put_in_word(&mut self, start: usize, count: usize, value: bool)
        requires some { 1 ≤ count }
        requires word { start % 64 + count ≤ 64 }
        requires within { start + count ≤ length self.old.current }
        ensures { self.new ≡ with_bits start count value self.old }
    {
        let before = word_at(&self.current, start);
        let after = put(before, start % 64, count, value);
        let other = word_at(&self.committed, start);
        self.used = self.used - ones(before) + ones(after);
        self.spare = self.spare + ones(before | other) - ones(after | other);
        self.current[start / 64] = after;
    }
}

// How many bits of a word are set.
fn ones(word: u64) -> u64
    ensures { result ≡ count_ones word }
{
    u64::from(word.count_ones())
}
