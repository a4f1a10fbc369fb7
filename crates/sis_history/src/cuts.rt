//! What a cut says of each entry. These functions do nothing: their clauses are what they are for.
ghost use Rattle.std.specs.Prelude.{◌≡◌, ◌≤◌, ◌<◌, ℕ, true, List, length, take, drop, Some, slice_get};
ghost use Rattle.sis_history.specs.Durable.{is_sure};
ghost use Rattle.sis_history.specs.Stops.{AreInOrder, AreWithin, IsCut, NoneSure, decided_by};
ghost use Rattle.sis_model.specs.declared.history.Entry.{Entry as AnEntry};

/// Each entry that is sure lies before a cut. Where each lies before some place, none is behind it.
pub fn cut_has_each_sure_entry()
    ensures sure { (k p : ℕ) (entries : List AnEntry) (i : ℕ) (e : AnEntry)
        → IsCut k p entries → slice_get entries i ≡ Some e → is_sure k e ≡ true
        → i < p }
    ensures only { (k p : ℕ) (entries : List AnEntry)
        → ((i : ℕ) (e : AnEntry) → slice_get entries i ≡ Some e → is_sure k e ≡ true → i < p)
        → NoneSure k (drop p entries) }
{}

/// A cut lies within the history, and where that is in order, each entry before the cut was decided
/// by the stop.
pub fn cut_has_only_decided_entries()
    ensures bound { (k p : ℕ) (entries : List AnEntry)
        → IsCut k p entries → p ≤ length entries }
    ensures decided { (k p : ℕ) (entries : List AnEntry)
        → AreInOrder entries → IsCut k p entries → AreWithin k (take p entries) }
    ensures first { (k : ℕ) (entries : List AnEntry)
        → AreInOrder entries → AreWithin k (take (decided_by k entries) entries) }
{}
