//! Cases that were worked out by hand. These functions do nothing: their clauses are what they are
//! for.
ghost use Rattle.std.specs.Prelude.{◌≡◌, false, true, [], ◌∷◌};
ghost use Rattle.sis_history.specs.Cases.{close_at, end_at, put_at, sync_at};
ghost use Rattle.sis_history.specs.Durable.{is_durable, is_sure};
ghost use Rattle.sis_history.specs.Stops.{AreInOrder, IsCut, decided_by};

/// A sync, a close and an end that were carried out are durable, and a put isn't.
pub fn cases_of_durable_entries()
    ensures sync { is_durable (sync_at 3 5) ≡ true }
    ensures close { is_durable (close_at 3 5) ≡ true }
    ensures end { is_durable (end_at 3 5) ≡ true }
    ensures put { is_durable (put_at 3 5) ≡ false }
{}

/// Entries count from their decision on, and are sure from their answer on.
pub fn cases_of_numbers()
    ensures decided { decided_by 4 (put_at 3 3 ∷ sync_at 4 6 ∷ put_at 6 6 ∷ []) ≡ 2 }
    ensures early { is_sure 4 (sync_at 3 5) ≡ false }
    ensures sure { is_sure 5 (sync_at 3 5) ≡ true }
    ensures order { AreInOrder (put_at 3 3 ∷ sync_at 3 5 ∷ put_at 5 5 ∷ []) }
    ensures disorder { ¬ (AreInOrder (put_at 5 5 ∷ put_at 3 3 ∷ [])) }
{}

/// A cut keeps the sync that was answered, may lose the file that was made after it, and has no
/// entry that was decided later.
pub fn cases_of_cuts()
    ensures lost { ¬ (IsCut 5 1 (put_at 2 2 ∷ sync_at 2 5 ∷ put_at 5 5 ∷ [])) }
    ensures kept { IsCut 5 2 (put_at 2 2 ∷ sync_at 2 5 ∷ put_at 5 5 ∷ []) }
    ensures all { IsCut 5 3 (put_at 2 2 ∷ sync_at 2 5 ∷ put_at 5 5 ∷ []) }
    ensures early { IsCut 4 0 (put_at 2 2 ∷ sync_at 2 5 ∷ put_at 5 5 ∷ []) }
    ensures undecided { ¬ (IsCut 4 3 (put_at 2 2 ∷ sync_at 2 5 ∷ put_at 5 5 ∷ [])) }
{}
