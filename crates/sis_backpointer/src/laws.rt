//! What follows for every list. These functions do nothing: their clauses are what they are for.
ghost use Rattle.std.specs.Prelude.{◌≡◌, ◌+◌, ◌<◌, ℕ, List, All, Ok, false, true, length};
ghost use Rattle.std.specs.List.{AllByRecursion};
ghost use Rattle.sis_backpointer.specs.declared.back.Back.{Back as TheBack};
ghost use Rattle.sis_backpointer.specs.Backs.{IsBack, IsRising, has_index, with_back, without_back, backs_text, backs_at};

/// What is spelled is read as its value.
pub fn spelled_is_read()
    ensures { (backs : List TheBack) → IsRising backs → AllByRecursion IsBack backs
        → backs_at (backs_text backs) ≡ Ok backs }
{}

/// What is read rises, and the bytes are its spelling.
pub fn read_is_spelled()
    ensures { (bytes : List ℕ) → (backs : List TheBack) → All (λ b. b < 256) bytes
        → backs_at bytes ≡ Ok backs
        → IsRising backs × AllByRecursion IsBack backs × (bytes ≡ backs_text backs) }
{}

/// No two lists have one spelling.
pub fn one_spelling()
    ensures { (a b : List TheBack) → IsRising a → AllByRecursion IsBack a
        → IsRising b → AllByRecursion IsBack b → backs_text a ≡ backs_text b → a ≡ b }
{}

/// One more leaves the indexes rising, where its index is new. The list is one longer.
pub fn an_added_one_rises()
    ensures rising { (b : TheBack) → (backs : List TheBack) → IsRising backs
        → has_index b.index backs ≡ false → IsRising (with_back b backs) }
    ensures len { (b : TheBack) → (backs : List TheBack)
        → length (with_back b backs) ≡ length backs + 1 }
{}

/// One less leaves the indexes rising. The list is one shorter, where there was one.
pub fn a_dropped_one_is_gone()
    ensures rising { (index : ℕ) → (backs : List TheBack) → IsRising backs
        → IsRising (without_back index backs) }
    ensures len { (index : ℕ) → (backs : List TheBack) → IsRising backs
        → has_index index backs ≡ true → length (without_back index backs) + 1 ≡ length backs }
{}
