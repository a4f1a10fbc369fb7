//! What follows for every point. These functions do nothing: their clauses are what they are for.
ghost use Rattle.std.specs.Prelude.{◌≡◌, ◌<◌, ℕ, List, All, Ok, length};
ghost use Rattle.sis_reparse.specs.Point.{IsPoint, point_text, point_at};
ghost use Rattle.sis_reparse.specs.declared.point.SisPoint.{SisPoint};

/// A spelling has 64 bytes.
#[tactic(auto, using(crate::proofs::Spelled::point_text_len))]
pub fn spellings_have_64_bytes()
    ensures { (p : SisPoint) → IsPoint p → length (point_text p) ≡ 64 }
{}

/// What is spelled is read as its value.
#[tactic(auto, using(crate::proofs::Spelled::spelled_is_read))]
pub fn spelled_is_read()
    ensures { (p : SisPoint) → IsPoint p → point_at (point_text p) ≡ Ok p }
{}

/// What is read is a point, and the bytes are its spelling.
pub fn read_is_spelled()
    ensures { (bytes : List ℕ) → (p : SisPoint) → All (λ b. b < 256) bytes
        → point_at bytes ≡ Ok p → IsPoint p × (bytes ≡ point_text p) }
{}

/// No two points have one spelling.
#[tactic(auto, using(crate::proofs::Spelled::one_spelling))]
pub fn one_spelling()
    ensures { (p q : SisPoint) → IsPoint p → IsPoint q → point_text p ≡ point_text q → p ≡ q }
{}
