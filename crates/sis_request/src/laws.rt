//! What follows for every request. These functions do nothing: their clauses are what they are for.
ghost use Rattle.std.specs.Prelude.{◌≡◌, ◌<◌, ℕ, List, [], ◌++◌, All, Ok};
ghost use Rattle.sis_request.specs.Request.{Request, IsRequest, request_text, request_at};

/// What begins with a spelling is read as its value.
#[tactic(auto, using(crate::proofs::Spelled::spelled_is_read))]
pub fn spelled_is_read()
    ensures { (r : Request) → (rest : List ℕ) → IsRequest r
        → request_at (request_text r ++ rest) ≡ Ok r }
{}

/// What is read begins with its spelling.
pub fn read_is_spelled()
    ensures { (bytes : List ℕ) → (r : Request) → All (λ b. b < 256) bytes
        → request_at bytes ≡ Ok r
        → IsRequest r × ((rest : List ℕ) × (bytes ≡ request_text r ++ rest)) }
{}

/// No spelling goes on as another, and no two requests have one spelling.
#[tactic(auto, using(crate::proofs::Spelled::no_prefix))]
pub fn no_spelling_goes_on()
    ensures { (r s : Request) → (rest : List ℕ) → IsRequest r → IsRequest s
        → request_text s ≡ request_text r ++ rest → (r ≡ s) × (rest ≡ []) }
{}
