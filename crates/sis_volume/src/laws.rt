//! What follows for every image. These functions do nothing: their clauses are what they are for.
ghost use Rattle.std.specs.Prelude.{◌≡◌, ℕ, List, Ok};
ghost use Rattle.sis_table.specs.Image.{Holds, image_at};
ghost use Rattle.sis_table.specs.Volume.{VolumeTable};

/// The table that an image holds is the one that is read of it, where the image has no log. So what
/// `format` and `commit` leave is opened again.
#[tactic(auto, using(crate::proofs::ImageLaws::image_is_read))]
pub fn image_is_read()
    ensures { (m : List ℕ) → (v : VolumeTable) → Holds m v → v.layout.log ≡ 0
        → image_at m ≡ Ok v }
{}
