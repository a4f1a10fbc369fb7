//! What follows for an image that a stop leaves. The function does nothing: its clauses are what it
//! is for.
ghost use Rattle.std.specs.Prelude.{◌≡◌, ◌⊎◌, ℕ, List, [], Some, Ok, IfSome};
ghost use Rattle.sis_core.specs.Opening.{world_in};
ghost use Rattle.sis_disk.specs.Record.{BeginsWith, Seen, live_of};
ghost use Rattle.sis_journal.specs.declared.fault.OpenFault.{OpenFault as AnOpenFault};
ghost use Rattle.sis_journal.specs.declared.fault.OpenFault.TheVariants as fault;
ghost use Rattle.sis_table.specs.Content.{files_in};
ghost use Rattle.sis_name.specs.Files.{Files};
ghost use Rattle.sis_table.specs.Good.{IsGood};
ghost use Rattle.sis_table.specs.Image.{image_at};
ghost use Rattle.sis_table.specs.Opens.{OpensAs};
ghost use Rattle.sis_table.specs.Volume.{VolumeTable};
ghost use Rattle.sis_volume.specs.Opening.{FailsAs};
ghost use Rattle.sis_cli.specs.Run.{IsGoodImage};

/// A disk whose bytes are an image that opens as some files is opened as a table that has just
/// these files, unless the disk fails or memory runs out, and a script on it begins with them.
///
/// The premises of `opened` and `refused` are what `Volume::open` says of its answers.
pub fn stopped_image_opens_again()
    ensures opened { (files : Files) (m : List ℕ) (seen : Seen) (v : VolumeTable)
        → OpensAs files m → BeginsWith m seen
        → IfSome (live_of seen) (λ live. image_at live ≡ Ok v)
        → IsGood v × (files_in v seen ≡ Some files) }
    ensures refused { (files : Files) (m : List ℕ) (seen : Seen) (by : AnOpenFault)
        → OpensAs files m → BeginsWith m seen
        → IfSome (live_of seen) (λ live. FailsAs by (image_at live))
        → (by ≡ fault.Disk) ⊎ (by ≡ fault.Memory) }
    ensures begins { (files : Files) (m : List ℕ)
        → OpensAs files m → IsGoodImage (Some m) × ((world_in m).files ≡ files) }
{}
