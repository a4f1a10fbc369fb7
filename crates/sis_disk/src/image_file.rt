//! A disk over an opened file. It tells nothing of the file's bytes, which may be anything.
ghost use Rattle.std.specs.Prelude.{◌≡◌, ◌⊎◌, ◌+◌, ◌-◌, ◌^◌, ◌≤◌, length, None, false, true, is_err, IfOk, OnOk, OnErr};
ghost use Rattle.sis_disk.specs.Record.{Reads, Writes, Syncs, Went};
ghost use Rattle.sis_disk.specs.Failing.{raised};

use crate::{Disk, DiskFault};
use std::fs::OpenFile;
use std::io;
use std::os::unix::fs::FileExt;

/// A disk over an opened file, whose length is that at opening.
///
/// A sync is one of the file's data, since its length never changes. Once one has failed, each
/// later sync is refused: a system may drop what it couldn't write, and then the next one succeeds
/// without it.
///
/// It is part of what is trusted: no clause says which bytes a file gives, nor that a sync makes
/// them stable. That a sync behind one that failed is refused has clauses.
#[derive(Drop)]
pub struct ImageFile<F: FileExt + OpenFile + Drop> {
    file: F,
    size: u64,
    calls: u64,
    faults: u64,
    sync_failed: bool,
}

impl<F: FileExt + OpenFile + Drop> ImageFile<F> {
    /// A disk over this file, which is open for reading and writing.
    pub fn new(file: F) -> io::Result<ImageFile<F>>
        ensures calls { IfOk result (λ disk. disk.calls ≡ 0) }
        ensures faults { IfOk result (λ disk. disk.faults ≡ 0) }
        ensures syncs { IfOk result (λ disk. disk.sync_failed ≡ false) }
    {
        let size = file.metadata()?.len();
        Ok(ImageFile {
            file,
            size,
            calls: 0,
            faults: 0,
            sync_failed: false,
        })
    }

    #[tactic(auto, using(crate::proofs::Counts::raised_is))]
    fn fault(&mut self) -> DiskFault
        ensures { self.new ≡ record self.old { faults = raised self.old.faults } }
    {
        self.faults = self.faults.saturating_add(1);
        DiskFault
    }

    // Counts a call, and refuses it where no number is left for it.
    fn begin(&mut self) -> Result<(), DiskFault>
        ensures ok { OnOk result (self.new ≡ record self.old { calls = self.old.calls + 1 }) }
        ensures err { OnErr result (self.new ≡ record self.old { faults = raised self.old.faults }) }
        ensures last { OnErr result (self.old.calls ≡ 2 ^ 64 - 1) }
    {
        if self.calls == u64::MAX {
            return Err(self.fault());
        }
        self.calls += 1;
        Ok(())
    }

    // What a call is answered that had this outcome.
    fn end(&mut self, outcome: io::Result<()>) -> Result<(), DiskFault>
        ensures outcome { is_err result ≡ is_err outcome }
        ensures ok { OnOk result (self.new ≡ self.old) }
        ensures err { OnErr result
            (self.new ≡ record self.old { faults = raised self.old.faults }) }
    {
        match outcome {
            Ok(()) => Ok(()),
            Err(_) => Err(self.fault()),
        }
    }

    // The same for a sync. One that failed is noted.
    fn end_sync(&mut self, outcome: io::Result<()>) -> Result<(), DiskFault>
        ensures outcome { is_err result ≡ is_err outcome }
        ensures ok { OnOk result (self.new ≡ self.old) }
        ensures err { OnErr result (self.new ≡ record self.old {
          faults = raised self.old.faults;
          sync_failed = true;
        }) }
    {
        if outcome.is_err() {
            self.sync_failed = true;
        }
        self.end(outcome)
    }
}

impl<F: FileExt + OpenFile + Drop> Disk for ImageFile<F> {
    ghost seen = { λ d. record { size = d.size; calls = d.calls; faults = d.faults; told = None } };

    ghost counted = { λ _. tt };

    ghost sized = { λ _. tt };

    fn len(&self) -> u64 {
        self.size
    }

    fn calls(&self) -> u64 {
        self.calls
    }

    fn faults(&self) -> u64 {
        self.faults
    }

    #[tactic(auto, using(crate::proofs::Counts::raised_later, crate::proofs::Counts::raised_once, crate::proofs::Counts::raised_rose))]
    fn read(&mut self, at: u64, into: &mut [u8]) -> Result<(), DiskFault>
        requires { at + length into.old ≤ self.old.size }
        ensures call { Went (Reads at (length into.old)) result
            (record {
              size = self.old.size;
              calls = self.old.calls;
              faults = self.old.faults;
              told = None;
            })
            (record {
              size = self.new.size;
              calls = self.new.calls;
              faults = self.new.faults;
              told = None;
            }) }
        // It is refused only where no number is left for it.
        ensures made { OnErr result ((self.old.calls ≡ 2 ^ 64 - 1)
            ⊎ (self.new.calls ≡ self.old.calls + 1)) }
        ensures syncs { self.new.sync_failed ≡ self.old.sync_failed }
    {
        self.begin()?;
        let outcome = self.file.read_exact_at(into, at);
        self.end(outcome)
    }

    #[tactic(auto, using(crate::proofs::Counts::raised_later, crate::proofs::Counts::raised_once, crate::proofs::Counts::raised_rose))]
    fn write(&mut self, at: u64, bytes: &[u8]) -> Result<(), DiskFault>
        requires { at + length bytes.now ≤ self.old.size }
        ensures call { Went (Writes at bytes.now) result
            (record {
              size = self.old.size;
              calls = self.old.calls;
              faults = self.old.faults;
              told = None;
            })
            (record {
              size = self.new.size;
              calls = self.new.calls;
              faults = self.new.faults;
              told = None;
            }) }
        // It is refused only where no number is left for it.
        ensures made { OnErr result ((self.old.calls ≡ 2 ^ 64 - 1)
            ⊎ (self.new.calls ≡ self.old.calls + 1)) }
        ensures syncs { self.new.sync_failed ≡ self.old.sync_failed }
    {
        self.begin()?;
        let outcome = self.file.write_all_at(bytes, at);
        self.end(outcome)
    }

    #[tactic(auto, using(crate::proofs::Counts::raised_later, crate::proofs::Counts::raised_once, crate::proofs::Counts::raised_rose))]
    fn sync(&mut self) -> Result<(), DiskFault>
        ensures call { Went Syncs result
            (record {
              size = self.old.size;
              calls = self.old.calls;
              faults = self.old.faults;
              told = None;
            })
            (record {
              size = self.new.size;
              calls = self.new.calls;
              faults = self.new.faults;
              told = None;
            }) }
        // Behind one that failed it is refused, and else only where no number is left for it. One that
        // is made and answered with an error is noted.
        ensures made { OnErr result ((self.old.sync_failed ≡ true) ⊎ (self.old.calls ≡ 2 ^ 64 - 1)
            ⊎ (self.new.calls ≡ self.old.calls + 1)) }
        ensures refused { self.old.sync_failed ≡ true → (is_err result ≡ true)
            × (self.new ≡ record self.old { faults = raised self.old.faults }) }
        ensures noted { OnErr result ((self.old.calls ≡ 2 ^ 64 - 1)
            ⊎ (self.new.sync_failed ≡ true)) }
        ensures ok { OnOk result (self.new.sync_failed ≡ false) }
    {
        if self.sync_failed {
            return Err(self.fault());
        }
        self.begin()?;
        let outcome = self.file.sync_data();
        self.end_sync(outcome)
    }
}
