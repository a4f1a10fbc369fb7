//! Rows that were worked out by hand. These functions do nothing: their clauses are what they are
//! for.
ghost use Rattle.std.specs.Prelude.{◌≡◌, ℕ, false, true, List, [], ◌∷◌, Option, Some, None};
ghost use Rattle.sis_history.specs.Causes.{edits_table, needs_disk};
ghost use Rattle.sis_history.specs.Changed.{Fresh};
ghost use Rattle.sis_history.specs.Needs.{hindrance_of, put_need, reads_of};
ghost use Rattle.sis_history.specs.RowCases.{a_is_unsettled, after_close, after_end, after_nothing, after_put, after_rename, after_sync, after_write, before_close, before_end, before_hole, before_nothing, before_put, before_rename, before_sync, before_write, close_row, commit_calls, data_calls, disk_row, down_row, end_row, fail_row, job_on, nothing_row, put_abc, put_row, put_stage, rename_row, saved, sync_row, sync_stage, table_of, told, write_far, write_row};
ghost use Rattle.sis_history.specs.Rows.{Begins, Enters, Fails};
ghost use Rattle.sis_history.specs.Runs.{IsRow, IsRun};
ghost use Rattle.sis_history.specs.Stage.{Stage};
ghost use Rattle.sis_model.specs.declared.command.Command.{Command as ACommand};
ghost use Rattle.sis_model.specs.declared.command.Command.TheVariants as command;
ghost use Rattle.sis_model.specs.declared.history.Entry.{Entry as AnEntry};
ghost use Rattle.sis_model.specs.declared.reply.Fate.TheVariants as fate;
ghost use Rattle.sis_model.specs.declared.reply.Hindrance.TheVariants as hindrance;
ghost use Rattle.sis_model.specs.declared.reply.LimitKind.TheVariants as limit;
ghost use Rattle.sis_table.specs.Volume.{greatest_number};

/// A put of three bytes makes a plain file with one block. No commit fails in its step where
/// nothing was edited since the last one.
pub fn case_of_a_put()
    ensures row { IsRow before_put put_row after_put }
    ensures commit { (file : Option ℕ) (at : ℕ) (t : Stage)
        → ¬ (IsRow (saved before_put) (Fails 1 file at) t) }
{}

/// A put whose data can't be written is answered so. It changes nothing, and a commit that failed
/// is not answered so. Nor is such a write a failed commit.
pub fn case_of_a_disk_fault()
    ensures data_fault { IsRow (put_stage (told 0 []) (job_on put_abc)) disk_row
        (put_stage (told 1 data_calls) None) }
    ensures commit { ¬ (IsRow (put_stage (told 0 []) (job_on put_abc)) disk_row
        (put_stage (told 1 commit_calls) None)) }
    ensures no_commit { (at : ℕ) (t : Stage)
        → t.seen ≡ told 1 data_calls
        → ¬ (IsRow (put_stage (told 0 []) (job_on put_abc)) (Fails 1 None at) t) }
{}

/// A write far behind the end takes two places, since the block at the old end goes to a new one,
/// too. Neither is a place that a file maps.
pub fn case_of_a_write()
    ensures row { IsRow before_write (write_row (7 ∷ 8 ∷ [])) after_write }
    ensures used { (t : Stage) → ¬ (IsRow before_write (write_row (6 ∷ 8 ∷ [])) t) }
    ensures few { (t : Stage) → ¬ (IsRow before_write (write_row (8 ∷ [])) t) }
{}

/// A write without bytes makes no call of the disk, and leaves the table as it was committed.
pub fn case_of_an_empty_write()
    ensures row { IsRow before_nothing nothing_row after_nothing }
    ensures saved { (t : Stage) → IsRow before_nothing nothing_row t → t.is_changed ≡ false }
{}

/// A write without bytes edits nothing, nor does a size that the file has.
pub fn case_of_edits()
    ensures empty { edits_table before_write 1 (command.Write 1 8192 []) ≡ false }
    ensures bytes { edits_table before_write 1 write_far ≡ true }
    ensures same { edits_table before_write 1 (command.Size 1 1) ≡ false }
    ensures size { edits_table before_write 1 (command.Size 1 2) ≡ true }
{}

/// A read of a hole needs no disk, and one of a block on each side of it reads that block.
pub fn case_of_a_hole()
    ensures hole { needs_disk before_hole 1 (command.Read 1 4096 4096) ≡ false }
    ensures block { needs_disk before_hole 1 (command.Read 1 4095 4096) ≡ true }
    ensures few { reads_of before_hole 1 1 (record { at = 4095; len = 4097 }) ≡ 1 }
{}

/// A close of a file that another client may write leaves it to that one.
pub fn case_of_a_close()
    ensures writer { IsRow before_close (close_row fate.Writer) after_close }
    ensures plain { (t : Stage) → ¬ (IsRow before_close (close_row fate.Plain) t) }
{}

/// An end drops the client's opens, and leaves no file unsettled.
pub fn case_of_an_end()
    ensures list { IsRow before_end (end_row []) after_end }
    ensures unsettled { (t : Stage) → ¬ (IsRow before_end (end_row (a_is_unsettled ∷ [])) t) }
{}

/// A rename changes the name alone, and makes no call of the disk,
/// and no commit fails in its step.
pub fn case_of_a_rename()
    ensures row { IsRow before_rename (rename_row 5) (after_rename 5) }
    ensures call { ¬ (IsRow before_rename (rename_row 6) (after_rename 6)) }
{}

/// A client that has a command in hand begins no other one.
pub fn case_of_a_second_command()
    ensures { (t : Stage) (c : ACommand) → ¬ (IsRow before_put (Begins 1 c) t) }
{}

/// A client of a number above the greatest one begins nothing.
pub fn case_of_client_17()
    ensures { (s t : Stage) (c : ACommand) → ¬ (IsRow s (Begins 17 c) t) }
{}

/// A command that isn't carried out so far gets no reply.
pub fn case_of_an_unserved_command()
    ensures { (s t : Stage) (e : AnEntry) (fresh : Fresh) (name : List ℕ)
        → e.command ≡ command.Tell name → ¬ (IsRow s (Enters e fresh) t) }
{}

/// A sync whose commit fails is answered by the number of the call that failed, and not before one
/// did.
pub fn case_of_a_failed_commit()
    ensures run { IsRun (sync_stage (told 0 []) None (job_on command.Sync))
        (fail_row ∷ down_row ∷ []) (sync_stage (told 1 commit_calls) (Some 1) None) }
    ensures early { (t : Stage)
        → ¬ (IsRow (sync_stage (told 0 []) None (job_on command.Sync)) down_row t) }
{}

/// A sync where nothing was edited since the last commit makes no call of the disk,
/// and no commit fails in its step.
pub fn case_of_a_needless_sync()
    ensures row { IsRow before_sync (sync_row 5) (after_sync 5) }
    ensures call { ¬ (IsRow before_sync (sync_row 6) (after_sync 6)) }
    ensures commit { (file : Option ℕ) (at : ℕ) (t : Stage)
        → ¬ (IsRow before_sync (Fails 1 file at) t) }
{}

/// Eleven blocks don't go into ten, and want of ids comes before want of blocks.
pub fn case_of_hindrances()
    ensures full { hindrance_of (table_of 1 []) (put_need 45056) ≡ Some (hindrance.Full 11 0 10) }
    ensures fits { hindrance_of (table_of 1 []) (put_need 40960) ≡ None }
    ensures ids { hindrance_of (table_of greatest_number []) (put_need 45056)
        ≡ Some (hindrance.Limit limit.Ids) }
{}
