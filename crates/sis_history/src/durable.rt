//! Which entries are durable. The function does nothing: its clauses are what it is for.
ghost use Rattle.std.specs.Prelude.{◌≡◌, ◌⊎◌, ℕ, false, true};
ghost use Rattle.sis_history.specs.Durable.{is_closed, is_done, is_durable, is_ended};
ghost use Rattle.sis_model.specs.Answer.{IsDone, kind_of};
ghost use Rattle.sis_model.specs.declared.command.Command.TheVariants as command;
ghost use Rattle.sis_model.specs.declared.history.Entry.{Entry as AnEntry};

/// A sync, a close or an end is durable where it was carried out. No other command is, and no entry
/// that was refused or hindered.
pub fn durable_entries()
    ensures sync { (e : AnEntry) → e.command ≡ command.Sync → is_durable e ≡ is_done e.reply }
    ensures close { (e : AnEntry) (number : ℕ)
        → e.command ≡ command.Close number → is_durable e ≡ is_closed e.reply }
    ensures end { (e : AnEntry) → e.command ≡ command.End → is_durable e ≡ is_ended e.reply }
    ensures only { (e : AnEntry)
        → is_durable e ≡ true
        → (e.command ≡ command.Sync) ⊎ ((number : ℕ) × (e.command ≡ command.Close number))
        ⊎ (e.command ≡ command.End) }
    ensures done { (e : AnEntry) → is_durable e ≡ true → kind_of e.reply ≡ IsDone }
    ensures others { (e : AnEntry) → ¬ (kind_of e.reply ≡ IsDone) → is_durable e ≡ false }
{}
