//! What a client has to be answered, and when. These functions do nothing: their clauses are what
//! they are for.
ghost use Rattle.std.specs.Prelude.{◌≡◌, ℕ, List, Some, None};
ghost use Rattle.sis_disk.specs.Record.{Seen};
ghost use Rattle.sis_history.specs.Answered.{answer_client, unanswered};
ghost use Rattle.sis_history.specs.Changed.{Fresh};
ghost use Rattle.sis_history.specs.Entering.{IsAnswered};
ghost use Rattle.sis_history.specs.Loop.{AreCommitted};
ghost use Rattle.sis_history.specs.Needs.{IsUnhindered, hindrance_of, need_of, no_need};
ghost use Rattle.sis_history.specs.Rows.{Enters};
ghost use Rattle.sis_history.specs.Runs.{IsRow};
ghost use Rattle.sis_history.specs.Stage.{Stage};
ghost use Rattle.sis_history.specs.Stops.{AreInOrder, AreWithin, Survives};
ghost use Rattle.sis_model.specs.Answer.{refusal_of};
ghost use Rattle.sis_model.specs.History.{IsLegal, world_after};
ghost use Rattle.sis_model.specs.World.{World};
ghost use Rattle.sis_model.specs.declared.history.Entry.{Entry as AnEntry};
ghost use Rattle.sis_model.specs.declared.reply.Hindrance.{Hindrance as AHindrance};
ghost use Rattle.sis_model.specs.declared.reply.Hindrance.TheVariants as hindrance;
ghost use Rattle.sis_model.specs.declared.reply.Reply.{Reply as AReply};
ghost use Rattle.sis_model.specs.declared.reply.Reply.TheVariants as reply;
ghost use Rattle.sis_name.specs.Files.{Files};
ghost use Rattle.sis_table.specs.Volume.{VolumeTable, IsTable};

/// A command that the world refuses is answered so, but for want of memory and a failed commit.
pub fn refusal_is_answered()
    ensures { (s t : Stage) (e : AnEntry) (fresh : Fresh) (refusal : AReply)
        → IsRow s (Enters e fresh) t
        → refusal_of s.world e.client e.command ≡ Some refusal
        → IsAnswered refusal e.reply }
{}

/// Where the world refuses nothing, the first limit that the command meets, or want of room, is
/// what its client is answered, but for want of memory and a failed commit.
pub fn hindrance_is_answered()
    ensures { (s t : Stage) (e : AnEntry) (fresh : Fresh) (by : AHindrance)
        → IsRow s (Enters e fresh) t
        → refusal_of s.world e.client e.command ≡ None
        → hindrance_of s.table (need_of s e.client e.command) ≡ Some by
        → IsAnswered (reply.Hindered by) e.reply }
{}

/// Where no commit failed, a fault of the disk in an entry's step is what its client is answered.
pub fn faults_are_answered()
    ensures { (s t : Stage) (e : AnEntry) (fresh : Fresh)
        → IsRow s (Enters e fresh) t
        → s.down ≡ None
        → ¬ (t.seen.faults ≡ s.seen.faults)
        → e.reply ≡ reply.Hindered hindrance.Disk }
{}

/// What needs nothing meets no limit.
pub fn nothing_is_hindered_by_no_need()
    ensures { (v : VolumeTable) → IsTable v → IsUnhindered v no_need }
{}

/// A client that is answered after its command was decided leaves the history legal, in order and
/// with the same worlds, and what stops leave of it.
pub fn late_answer_changes_nothing_else()
    ensures legal { (w : World) (entries : List AnEntry) (client calls : ℕ)
        → IsLegal w entries → IsLegal w (answer_client client calls entries) }
    ensures world { (w : World) (entries : List AnEntry) (client calls : ℕ)
        → world_after w (answer_client client calls entries) ≡ world_after w entries }
    ensures order { (entries : List AnEntry) (client calls : ℕ)
        → AreInOrder entries → AreInOrder (answer_client client calls entries) }
    ensures within { (n : ℕ) (entries : List AnEntry) (client calls : ℕ)
        → AreWithin n entries → AreWithin n (answer_client client calls entries) }
    ensures stops { (first : ℕ) (w : World) (entries : List AnEntry) (client calls : ℕ)
        (seen : Seen)
        → Survives first w entries seen
        → Survives first w (answer_client client calls entries) seen }
    ensures committed { (w : World) (entries : List AnEntry) (files : Files) (client calls : ℕ)
        → AreCommitted w entries files
        → AreCommitted w (answer_client client calls entries) files }
{}

/// A client is answered once.
pub fn client_is_answered_once()
    ensures { (entries : List AnEntry) (client first second : ℕ)
        → (first ≡ unanswered → ⊥)
        → answer_client client second (answer_client client first entries)
        ≡ answer_client client first entries }
{}
