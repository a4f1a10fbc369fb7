//! Commands, replies and histories as plain data, and in `specs/` what they mean: worlds of
//! separate files, the answers that a world allows, and the orders of a run.
#![tactic(auto)]

ghost use Rattle.std.specs.Prelude.{◌≡◌, ℕ, List, [], ◌∷◌, ◌++◌};
ghost use Rattle.sis_model.specs.declared.command.Command.{Command as ACommand};
ghost use Rattle.sis_model.specs.declared.history.Entry.{Entry as AnEntry};
ghost use Rattle.sis_model.specs.declared.history.Line.{Line as ALine};
ghost use Rattle.sis_model.specs.declared.reply.Reply.{Reply as AReply};
ghost use Rattle.sis_model.specs.Answer.{MayReply, world_with, kind_of, IsDone};
ghost use Rattle.sis_model.specs.History.{IsLegal, world_after};
ghost use Rattle.sis_model.specs.Opens.{IsWorld};
ghost use Rattle.sis_model.specs.Order.{commands_of, exec_order, expected_calls};
ghost use Rattle.sis_model.specs.World.{World, unopened};
ghost use Rattle.sis_name.specs.Files.{Files};

mod bytes;
mod command;
mod copying;
mod history;
mod names;
mod past;
mod range;
mod reply;
mod stale;
#[cfg(test)]
mod tests;
mod unsettled;

pub use bytes::Bytes;
pub use command::Command;
pub use copying::AskedCopy;
pub use history::{Entry, History, Line};
pub use names::NameList;
pub use past::Past;
pub use range::ByteRange;
pub use reply::{Fate, GrovelReport, Hindrance, Kind, LimitKind, Reply};
pub use sis_request::{Field, RequestFault};
pub use stale::Stale;
pub use unsettled::{UnsettledFile, UnsettledList};

/// In the order of a run each client makes its own commands, and then its end.
pub fn exec_order_is_expected()
    ensures { (client : ℕ) (lines : List ALine)
        → commands_of client (exec_order lines) ≡ expected_calls lines client }
{}

/// A history with one more entry is legal exactly where it was legal before and its world allows
/// the entry, whose reply then leaves the next world.
pub fn legal_history_goes_on()
    ensures legal { (w : World) (es : List AnEntry) (e : AnEntry)
        → IsLegal w es
        → MayReply (world_after w es) e.client e.command e.reply
        → IsLegal w (es ++ e ∷ []) }
    ensures only { (w : World) (es : List AnEntry) (e : AnEntry)
        → IsLegal w (es ++ e ∷ [])
        → IsLegal w es × MayReply (world_after w es) e.client e.command e.reply }
    ensures world { (w : World) (es : List AnEntry) (e : AnEntry)
        → world_after w (es ++ e ∷ [])
        ≡ world_with (world_after w es) e.client e.command e.reply }
{}

/// A reply that isn't of a command that was carried out leaves the world.
pub fn refused_or_hindered_leaves_the_world()
    ensures { (w : World) (client : ℕ) (command : ACommand) (reply : AReply)
        → ¬ (kind_of reply ≡ IsDone)
        → world_with w client command reply ≡ w }
{}

/// Files of which none is open are a world, and a world stays one with each reply that it allows.
pub fn worlds_stay_worlds()
    ensures first { (letter : ℕ) (files : Files) → IsWorld (unopened letter files) }
    ensures next { (w : World) (client : ℕ) (command : ACommand) (reply : AReply)
        → IsWorld w
        → MayReply w client command reply
        → IsWorld (world_with w client command reply) }
    ensures last { (w : World) (es : List AnEntry)
        → IsWorld w
        → IsLegal w es
        → IsWorld (world_after w es) }
{}
