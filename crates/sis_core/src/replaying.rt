//! Runs the lines of a script by turns.
ghost use Rattle.std.specs.Prelude.{◌≡◌, ◌+◌, ◌<◌, ◌≤◌, ◌∷◌, [], ℕ, List, All, true, false, length};
ghost use Rattle.sis_history.specs.Replies.{IsServed};
ghost use Rattle.sis_model.specs.Order.{exec_order, most_clients, up_to_client};
ghost use Rattle.sis_model.specs.declared.history.Line.{Line as ALine};
ghost use Rattle.sis_core.specs.Jobs.{AreIdle, IsClient};
ghost use Rattle.sis_core.specs.Rest.{IsReady, left};
ghost use Rattle.sis_core.specs.Sound.{IsSound};
ghost use Rattle.sis_core.specs.Steps.{IsSaved};
ghost use Rattle.sis_core.specs.Turns.{AddsTurns, HadTurns};
ghost use Rattle.sis_core.specs.View.{opening_of};

use crate::Core;
use crate::rest::Rest;
use sis_disk::{Disk, Guids};
use sis_model::Line;

fn is_client(client: u8) -> bool
    ensures yes { result ≡ true → IsClient client }
    ensures no { result ≡ false → ¬ IsClient client }
{
    1 <= client && client <= 16
}

impl<D: Disk, G: Guids> Core<D, G> {
    // A turn of a client: begins its next command, and answers it. Answers whether it had one.
    fn turn(&mut self, rest: &mut Rest, client: u8) -> bool
        requires client { IsClient client }
        requires ready { (lines : List ALine) × IsReady self.old rest.old lines }
        ensures turn { (lines : List ALine) → IsReady self.old rest.old lines
            → HadTurns self.old self.new lines rest.new (client ∷ []) }
        ensures yes { result ≡ true → length self.old.entries < length self.new.entries }
        ensures no { result ≡ false → length self.new.entries ≡ length self.old.entries }
        ensures done { result ≡ false → left rest.new client ≡ [] }
        ensures others { result ≡ false → (c : ℕ) → left rest.new c ≡ left rest.old c }
        ensures sound { IsSound self.old → IsSound self.new }
    {
        match rest.take(client) {
            None => false,
            Some(command) => {
                self.run_one(client, command);
                true
            }
        }
    }

    // A turn of the schedule: nothing, where it is no client's.
    fn scheduled(&mut self, rest: &mut Rest, client: u8)
        requires ready { (lines : List ALine) × IsReady self.old rest.old lines }
        ensures turn { (lines : List ALine) → IsReady self.old rest.old lines
            → HadTurns self.old self.new lines rest.new (client ∷ []) }
        ensures sound { IsSound self.old → IsSound self.new }
    {
        if is_client(client) {
            self.turn(rest, client);
        }
    }

    // A turn of each client. Answers whether there was something to do.
    fn round(&mut self, rest: &mut Rest) -> bool
        requires ready { (lines : List ALine) × IsReady self.old rest.old lines }
        ensures turns { (lines : List ALine) → IsReady self.old rest.old lines
            → HadTurns self.old self.new lines rest.new (up_to_client most_clients) }
        ensures yes { result ≡ true → length self.old.entries < length self.new.entries }
        ensures done { result ≡ false → (c : ℕ) → IsClient c → left rest.new c ≡ [] }
        ensures sound { IsSound self.old → IsSound self.new }
    {
        let mut went = false;
        for client in 1..17 {
            let moved = self.turn(rest, client);
            went = went | moved;
        }
        went
    }

    /// Runs lines by turns. A turn of a client begins its next command and answers it; a client's
    /// commands are its lines and then its end. The schedule's clients have turns first, and then
    /// all in rising order, round and round until all is done. A number that is no client's, and a
    /// client that has nothing left, are passed over. Each command gets its entry behind those of
    /// before, whatever the memory.
    pub fn replay(&mut self, lines: Vec<Line>, schedule: &[u8])
        requires clients { All (λ l. IsClient l.client) lines.items }
        requires served { All (λ l. IsServed l.command) lines.items }
        requires room { length (exec_order lines.items) ≤ self.old.spare }
        requires idle { AreIdle self.old.jobs }
        ensures kept { AddsTurns self.old.entries self.new.entries lines.items schedule.now }
        ensures lines { length self.new.entries
            ≡ length self.old.entries + length (exec_order lines.items) }
        ensures opening { opening_of self.new ≡ opening_of self.old }
        ensures idle { AreIdle self.new.jobs }
        ensures saved { IsSaved self.old → IsSaved self.new }
        ensures sound { IsSound self.new }
    {
        // Here the invariant of the type is known.
        let _ = &self.history;
        let mut rest = Rest::new(lines);
        for &client in schedule {
            self.scheduled(&mut rest, client);
        }
        while self.round(&mut rest) {}
    }
}
