//! What a script still has to begin.
ghost use Rattle.std.specs.Prelude.{◌≡◌, ◌≢◌, ◌<◌, ◌==◌, ◌∷◌, [], ℕ, All, IfNone, IfSome, drop, false, length, slice_index_or};
ghost use Rattle.std.specs.List.{list_any};
ghost use Rattle.sis_model.specs.Order.{commands_of, expected_calls};
ghost use Rattle.sis_model.specs.declared.history.Line.{Line as ALine};
ghost use Rattle.sis_core.specs.Jobs.{IsClient};
ghost use Rattle.sis_core.specs.Rest.{left};

use sis_model::{Command, Line};
use std::mem;

/// Lines, where each client goes on in them, and whether its end is still to come.
#[derive(Drop)]
pub(crate) struct Rest {
    lines: Vec<Line>,
    next: [usize; 17],
    ends: [bool; 17],
}

impl std::marker::Model for Rest {
    ghost use Rattle.sis_core.specs.Rest.{RestView};

    ghost Value = { RestView };

    ghost view = { λ r. record { lines = r.lines.items; next = r.next; ends = r.ends } };
}

// The place of a client's first line from a place on, or where the lines end.
fn next_line(lines: &[Line], from: usize, client: u8) -> usize
    ensures left { commands_of client (drop result lines.now)
        ≡ commands_of client (drop from lines.now) }
    ensures client { result < length lines.now → (d : ALine)
        → (slice_index_or lines.now result d).client ≡ client }
{
    let mut at = from;
    while at < lines.len() && lines[at].client != client {
        at += 1;
    }
    at
}

// For each client whether it has a line.
fn clients_with_lines(lines: &[Line]) -> [bool; 17]
    requires { All (λ l. IsClient l.client) lines.now }
    ensures { (client : ℕ) → client < 17 → slice_index_or result client false
        ≡ list_any (λ m. m.client == client) lines.now }
{
    let mut ends = [false; 17];
    for line in lines {
        ends[line.client as usize] = true;
    }
    ends
}

impl Rest {
    /// All lines, and each client's end.
    pub(crate) fn new(lines: Vec<Line>) -> Rest
        requires { All (λ l. IsClient l.client) lines.items }
        ensures { (client : ℕ) → client < 17
            → left result client ≡ expected_calls lines.items client }
    {
        let ends = clients_with_lines(&lines);
        Rest {
            lines,
            next: [0; 17],
            ends,
        }
    }

    /// Takes a client's next command.
    pub(crate) fn take(&mut self, client: u8) -> Option<Command>
        requires { client < 17 }
        ensures none { IfNone result ((c : ℕ) → left self.new c ≡ left self.old c) }
        ensures done { IfNone result (left self.new client ≡ []) }
        ensures some { IfSome result (λ c. left self.old client ≡ c ∷ left self.new client) }
        ensures others { (other : ℕ) → other ≢ client → left self.new other ≡ left self.old other }
    {
        let slot = client as usize;
        let at = next_line(&self.lines, self.next[slot], client);
        if at < self.lines.len() {
            self.next[slot] = at + 1;
            return Some(mem::replace(&mut self.lines[at].command, Command::Sync));
        }
        self.next[slot] = at;
        if !self.ends[slot] {
            return None;
        }
        self.ends[slot] = false;
        Some(Command::End)
    }
}
