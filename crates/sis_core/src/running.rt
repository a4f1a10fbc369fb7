//! Runs the lines of a script: each to its answer.
ghost use Rattle.std.specs.Prelude.{◌≡◌, ◌+◌, ◌<◌, ◌≤◌, ◌∷◌, ◌^◌, [], ℕ, All, length, slice_index_or, true};
ghost use Rattle.sis_history.specs.Replies.{IsServed};
ghost use Rattle.sis_model.specs.Order.{commands_of, exec_order, is_end};
ghost use Rattle.sis_core.specs.Jobs.{AreIdle, IsClient};
ghost use Rattle.sis_core.specs.Sound.{IsSound};
ghost use Rattle.sis_core.specs.Steps.{IsSaved};
ghost use Rattle.sis_core.specs.Turns.{AddsLines};
ghost use Rattle.sis_core.specs.View.{opening_of};

use crate::{Core, Turn};
use sis_disk::{Disk, Guids};
use sis_model::{Command, Line};

// How many lines each client has.
fn lines_by_client(lines: &[Line]) -> [usize; 17]
    requires clients { All (λ l. IsClient l.client) lines.now }
    requires few { length lines.now < 2 ^ 63 }
    ensures counts { (client : ℕ) → client < 17
        → slice_index_or result client 0 ≡ length (commands_of client lines.now) }
    ensures size { length result ≡ 17 }
{
    let mut counts = [0; 17];
    for line in lines {
        counts[line.client as usize] += 1;
    }
    counts
}

impl<D: Disk, G: Guids> Core<D, G> {
    /// Takes a client's command, and does its steps until it is answered.
    pub(crate) fn run_one(&mut self, client: u8, command: Command)
        requires client { IsClient client }
        requires idle { AreIdle self.old.jobs }
        requires served { IsServed command }
        requires room { 1 ≤ self.old.spare }
        ensures kept { AddsLines self.old.entries self.new.entries
            (record { client = client; command = command } ∷ []) }
        ensures idle { AreIdle self.new.jobs }
        ensures spare { self.old.spare ≤ self.new.spare + 1 }
        ensures opening { opening_of self.new ≡ opening_of self.old }
        ensures saved { is_end command ≡ true → IsSaved self.new }
        ensures sound { IsSound self.new }
    {
        self.begin(client, command).unwrap();
        'steps: loop {
            if let Turn::Answered { .. } = self.step(client) {
                break 'steps;
            }
        }
    }

    /// Runs lines in order, each to its answer, and each client's end right after its last line.
    /// Each gets its entry behind those of before, whatever the memory.
    pub fn exec(&mut self, lines: Vec<Line>)
        requires clients { All (λ l. IsClient l.client) lines.items }
        requires served { All (λ l. IsServed l.command) lines.items }
        requires room { length (exec_order lines.items) ≤ self.old.spare }
        requires idle { AreIdle self.old.jobs }
        ensures kept { AddsLines self.old.entries self.new.entries (exec_order lines.items) }
        ensures idle { AreIdle self.new.jobs }
        ensures opening { opening_of self.new ≡ opening_of self.old }
        ensures saved { IsSaved self.old → IsSaved self.new }
        ensures sound { IsSound self.new }
    {
        // Here the invariant of the type is known.
        let _ = &self.history;
        let mut left = lines_by_client(&lines);
        let mut rest = lines;
        rest.reverse();
        while let Some(Line { client, command }) = rest.pop() {
            self.run_one(client, command);
            left[client as usize] -= 1;
            if left[client as usize] == 0 {
                self.run_one(client, Command::End);
            }
        }
    }
}
