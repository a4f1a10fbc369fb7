//! What one line says: nothing, a client's command, or turns for the schedule.
ghost use Rattle.std.specs.Prelude.{◌≡◌, IfOk};
ghost use Rattle.std.specs.List.{All};
ghost use Rattle.sis_reading.specs.Steps.{Gives};
ghost use Rattle.sis_script.specs.Steps.{named};
ghost use Rattle.sis_script.specs.Script.{IsClient, IsBuilt, AreAllowed};
ghost use Rattle.sis_script.specs.Script.{client_of, turns_at, command_at, line_at, item_of};
ghost use Rattle.sis_script.specs.Views.{parts_in};

use crate::faults::{LineFault, LineKind};
use crate::fields::{field_start, split_once, word_of};
use crate::limits::LAST_CLIENT;
use crate::verbs::{fields, verb_field};
use sis_model::Line;
use sis_reading::{plain_number, text_of};
use std::alloc::Global;

/// What a line of a script says.
#[derive(Debug, Drop)]
pub(crate) enum Item {
    /// Nothing: the line is empty or a remark.
    Nothing,
    /// A client's command.
    Runs {
        /// The client and its command.
        line: Line,
    },
    /// The next turns of the schedule.
    Turns {
        /// Whose they are.
        clients: Vec<u8>,
    },
}

fn client(word: &[u8]) -> Result<u8, LineFault>
    ensures value { Gives named (λ client. client) result (client_of word.now) }
    ensures allowed { IfOk result (λ client. IsClient client) }
{
    let Some(client) = plain_number(word) else {
        return Err(LineFault::Wrong(LineKind::Client));
    };
    if 1 <= client && client <= LAST_CLIENT {
        Ok(client as u8)
    } else {
        Err(LineFault::Wrong(LineKind::Client))
    }
}

// What follows the `@`: one or more clients, each after one space.
#[tactic(auto, unfolding(crate::specs::Script::turns_at))]
fn turns(alloc: Global, text: &[u8]) -> Result<Vec<u8>, LineFault>
    ensures value { Gives named (λ clients. clients.items) result (turns_at text.now) }
    ensures allowed { IfOk result (λ clients. All IsClient clients.items) }
{
    let mut rest = field_start(text)?;
    let mut clients = Vec::new(alloc);
    while let Some((word, behind)) = split_once(rest, b' ') {
        let client = client(word)?;
        if clients.push(client).is_err() {
            return Err(LineFault::Memory);
        }
        rest = behind;
    }
    let client = client(rest)?;
    if clients.push(client).is_err() {
        return Err(LineFault::Memory);
    }
    Ok(clients)
}

#[tactic(auto, unfolding(crate::specs::Script::command_at))]
fn command_line(alloc: Global, text: &[u8]) -> Result<Line, LineFault>
    ensures value { Gives named (λ line. line) result (command_at text.now) }
    ensures client { IfOk result (λ line. IsClient line.client) }
    ensures built { IfOk result (λ line. IsBuilt line.command) }
{
    let (word, rest) = word_of(text);
    let client = client(word)?;
    let (verb, rest) = verb_field(rest)?;
    let command = fields(alloc, verb, rest)?;
    Ok(Line { client, command })
}

// What a line says that is UTF-8.
fn read_text_item(alloc: Global, text: &[u8]) -> Result<Item, LineFault>
    ensures value { Gives named parts_in result (line_at text.now) }
    ensures allowed { IfOk result (λ item. AreAllowed (parts_in item)) }
{
    match text {
        [] => Ok(Item::Nothing),
        [b'#', ..] => Ok(Item::Nothing),
        [b'@', rest @ ..] => Ok(Item::Turns {
            clients: turns(alloc, rest)?,
        }),
        _ => Ok(Item::Runs {
            line: command_line(alloc, text)?,
        }),
    }
}

pub(crate) fn read_item(alloc: Global, text: &[u8]) -> Result<Item, LineFault>
    ensures value { Gives named parts_in result (item_of text.now) }
    ensures allowed { IfOk result (λ item. AreAllowed (parts_in item)) }
{
    if text_of(text).is_none() {
        return Err(LineFault::Wrong(LineKind::Encoding));
    }
    read_text_item(alloc, text)
}
