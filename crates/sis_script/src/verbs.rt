//! The verbs of a script, and the command that each one's fields say.
ghost use Rattle.std.specs.Prelude.{◌≡◌, true, IfOk};
ghost use Rattle.sis_script.specs.declared.verbs.Verb.TheVariants as verb;
ghost use Rattle.sis_reading.specs.Steps.{Gives};
ghost use Rattle.sis_script.specs.Steps.{named};
ghost use Rattle.sis_script.specs.Script.{IsBuilt};
ghost use Rattle.sis_script.specs.Verbs.{verb_of, is_built, built_of, verb_at, last_name_at};
ghost use Rattle.sis_script.specs.Verbs.{put_at, open_at, read_at, write_at, size_at, close_at};
ghost use Rattle.sis_script.specs.Verbs.{rename_at, list_at, fsctl_at, bare_at, fields_at};

use crate::faults::{LineFault, LineKind};
use crate::fields::{
    code_field, field_start, hex_field, line_end, mode_field, name_field, number_field, word_of,
};
use sis_model::Command;
use sis_name::Name;
use std::alloc::Global;

/// What a client's line asks for.
#[derive(Clone, Copy, Debug, PartialEq, Eq)]
pub(crate) enum Verb {
    /// Makes a file.
    Put,
    /// Opens a file.
    Open,
    /// Reads bytes of an open file.
    Read,
    /// Writes bytes into an open file.
    Write,
    /// Sets the size of an open file.
    Size,
    /// Drops an open.
    Close,
    /// Drops a file.
    Remove,
    /// Gives a file another name.
    Rename,
    /// Asks for a file's size.
    Stat,
    /// Asks for names of files.
    List,
    /// Asks how a file is kept.
    Tell,
    /// Asks how many data blocks are mapped.
    Space,
    /// A file system control.
    Fsctl,
    /// Makes all that was done durable.
    Sync,
    /// Lets equal files share their bytes.
    Grovel,
}

impl Verb {
    fn of_word(word: &[u8]) -> Option<Verb>
        ensures { result ≡ verb_of word.now }
    {
        if word == b"put".as_slice() {
            Some(Verb::Put)
        } else if word == b"open".as_slice() {
            Some(Verb::Open)
        } else if word == b"read".as_slice() {
            Some(Verb::Read)
        } else if word == b"write".as_slice() {
            Some(Verb::Write)
        } else if word == b"size".as_slice() {
            Some(Verb::Size)
        } else if word == b"close".as_slice() {
            Some(Verb::Close)
        } else if word == b"remove".as_slice() {
            Some(Verb::Remove)
        } else if word == b"rename".as_slice() {
            Some(Verb::Rename)
        } else if word == b"stat".as_slice() {
            Some(Verb::Stat)
        } else if word == b"list".as_slice() {
            Some(Verb::List)
        } else if word == b"tell".as_slice() {
            Some(Verb::Tell)
        } else if word == b"space".as_slice() {
            Some(Verb::Space)
        } else if word == b"fsctl".as_slice() {
            Some(Verb::Fsctl)
        } else if word == b"sync".as_slice() {
            Some(Verb::Sync)
        } else if word == b"grovel".as_slice() {
            Some(Verb::Grovel)
        } else {
            None
        }
    }

    // All but these verbs are carried out. They come later, and are refused till then.
    fn is_built(self) -> bool
        ensures { result ≡ is_built self }
    {
        !matches!(self, Verb::Tell | Verb::Fsctl | Verb::Grovel)
    }
}

fn verb_of_word(word: &[u8]) -> Result<Verb, LineFault>
    ensures value { Gives named (λ verb. verb) result (built_of word.now) }
    ensures built { IfOk result (λ verb. is_built verb ≡ true) }
{
    match Verb::of_word(word) {
        Some(verb) if verb.is_built() => Ok(verb),
        _ => Err(LineFault::Wrong(LineKind::Verb)),
    }
}

#[tactic(auto, unfolding(crate::specs::Fields::field_of))]
pub(crate) fn verb_field(text: &[u8]) -> Result<(Verb, &[u8]), LineFault>
    ensures value { Gives named (λ found. (found.0, found.1.now)) result (verb_at text.now) }
    ensures built { IfOk result (λ found. is_built found.0 ≡ true) }
{
    let (word, rest) = word_of(field_start(text)?);
    let verb = verb_of_word(word)?;
    Ok((verb, rest))
}

#[tactic(auto, unfolding(crate::specs::Verbs::last_name_at))]
fn last_name(alloc: Global, text: &[u8]) -> Result<Name, LineFault>
    ensures { Gives named (λ name. name) result (last_name_at text.now) }
{
    let (name, rest) = name_field(alloc, text)?;
    line_end(rest)?;
    Ok(name)
}

#[tactic(auto, unfolding(crate::specs::Verbs::put_at))]
fn put(alloc: Global, text: &[u8]) -> Result<Command, LineFault>
    ensures value { Gives named (λ command. command) result (put_at text.now) }
    ensures built { IfOk result (λ c. is_built verb.Put ≡ true → IsBuilt c) }
{
    let (name, rest) = name_field(alloc, text)?;
    let (bytes, rest) = hex_field(alloc, rest)?;
    line_end(rest)?;
    Ok(Command::Put { name, bytes })
}

#[tactic(auto, unfolding(crate::specs::Verbs::open_at))]
fn open(alloc: Global, text: &[u8]) -> Result<Command, LineFault>
    ensures value { Gives named (λ command. command) result (open_at text.now) }
    ensures built { IfOk result (λ c. is_built verb.Open ≡ true → IsBuilt c) }
{
    let (name, rest) = name_field(alloc, text)?;
    let (write, rest) = mode_field(rest)?;
    line_end(rest)?;
    Ok(Command::Open { name, write })
}

#[tactic(auto, unfolding(crate::specs::Verbs::read_at))]
fn read(text: &[u8]) -> Result<Command, LineFault>
    ensures value { Gives named (λ command. command) result (read_at text.now) }
    ensures built { IfOk result (λ c. is_built verb.Read ≡ true → IsBuilt c) }
{
    let (number, rest) = number_field(text)?;
    let (at, rest) = number_field(rest)?;
    let (len, rest) = number_field(rest)?;
    line_end(rest)?;
    Ok(Command::Read { number, at, len })
}

#[tactic(auto, unfolding(crate::specs::Verbs::write_at))]
fn write(alloc: Global, text: &[u8]) -> Result<Command, LineFault>
    ensures value { Gives named (λ command. command) result (write_at text.now) }
    ensures built { IfOk result (λ c. is_built verb.Write ≡ true → IsBuilt c) }
{
    let (number, rest) = number_field(text)?;
    let (at, rest) = number_field(rest)?;
    let (bytes, rest) = hex_field(alloc, rest)?;
    line_end(rest)?;
    Ok(Command::Write { number, at, bytes })
}

#[tactic(auto, unfolding(crate::specs::Verbs::size_at))]
fn size(text: &[u8]) -> Result<Command, LineFault>
    ensures value { Gives named (λ command. command) result (size_at text.now) }
    ensures built { IfOk result (λ c. is_built verb.Size ≡ true → IsBuilt c) }
{
    let (number, rest) = number_field(text)?;
    let (len, rest) = number_field(rest)?;
    line_end(rest)?;
    Ok(Command::Size { number, len })
}

#[tactic(auto, unfolding(crate::specs::Verbs::close_at))]
fn close(text: &[u8]) -> Result<Command, LineFault>
    ensures value { Gives named (λ command. command) result (close_at text.now) }
    ensures built { IfOk result (λ c. is_built verb.Close ≡ true → IsBuilt c) }
{
    let (number, rest) = number_field(text)?;
    line_end(rest)?;
    Ok(Command::Close { number })
}

#[tactic(auto, unfolding(crate::specs::Verbs::rename_at))]
fn rename(alloc: Global, text: &[u8]) -> Result<Command, LineFault>
    ensures value { Gives named (λ command. command) result (rename_at text.now) }
    ensures built { IfOk result (λ c. is_built verb.Rename ≡ true → IsBuilt c) }
{
    let (old, rest) = name_field(alloc, text)?;
    let new = last_name(alloc, rest)?;
    Ok(Command::Rename { old, new })
}

fn list(alloc: Global, text: &[u8]) -> Result<Command, LineFault>
    ensures value { Gives named (λ command. command) result (list_at text.now) }
    ensures built { IfOk result (λ c. is_built verb.List ≡ true → IsBuilt c) }
{
    let after = if text.is_empty() {
        None
    } else {
        Some(last_name(alloc, text)?)
    };
    Ok(Command::List { after })
}

#[tactic(auto, unfolding(crate::specs::Verbs::fsctl_at))]
fn fsctl(alloc: Global, text: &[u8]) -> Result<Command, LineFault>
    ensures value { Gives named (λ command. command) result (fsctl_at text.now) }
    ensures built { IfOk result (λ c. is_built verb.Fsctl ≡ true → IsBuilt c) }
{
    let (code, rest) = code_field(text)?;
    let (bytes, rest) = hex_field(alloc, rest)?;
    line_end(rest)?;
    Ok(Command::Fsctl { code, bytes })
}

// What only has the line's end behind its verb.
fn bare(command: Command, text: &[u8]) -> Result<Command, LineFault>
    ensures value { Gives named (λ found. found) result (bare_at command text.now) }
    ensures same { IfOk result (λ found. found ≡ command) }
{
    line_end(text)?;
    Ok(command)
}

// The command of a verb, from what stands behind the verb.
pub(crate) fn fields(alloc: Global, verb: Verb, text: &[u8]) -> Result<Command, LineFault>
    ensures value { Gives named (λ command. command) result (fields_at verb text.now) }
    ensures built { IfOk result (λ command. is_built verb ≡ true → IsBuilt command) }
{
    match verb {
        Verb::Put => put(alloc, text),
        Verb::Open => open(alloc, text),
        Verb::Read => read(text),
        Verb::Write => write(alloc, text),
        Verb::Size => size(text),
        Verb::Close => close(text),
        Verb::Remove => Ok(Command::Remove {
            name: last_name(alloc, text)?,
        }),
        Verb::Rename => rename(alloc, text),
        Verb::Stat => Ok(Command::Stat {
            name: last_name(alloc, text)?,
        }),
        Verb::List => list(alloc, text),
        Verb::Tell => Ok(Command::Tell {
            name: last_name(alloc, text)?,
        }),
        Verb::Space => bare(Command::Space, text),
        Verb::Fsctl => fsctl(alloc, text),
        Verb::Sync => bare(Command::Sync, text),
        Verb::Grovel => bare(Command::Grovel, text),
    }
}
