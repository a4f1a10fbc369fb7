//! Reads what the control that copies a file asks for.
ghost use Rattle.std.specs.Prelude.{◌≡◌, ◌⊎◌, ℕ, IfErr, IfOk, IfNone, IfSome, None, OnOk, Some};
ghost use Rattle.sis_model.specs.Copy.{asked_in, is_root as is_root_of, path_in as path_of, refusal_of_files, refusal_of_names, refusal_of_request};
ghost use Rattle.sis_model.specs.World.{World};
ghost use Rattle.sis_name.specs.Name.{name_fault};
ghost use Rattle.sis_request.specs.Request.{request_at, units_of as units_in};

use crate::{Hindrance, Reply};
use sis_name::{Name, NameFault};
use std::alloc::{AllocError, Global};

/// What may stand in front of a volume's letter: `\\??\\` in UTF-16.
const PREFIX: [u16; 4] = [0x5c, 0x3f, 0x3f, 0x5c];

/// A copy of a file under another name.
#[derive(Debug, Drop)]
pub struct AskedCopy {
    /// The file that is copied.
    pub source: Name,
    /// The name of the copy.
    pub destination: Name,
    /// All 32 bits as they were sent.
    pub flags: u32,
}

/// Memory ran out.
const NO_MEMORY: Reply = Reply::Hindered {
    by: Hindrance::Memory,
};

// The units of a name that is lent from a request.
fn units_of(alloc: Global, bytes: &[u8]) -> Result<Vec<u16>, AllocError>
    ensures { IfOk result (λ units. units.items ≡ units_in bytes.now) }
{
    let mut units = Vec::with_capacity(alloc, bytes.len() / 2)?;
    let mut rest = bytes;
    while rest.len() >= 2 {
        units.push(u16::from_le_bytes([rest[0], rest[1]]))?;
        rest = &rest[2..];
    }
    Ok(units)
}

// Whether a path begins with the volume's letter in either case, a colon and a backslash, and goes
// on.
fn is_root(letter: u8, units: &[u16]) -> bool
    ensures { result ≡ is_root_of letter units.now }
{
    let letter = u16::from(letter);
    units.len() > 2
        && (units[0] == letter || units[0] == letter + 32)
        && units[1] == 0x3a
        && units[2] == 0x5c
}

// What stands behind the volume's letter, if the path is one of this volume.
fn path_in(letter: u8, units: &[u16]) -> Option<&[u16]>
    ensures some { IfSome result (λ path. path_of letter units.now ≡ Some path.now) }
    ensures none { IfNone result (path_of letter units.now ≡ None) }
{
    if is_root(letter, units) {
        return Some(&units[3..]);
    }
    let rest = units.strip_prefix(&PREFIX)?;
    if is_root(letter, rest) {
        Some(&rest[3..])
    } else {
        None
    }
}

// The name with these units, or else this refusal.
fn name_of(alloc: Global, units: &[u16], refusal: Reply) -> Result<Name, Reply>
    ensures ok { IfOk result (λ name. (name ≡ units.now) × (name_fault units.now ≡ None)) }
    ensures err { IfErr result (λ r. (r ≡ Reply.Hindered Hindrance.Memory)
        ⊎ ((r ≡ refusal) × (name_fault units.now ≡ None → ⊥))) }
{
    match Name::from_units(alloc, units) {
        Ok(name) => Ok(name),
        Err(NameFault::Memory) => Err(NO_MEMORY),
        Err(_) => Err(refusal),
    }
}

// The names of source and destination, in this order.
fn names_of(alloc: Global, from: &[u16], to: &[u16]) -> Result<(Name, Name), Reply>
    ensures ok { IfOk result (λ names. (names.0 ≡ from.now) × (names.1 ≡ to.now)) }
    ensures left { OnOk result ((w : World) (flags : ℕ)
        → refusal_of_names w from.now to.now flags ≡ refusal_of_files w from.now to.now flags) }
    ensures refused { IfErr result (λ r. (r ≡ Reply.Hindered Hindrance.Memory)
        ⊎ ((w : World) (flags : ℕ) → refusal_of_names w from.now to.now flags ≡ Some r)) }
{
    let source = name_of(alloc, from, Reply::NotFound)?;
    let destination = name_of(alloc, to, Reply::NameInvalid)?;
    Ok((source, destination))
}

impl AskedCopy {
    /// The copy that a request asks for on a volume with this letter, or else the first refusal up
    /// to the names: those of the files come after. Want of memory may come before any.
    pub fn read(alloc: Global, letter: u8, bytes: &[u8]) -> Result<AskedCopy, Reply>
        ensures asked { IfOk result (λ a. asked_in letter (request_at bytes.now) ≡ Some (record {
          source = a.source;
          destination = a.destination;
          flags = a.flags;
        })) }
        ensures left { IfOk result (λ a. (w : World) → w.letter ≡ letter
            → refusal_of_request w (request_at bytes.now)
            ≡ refusal_of_files w a.source a.destination a.flags) }
        ensures refused { IfErr result (λ r. (r ≡ Reply.Hindered Hindrance.Memory)
            ⊎ ((w : World) → w.letter ≡ letter
            → refusal_of_request w (request_at bytes.now) ≡ Some r)) }
    {
        let request = match sis_request::read(bytes) {
            Ok(request) => request,
            Err(fault) => return Err(Reply::InvalidRequest { fault }),
        };
        let Ok(source_path) = units_of(alloc, request.source) else {
            return Err(NO_MEMORY);
        };
        let Ok(destination_path) = units_of(alloc, request.destination) else {
            return Err(NO_MEMORY);
        };
        let Some(from) = path_in(letter, &source_path) else {
            return Err(Reply::NotSameDevice);
        };
        let Some(to) = path_in(letter, &destination_path) else {
            return Err(Reply::NotSameDevice);
        };
        let (source, destination) = names_of(alloc, from, to)?;
        Ok(AskedCopy {
            source,
            destination,
            flags: request.flags,
        })
    }
}
