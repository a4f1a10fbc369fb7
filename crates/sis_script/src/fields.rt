//! The fields of a line. Each reader takes what is left of the line, and gives a value and what
//! is left behind it.
ghost use Rattle.std.specs.Prelude.{◌≡◌, ◌==◌, ◌<◌, ◌∷◌, [], length, position, IfSome, MatchOption};
ghost use Rattle.std.specs.List.{slice_split};
ghost use Rattle.sis_reading.specs.Number.{plain_number};
ghost use Rattle.sis_reading.specs.Steps.{Gives};
ghost use Rattle.sis_script.specs.Steps.{named};
ghost use Rattle.sis_script.specs.Fields.{field_at, end_at, word_at, quoted_at, number_in, number_at};
ghost use Rattle.sis_script.specs.Fields.{name_of, name_at, hex_of, hex_at};
ghost use Rattle.sis_script.specs.Fields.{mode_of, mode_at, code_of, code_at};

use crate::faults::{LineFault, LineKind};
use hex::FromHex;
use sis_model::Bytes;
use sis_name::{Name, NameFault};
use sis_reading::{plain_number, text_of};
use std::alloc::Global;

// What stands behind the space that begins a field.
pub(crate) fn field_start(text: &[u8]) -> Result<&[u8], LineFault>
    ensures { Gives named (λ rest. rest.now) result (field_at text.now) }
{
    match text {
        [b' ', rest @ ..] => Ok(rest),
        _ => Err(LineFault::Wrong(LineKind::Fields)),
    }
}

// Nothing follows the last field.
pub(crate) fn line_end(text: &[u8]) -> Result<(), LineFault>
    ensures { Gives named (λ rest. []) result (end_at text.now) }
{
    if text.is_empty() {
        Ok(())
    } else {
        Err(LineFault::Wrong(LineKind::Fields))
    }
}

pub(crate) fn place_of(text: &[u8], byte: u8) -> Option<usize>
    ensures place { result ≡ position (λ b. b == byte) text.now }
    ensures inside { IfSome result (λ at. at < length text.now) }
{
    text.iter().position(|b| *b == byte)
}

// What stands before the first such byte, and what stands behind it.
pub(crate) fn split_once(text: &[u8], byte: u8) -> Option<(&[u8], &[u8])>
    ensures parts { MatchOption result (slice_split (λ b. b == byte) text.now ≡ text.now ∷ [])
        (λ found. slice_split (λ b. b == byte) text.now
        ≡ found.0.now ∷ slice_split (λ b. b == byte) found.1.now) }
    ensures shorter { IfSome result (λ found. length found.1.now < length text.now) }
{
    match place_of(text, byte) {
        Some(at) => Some((&text[..at], &text[at + 1..])),
        None => None,
    }
}

// The bytes up to the next space or the end, and the rest from there on.
pub(crate) fn word_of(text: &[u8]) -> (&[u8], &[u8])
    ensures word { result.0.now ≡ (word_at text.now).0 }
    ensures rest { result.1.now ≡ (word_at text.now).1 }
{
    match place_of(text, b' ') {
        Some(at) => text.split_at(at),
        None => text.split_at(text.len()),
    }
}

// What stands between two quotation marks, and the rest behind the second.
fn quoted(text: &[u8]) -> Result<(&[u8], &[u8]), LineFault>
    ensures { Gives named (λ found. (found.0.now, found.1.now)) result (quoted_at text.now) }
{
    match text {
        [b'"', rest @ ..] => match place_of(rest, b'"') {
            Some(at) => Ok((&rest[..at], &rest[at + 1..])),
            None => Err(LineFault::Wrong(LineKind::Name)),
        },
        _ => Err(LineFault::Wrong(LineKind::Name)),
    }
}

fn name_of_bytes(alloc: Global, bytes: &[u8]) -> Result<Name, LineFault>
    ensures { Gives named (λ name. name) result (name_of bytes.now) }
{
    let Some(text) = text_of(bytes) else {
        return Err(LineFault::Wrong(LineKind::Name));
    };
    match Name::from_text(alloc, text) {
        Ok(name) => Ok(name),
        Err(NameFault::Memory) => Err(LineFault::Memory),
        Err(_) => Err(LineFault::Wrong(LineKind::Name)),
    }
}

#[tactic(auto, unfolding(crate::specs::Fields::name_at))]
pub(crate) fn name_field(alloc: Global, text: &[u8]) -> Result<(Name, &[u8]), LineFault>
    ensures { Gives named (λ found. (found.0, found.1.now)) result (name_at text.now) }
{
    let start = field_start(text)?;
    let (inside, rest) = quoted(start)?;
    let name = name_of_bytes(alloc, inside)?;
    Ok((name, rest))
}

fn bytes_of_word(alloc: Global, word: &[u8]) -> Result<Bytes, LineFault>
    ensures { Gives named (λ bytes. bytes) result (hex_of word.now) }
{
    if word.len() == 1 && word[0] == b'-' {
        return Ok(Bytes::from_vec(Vec::new(alloc)));
    }
    if word.is_empty() {
        return Err(LineFault::Wrong(LineKind::Hex));
    }
    match hex::decode(alloc, word) {
        Ok(bytes) => Ok(Bytes::from_vec(bytes)),
        Err(hex::FromHexError::OutOfMemory) => Err(LineFault::Memory),
        Err(_) => Err(LineFault::Wrong(LineKind::Hex)),
    }
}

#[tactic(auto, unfolding(crate::specs::Fields::field_of))]
pub(crate) fn hex_field(alloc: Global, text: &[u8]) -> Result<(Bytes, &[u8]), LineFault>
    ensures { Gives named (λ found. (found.0, found.1.now)) result (hex_at text.now) }
{
    let (word, rest) = word_of(field_start(text)?);
    let bytes = bytes_of_word(alloc, word)?;
    Ok((bytes, rest))
}

fn number_of_word(word: &[u8]) -> Result<u64, LineFault>
    ensures { Gives named (λ number. number) result (number_in (plain_number word.now)) }
{
    match plain_number(word) {
        Some(number) => Ok(number),
        None => Err(LineFault::Wrong(LineKind::Number)),
    }
}

#[tactic(auto, unfolding(crate::specs::Fields::field_of))]
pub(crate) fn number_field(text: &[u8]) -> Result<(u64, &[u8]), LineFault>
    ensures { Gives named (λ found. (found.0, found.1.now)) result (number_at text.now) }
{
    let (word, rest) = word_of(field_start(text)?);
    let number = number_of_word(word)?;
    Ok((number, rest))
}

fn mode_of_word(word: &[u8]) -> Result<bool, LineFault>
    ensures { Gives named (λ write. write) result (mode_of word.now) }
{
    match word {
        b"r" => Ok(false),
        b"w" => Ok(true),
        _ => Err(LineFault::Wrong(LineKind::Mode)),
    }
}

// Whether an open may write.
#[tactic(auto, unfolding(crate::specs::Fields::field_of))]
pub(crate) fn mode_field(text: &[u8]) -> Result<(bool, &[u8]), LineFault>
    ensures { Gives named (λ found. (found.0, found.1.now)) result (mode_at text.now) }
{
    let (word, rest) = word_of(field_start(text)?);
    let write = mode_of_word(word)?;
    Ok((write, rest))
}

fn code_of_word(word: &[u8]) -> Result<u32, LineFault>
    ensures { Gives named (λ code. code) result (code_of word.now) }
{
    match <[u8; 4]>::from_hex(word) {
        Ok(bytes) => Ok(u32::from_be_bytes(bytes)),
        Err(_) => Err(LineFault::Wrong(LineKind::Code)),
    }
}

#[tactic(auto, unfolding(crate::specs::Fields::field_of))]
pub(crate) fn code_field(text: &[u8]) -> Result<(u32, &[u8]), LineFault>
    ensures { Gives named (λ found. (found.0, found.1.now)) result (code_at text.now) }
{
    let (word, rest) = word_of(field_start(text)?);
    let code = code_of_word(word)?;
    Ok((code, rest))
}
