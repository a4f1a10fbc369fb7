//! The words of the command line as texts, also those that are none.
ghost use Rattle.std.specs.Prelude.{◌≡◌, ◌↔◌, [], ◌∷◌, IsUtf8, Contains, IfOk, string_bytes, take};

use std::alloc::{AllocError, Global};
use std::env::{Env, FillError};

// What stands for a word that isn't UTF-8.
//
// It is no verb, number or letter, and begins with `-` where the word does. Neither a word of a
// command line nor a file's path can have a NUL, so it never names a file that wasn't given.
fn stand_in(word: &[u8]) -> &'static str
    ensures nul { Contains result.now 0 }
    ensures dash { (take 1 result.now ≡ 45 ∷ []) ↔ (take 1 word.now ≡ 45 ∷ []) }
{
    match word {
        [b'-', ..] => "-\0",
        _ => "\0",
    }
}

fn text_of(alloc: Global, word: &[u8]) -> Result<String, AllocError>
    ensures same { IsUtf8 word.now → IfOk result (λ text. string_bytes text ≡ word.now) }
    ensures other { ¬ (IsUtf8 word.now) → IfOk result (λ text. Contains (string_bytes text) 0) }
{
    match str::from_utf8(word) {
        Ok(text) => String::from_str(alloc, text),
        Err(_) => String::from_str(alloc, stand_in(word)),
    }
}

// The word at this place, the program's own name being the first.
fn argument(rt: &HostRuntime, at: usize) -> Result<Option<String>, AllocError> {
    let mut word = vec![in rt.alloc(); 0u8; 256]?;
    for _ in 0..usize::BITS {
        match rt.arg(at, word.as_mut_slice()) {
            Ok(len) => {
                word.truncate(len);
                return Ok(Some(text_of(rt.alloc(), word.as_slice())?));
            }
            Err(FillError::NotPresent) => return Ok(None),
            Err(FillError::TooLong) => {
                let room = word.len().saturating_mul(2);
                word.resize(room, 0)?;
            }
        }
    }
    Err(AllocError)
}

/// The words behind the program's own name.
pub(crate) fn arguments(rt: &HostRuntime) -> Result<Vec<String>, AllocError> {
    let mut words = Vec::new(rt.alloc());
    for at in 1..usize::MAX {
        match argument(rt, at)? {
            Some(word) => words.push(word)?,
            None => break,
        }
    }
    Ok(words)
}
