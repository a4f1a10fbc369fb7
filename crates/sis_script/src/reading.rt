//! Scripts, read whole and then line by line.
ghost use Rattle.std.specs.Prelude.{◌≡◌, ◌<◌, ◌≤◌, ◌+◌, ◌++◌, ◌∷◌, ℕ, List, [], length};
ghost use Rattle.std.specs.Prelude.{Some, MatchOption, IfSome, IfOk, OnOk, IsErrOf};
ghost use Rattle.std.specs.List.{All};
ghost use Rattle.std.specs.Str.Lines.{lines, strip_carriage_return};
ghost use Rattle.sis_disk.specs.Record.{Rose};
ghost use Rattle.sis_script.specs.Script.{script_of, parts_from, joined, Says};
ghost use Rattle.sis_script.specs.Script.{IfJudged, AreAllowed, IsClient, IsBuilt};
ghost use Rattle.sis_script.specs.Views.{parts_of, parts_in};
ghost use Rattle.sis_script.specs.Taken.{HasRead, TakesAtMost};

use crate::commands::{Item, read_item};
use crate::faults::{LineFault, ScriptFault, ScriptLimit};
use crate::fields::split_once;
use crate::limits::{MOST_LINES, MOST_SCRIPT_BYTES};
use sis_disk::Source;
use sis_model::Line;
use std::alloc::{AllocError, Global};

/// The commands of a script, and whose turn is when they are replayed.
#[derive(Debug, Drop)]
pub struct Script {
    /// The commands in the order of their lines, each with its client.
    pub lines: Vec<Line>,
    /// The clients in the order of their turns.
    pub schedule: Vec<u8>,
}

fn without_return(line: &[u8]) -> &[u8]
    ensures { result.now ≡ strip_carriage_return line.now }
{
    match line {
        [front @ .., b'\r'] => front,
        _ => line,
    }
}

// The first line, and what stands behind it.
#[tactic(auto, using(crate::proofs::LineLemmas::lines_first, crate::proofs::LineLemmas::lines_last))]
fn next_line(text: &[u8]) -> Option<(&[u8], &[u8])>
    ensures lines { MatchOption result (lines text.now ≡ [])
        (λ found. lines text.now ≡ found.0.now ∷ lines found.1.now) }
    ensures shorter { IfSome result (λ found. length found.1.now < length text.now) }
{
    if text.is_empty() {
        return None;
    }
    match split_once(text, b'\n') {
        Some((line, rest)) => Some((without_return(line), rest)),
        None => Some((text, &[])),
    }
}

fn add(script: &mut Script, item: Item) -> Result<(), AllocError>
    ensures ok { OnOk result (parts_of script.new ≡ joined (parts_of script.old) (parts_in item)) }
{
    match item {
        Item::Nothing => {}
        Item::Runs { line } => script.lines.push(line)?,
        Item::Turns { clients } => script.schedule.extend_from_slice(&clients)?,
    }
    Ok(())
}

fn read_lines(alloc: Global, text: &[u8]) -> Result<Script, ScriptFault>
    ensures says { Says parts_of result (parts_from 0 (lines text.now)) }
    ensures inside { IsErrOf result ScriptFault.Source → ⊥ }
    ensures few { IfOk result (λ script. length script.lines.items ≤ MOST_LINES) }
    ensures allowed { IfOk result (λ script. AreAllowed (parts_of script)) }
{
    let mut script = Script {
        lines: Vec::new(alloc),
        schedule: Vec::new(alloc),
    };
    let mut rest = text;
    let mut number: u64 = 0;
    while let Some((line, behind)) = next_line(rest) {
        if number >= MOST_LINES {
            return Err(ScriptFault::Limit {
                kind: ScriptLimit::Lines,
                count: MOST_LINES + 1,
            });
        }
        number += 1;
        match read_item(alloc, line) {
            Ok(found) => {
                if add(&mut script, found).is_err() {
                    return Err(ScriptFault::Memory);
                }
            }
            Err(LineFault::Memory) => return Err(ScriptFault::Memory),
            Err(LineFault::Wrong(kind)) => {
                return Err(ScriptFault::Line { line: number, kind });
            }
        }
        rest = behind;
    }
    Ok(script)
}

// Why the input was not read to its end.
#[derive(Drop)]
enum InputFault {
    Source,
    Memory,
    TooLong,
}

// All the bytes, in whatever pieces they come, but no more than one above the limit.
fn read_input<S: Source>(alloc: Global, source: &mut S) -> Result<Vec<u8>, InputFault>
    ensures all { IfOk result (λ all. HasRead (S.left source.old) (S.left source.new) all.items) }
    ensures end { IfOk result (λ all. IfSome (S.left source.old) (λ bytes. bytes ≡ all.items)) }
    ensures long { IsErrOf result InputFault.TooLong
        → IfSome (S.left source.old) (λ bytes. MOST_SCRIPT_BYTES < length bytes) }
    ensures short { IfOk result (λ all. length all.items ≤ MOST_SCRIPT_BYTES) }
    ensures taken { TakesAtMost (MOST_SCRIPT_BYTES + 1) (S.left source.old) (S.left source.new) }
    ensures later { S.faults source.old ≤ S.faults source.new }
    ensures cause { IsErrOf result InputFault.Source
        → Rose (S.faults source.old) (S.faults source.new) }
{
    let mut all = Vec::new(alloc);
    let mut buffer = [0u8; 4096];
    'reading: while all.len() <= MOST_SCRIPT_BYTES {
        let room = (MOST_SCRIPT_BYTES + 1 - all.len()).min(4096);
        let Ok(count) = source.read(&mut buffer[..room]) else {
            return Err(InputFault::Source);
        };
        if count == 0 {
            return Ok(all);
        }
        if all.extend_from_slice(&buffer[..count]).is_err() {
            return Err(InputFault::Memory);
        }
    }
    Err(InputFault::TooLong)
}

/// Reads a script from a source, which may cut it into any pieces.
///
/// The source is read to its end before any line is judged.
pub fn read_script<S: Source>(alloc: Global, source: &mut S) -> Result<Script, ScriptFault>
    // What the bytes say, where the source tells them.
    ensures script { IfSome (S.left source.old) (λ bytes. Says parts_of result (script_of bytes)) }
    // Over every source it is what some bytes say, within the limits.
    ensures some { (bytes : List ℕ) × Says parts_of result (script_of bytes) }
    ensures ended { IfJudged result
        (IfSome (S.left source.old) (λ bytes. S.left source.new ≡ Some [])) }
    ensures taken { TakesAtMost (MOST_SCRIPT_BYTES + 1) (S.left source.old) (S.left source.new) }

    // What each script keeps, whether the source tells or not.
    ensures few { IfOk result (λ script. length script.lines.items ≤ MOST_LINES) }
    ensures clients { IfOk result (λ script. All (λ l. IsClient l.client) script.lines.items) }
    ensures built { IfOk result (λ script. All (λ l. IsBuilt l.command) script.lines.items) }
    ensures turns { IfOk result (λ script. All IsClient script.schedule.items) }

    ensures cause { IsErrOf result ScriptFault.Source
        → Rose (S.faults source.old) (S.faults source.new) }
    ensures later { S.faults source.old ≤ S.faults source.new }
{
    match read_input(alloc, source) {
        Ok(text) => read_lines(alloc, &text),
        Err(InputFault::Source) => Err(ScriptFault::Source),
        Err(InputFault::Memory) => Err(ScriptFault::Memory),
        Err(InputFault::TooLong) => Err(ScriptFault::Limit {
            kind: ScriptLimit::Bytes,
            count: MOST_SCRIPT_BYTES as u64 + 1,
        }),
    }
}
