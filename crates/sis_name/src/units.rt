//! Tests on units of UTF-16, and the units of a text.
ghost use Rattle.std.specs.Prelude.{◌≡◌, position, IfOk};
ghost use Rattle.std.specs.Char.Utf16.{is_high_surrogate, is_low_surrogate};
ghost use Rattle.sis_name.specs.Units.{is_barred, is_surrogate, is_pair_first, unpaired_from, text_units};

use std::alloc::{AllocError, Global};

fn is_barred(unit: u16) -> bool
    ensures { result ≡ is_barred unit }
{
    unit < 0x20 || unit == 0x22
}

fn is_surrogate(unit: u16) -> bool
    ensures { result ≡ is_surrogate unit }
{
    (0xD800..0xE000).contains(&unit)
}

fn is_high_surrogate(unit: u16) -> bool
    ensures { result ≡ is_high_surrogate unit }
{
    (0xD800..0xDC00).contains(&unit)
}

fn is_low_surrogate(unit: u16) -> bool
    ensures { result ≡ is_low_surrogate unit }
{
    (0xDC00..0xE000).contains(&unit)
}

fn begins_with_pair(units: &[u16]) -> bool
    ensures { result ≡ is_pair_first units.now }
{
    match units {
        [high, low, ..] => is_high_surrogate(*high) && is_low_surrogate(*low),
        _ => false,
    }
}

/// Where the first barred unit stands.
pub(crate) fn first_barred(units: &[u16]) -> Option<usize>
    ensures { result ≡ position is_barred units.now }
{
    units.iter().position(|unit| is_barred(*unit))
}

/// Where the first surrogate without its partner stands.
pub(crate) fn first_unpaired(units: &[u16]) -> Option<usize>
    ensures { result ≡ unpaired_from 0 units.now }
{
    let mut rest = units;
    while let [unit, tail @ ..] = rest {
        if begins_with_pair(rest) {
            rest = &rest[2..];
        } else if is_surrogate(*unit) {
            return Some(units.len() - rest.len());
        } else {
            rest = tail;
        }
    }
    None
}

/// The units of a text.
pub(crate) fn units_of(alloc: Global, text: &str) -> Result<Vec<u16>, AllocError>
    ensures { IfOk result (λ units. units.items ≡ text_units text.now) }
{
    let mut units = Vec::new(alloc);
    for c in text.chars() {
        let mut pair = [0u16; 2];
        units.extend_from_slice(c.encode_utf16(&mut pair))?;
    }
    Ok(units)
}
