//! Names of the common store's files, and the GUIDs in them.
ghost use Rattle.std.specs.Prelude.{◌≡◌, ◌≤◌, ◌++◌, length, Any, IfOk, OnOk, IfSome, IfNone, None};
ghost use Rattle.sis_name.specs.Units.{store_prefix};
ghost use Rattle.sis_name.specs.StoreNames.{store_ending, store_name, store_guid};

use std::alloc::{AllocError, Global};
use uuid::Uuid;

/// `SIS Common Store\` in UTF-16.
pub(crate) const STORE_PREFIX: [u16; 17] = [
    0x53, 0x49, 0x53, 0x20, 0x43, 0x6f, 0x6d, 0x6d, 0x6f, 0x6e, 0x20, 0x53, 0x74, 0x6f, 0x72, 0x65,
    0x5c,
];

/// `.sis` in UTF-16.
const STORE_ENDING: [u16; 4] = [0x2e, 0x73, 0x69, 0x73];

/// How many units a GUID's text has.
const GUID_UNITS: usize = 36;

/// How many units a store file's name has.
const STORE_UNITS: usize = 57;

/// Adds the units of a text in ASCII.
fn add_ascii(units: &mut Vec<u16>, text: &str) -> Result<(), AllocError>
    ensures { OnOk result (units.new.items ≡ units.old.items ++ text.now) }
{
    units.extend(text.bytes().map(u16::from))
}

/// The units of the name of the store file with this GUID.
pub(crate) fn units_of_guid(alloc: Global, guid: [u8; 16]) -> Result<Vec<u16>, AllocError>
    ensures { IfOk result (λ units. units.items ≡ store_name guid) }
{
    let mut buffer = Uuid::encode_buffer();
    let text = Uuid::from_bytes_le(guid)
        .hyphenated()
        .encode_lower(&mut buffer);

    let mut units = Vec::with_capacity(alloc, STORE_UNITS)?;
    units.extend_from_slice(&STORE_PREFIX)?;
    add_ascii(&mut units, text)?;
    units.extend_from_slice(&STORE_ENDING)?;
    Ok(units)
}

/// The units as bytes, if each is one.
fn bytes_of(units: &[u16; GUID_UNITS]) -> Option<[u8; GUID_UNITS]>
    ensures same { IfSome result (λ bytes. bytes ≡ units.now) }
    ensures none { IfNone result (Any (λ unit. 256 ≤ unit) units.now) }
{
    units.try_map(u8::try_from).ok()
}

/// The units between the prefix and the ending, if they are as many as a GUID's text has.
fn text_between(units: &[u16]) -> Option<&[u16; GUID_UNITS]>
    ensures some { IfSome result (λ text.
        units.now ≡ store_prefix ++ text.now ++ store_ending) }
    ensures none { IfNone result (store_guid units.now ≡ None) }
{
    units
        .strip_prefix(&STORE_PREFIX)?
        .strip_suffix(&STORE_ENDING)?
        .as_array()
}

/// The GUID that a text spells, if it is the text that the GUID is written as.
fn guid_of_text(text: &[u16; GUID_UNITS]) -> Option<[u8; 16]>
    ensures { result ≡ store_guid (store_prefix ++ text.now ++ store_ending) }
{
    let bytes = bytes_of(text)?;
    let uuid = Uuid::try_parse_ascii(&bytes).ok()?;

    // A GUID has more than one spelling, and only this one is its file's name.
    let mut buffer = Uuid::encode_buffer();
    let spelling = uuid.hyphenated().encode_lower(&mut buffer);
    (spelling.as_bytes() == bytes.as_slice()).then_some(uuid.to_bytes_le())
}

/// The GUID of the store file with this name. Takes no memory.
pub(crate) fn guid_of_units(units: &[u16]) -> Option<[u8; 16]>
    ensures { result ≡ store_guid units.now }
{
    guid_of_text(text_between(units)?)
}
