//! What no clause says: values from outside, the messages, and that each call can succeed.
use crate::{Name, NameFault, Status};
use std::cmp::Ordering;
use std::test::Fail;

/// Units that are no name, their first fault, and its message.
const REFUSED: [(&[u16], NameFault, &str); 6] = [
    (&[], NameFault::Empty, "the name is empty"),
    (
        &[0x61; 256],
        NameFault::TooLong { units: 256 },
        "the name has 256 units, and 255 are allowed",
    ),
    (
        &[0x22],
        NameFault::Barred { at: 0 },
        "the name's unit 0: a control character or a quotation mark",
    ),
    (
        &[0xD800, 0x1F],
        NameFault::Barred { at: 1 },
        "the name's unit 1: a control character or a quotation mark",
    ),
    (
        &[0xD800],
        NameFault::Surrogate { at: 0 },
        "the name's unit 0: a surrogate without its partner",
    ),
    (
        &[0xD83D, 0xDE00, 0xDE00],
        NameFault::Surrogate { at: 2 },
        "the name's unit 2: a surrogate without its partner",
    ),
];

/// Names from the least one up.
const RISING: [&str; 5] = ["a", "a\\b", "ab", "\u{1F600}", "\u{E000}"];

/// GUIDs, and the texts of their store files' names.
const STORE_FILES: [([u8; 16], &str); 2] = [
    (
        [0, 0, 0, 0, 0, 0, 0, 0, 0, 0, 0, 0, 0, 0, 0, 1],
        "SIS Common Store\\00000000-0000-0000-0000-000000000001.sis",
    ),
    (
        [0, 1, 2, 3, 4, 5, 6, 7, 8, 9, 10, 11, 12, 13, 14, 15],
        "SIS Common Store\\03020100-0504-0706-0809-0a0b0c0d0e0f.sis",
    ),
];

/// Names that differ from a store file's: by capital letters, the ending, one unit more.
const NO_STORE_FILES: [&str; 3] = [
    "SIS Common Store\\03020100-0504-0706-0809-0A0B0C0D0E0F.sis",
    "SIS Common Store\\03020100-0504-0706-0809-0a0b0c0d0e0f",
    "SIS Common Store\\03020100-0504-0706-0809-0a0b0c0d0e0f.sisx",
];

/// Each status with its number in [MS-ERREF].
const NUMBERS: [(Status, u32); 14] = [
    (Status::Success, 0x0000_0000),
    (Status::InvalidHandle, 0xC000_0008),
    (Status::InvalidParameter, 0xC000_000D),
    (Status::InvalidDeviceRequest, 0xC000_0010),
    (Status::AccessDenied, 0xC000_0022),
    (Status::ObjectTypeMismatch, 0xC000_0024),
    (Status::ObjectNameInvalid, 0xC000_0033),
    (Status::ObjectNameNotFound, 0xC000_0034),
    (Status::ObjectNameCollision, 0xC000_0035),
    (Status::SharingViolation, 0xC000_0043),
    (Status::DiskFull, 0xC000_007F),
    (Status::InsufficientResources, 0xC000_009A),
    (Status::NotSameDevice, 0xC000_00D4),
    (Status::IoDeviceError, 0xC000_0185),
];

#[test]
fn the_first_fault_is_told(rt: HostRuntime) -> Result<(), Fail> {
    for (units, fault, message) in REFUSED {
        assert_eq!(rt;
            Name::from_units(rt.alloc(), units).err(),
            Some(fault),
            "{message}"
        );
        assert_eq!(rt; format!(in rt.alloc(); "{fault}")?.as_str(), message);
    }
    assert_eq!(rt;
        Name::from_text(rt.alloc(), "").err(),
        Some(NameFault::Empty)
    );
    Ok(())
}

#[test]
fn a_name_gives_back_its_units_and_text(rt: HostRuntime) -> Result<(), Fail> {
    let name = Name::from_text(rt.alloc(), "a\\b")?;
    assert_eq!(rt; name.units(), [0x61, 0x5C, 0x62].as_slice());
    assert_eq!(rt; name.copy(rt.alloc())?, name);

    let pair = Name::from_units(rt.alloc(), &[0xD83D, 0xDE00])?;
    assert_eq!(rt; pair.to_text(rt.alloc())?.as_str(), "\u{1F600}");

    let longest = Name::from_units(rt.alloc(), &[0x61; 255])?;
    assert_eq!(rt; longest.units().len(), 255);
    Ok(())
}

#[test]
fn store_files_have_the_names_below_the_common_store(rt: HostRuntime) -> Result<(), Fail> {
    for (text, is_store) in [
        ("SIS Common Store\\x", true),
        ("SIS Common Store", false),
        ("sis common store\\x", false),
    ] {
        assert_eq!(rt;
            Name::from_text(rt.alloc(), text)?.is_store(),
            is_store,
            "{text}"
        );
    }
    Ok(())
}

#[test]
fn a_store_file_is_named_by_its_guid(rt: HostRuntime) -> Result<(), Fail> {
    for (guid, text) in STORE_FILES {
        let name = Name::of_store(rt.alloc(), guid)?;
        assert_eq!(rt; name.to_text(rt.alloc())?.as_str(), text);
        assert_eq!(rt; name.store_guid(), Some(guid), "{text}");
    }
    for text in NO_STORE_FILES {
        assert_eq!(rt;
            Name::from_text(rt.alloc(), text)?.store_guid(),
            None,
            "{text}"
        );
    }
    Ok(())
}

#[test]
fn names_are_in_the_order_of_their_units(rt: HostRuntime) -> Result<(), Fail> {
    for (low, high) in RISING.iter().zip(&RISING[1..]) {
        let low = Name::from_text(rt.alloc(), low)?;
        let high = Name::from_text(rt.alloc(), high)?;
        assert!(rt; low < high, "{low:?} {high:?}");
        assert_eq!(rt; high.cmp(&low), Ordering::Greater);
        assert!(rt; low != high);
    }
    Ok(())
}

#[test]
fn each_status_has_its_number(rt: HostRuntime) {
    for (status, number) in NUMBERS {
        assert_eq!(rt; status.number(), number, "{status:?}");
    }
}
