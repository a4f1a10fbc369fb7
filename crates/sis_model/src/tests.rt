//! That each call can succeed.
use crate::{
    AskedCopy, Bytes, Command, Entry, Hindrance, History, NameList, Reply, UnsettledFile,
    UnsettledList,
};
use sis_name::Name;
use std::alloc::AllocError;
use std::test::Fail;

/// Three bytes.
const CONTENT: [u8; 3] = [0, 1, 255];

#[test]
fn a_history_has_the_entries_that_were_added(rt: HostRuntime) -> Result<(), Fail> {
    let bytes = Bytes::from_vec(CONTENT.to_vec(rt.alloc())?);
    let copy = bytes.copy(rt.alloc())?;
    assert_eq!(rt; bytes.as_slice(), CONTENT.as_slice());
    assert_eq!(rt; copy.as_slice(), CONTENT.as_slice());

    let mut history = History::new(rt.alloc());
    history.reserve(1)?;
    assert!(rt; history.spare() >= 1);
    history.push(Entry {
        client: 1,
        command: Command::Put {
            name: Name::from_text(rt.alloc(), "a")?,
            bytes: copy,
        },
        reply: Reply::Done,
        decided: 0,
        answered: 2,
    });
    assert_eq!(rt; history.len(), 1);
    assert_eq!(rt; history.as_slice().len(), 1);
    assert!(rt; matches!(history.as_slice()[0].reply, Reply::Done));
    history.answer(0, 7);
    assert_eq!(rt; history.len(), 1);
    assert_eq!(rt; history.as_slice()[0].answered, 7);
    Ok(())
}

/// The request to copy `C:\a` to `C:\b`, with flags 2: its lengths and flags, and the two names.
const REQUEST: [u8; 32] = [
    10, 0, 0, 0, 10, 0, 0, 0, 2, 0, 0, 0, 0x43, 0, 0x3a, 0, 0x5c, 0, 0x61, 0, 0, 0, 0x43, 0, 0x3a,
    0, 0x5c, 0, 0x62, 0, 0, 0,
];

#[test]
fn a_request_asks_for_a_copy_on_its_own_volume(rt: HostRuntime) -> Result<(), Fail> {
    match AskedCopy::read(rt.alloc(), b'C', &REQUEST) {
        Ok(asked) => {
            assert_eq!(rt; asked.source.units(), [0x61].as_slice());
            assert_eq!(rt; asked.destination.units(), [0x62].as_slice());
            assert_eq!(rt; asked.flags, 2);
        }
        Err(_) => assert!(rt; false),
    }

    let elsewhere = AskedCopy::read(rt.alloc(), b'D', &REQUEST);
    assert!(rt; matches!(elsewhere, Err(Reply::NotSameDevice)));
    let short = AskedCopy::read(rt.alloc(), b'C', &REQUEST[..31]);
    assert!(rt; matches!(short, Err(Reply::InvalidRequest { .. })));
    Ok(())
}

#[test]
fn lists_have_what_was_added(rt: HostRuntime) -> Result<(), Fail> {
    let mut names = NameList::new(rt.alloc());
    names.push(Name::from_text(rt.alloc(), "a")?)?;
    names.push(Name::from_text(rt.alloc(), "b")?)?;
    assert_eq!(rt; names.as_slice().len(), 2);

    let mut files = UnsettledList::new(rt.alloc());
    files.push(UnsettledFile {
        name: Name::from_text(rt.alloc(), "a")?,
        left: 3,
        cause: Hindrance::Disk,
    })?;
    assert_eq!(rt; files.as_slice()[0].left, 3);
    Ok(())
}

#[test]
fn a_copy_of_a_reply_is_equal(rt: HostRuntime) -> Result<(), Fail> {
    let read = Reply::Read {
        bytes: Bytes::from_vec(CONTENT.to_vec(rt.alloc())?),
    };
    match read.copy(rt.alloc())? {
        Reply::Read { bytes } => assert_eq!(rt; bytes.as_slice(), CONTENT.as_slice()),
        _ => panic!(rt; "the copy is of another kind"),
    }

    let mut unsettled = UnsettledList::new(rt.alloc());
    unsettled.push(UnsettledFile {
        name: Name::from_text(rt.alloc(), "a")?,
        left: 3,
        cause: Hindrance::Down { at: 7 },
    })?;
    let ended = Reply::Ended {
        closed: 2,
        unsettled,
    };
    match ended.copy(rt.alloc())? {
        Reply::Ended { closed, unsettled } => {
            assert_eq!(rt; closed, 2);
            assert_eq!(rt; unsettled.as_slice()[0].cause, Hindrance::Down { at: 7 });
        }
        _ => panic!(rt; "the copy is of another kind"),
    }
    Ok(())
}

#[test]
fn want_of_memory_hinders(rt: HostRuntime) {
    assert_eq!(rt; Hindrance::from(AllocError), Hindrance::Memory);
}
