//! A worked line for each verb and each form of details.
use crate::{PrintFault, print_history};
use sis_disk::MemorySink;
use sis_model::{
    Bytes, Command, Entry, Fate, Field, GrovelReport, Hindrance, History, Kind, LimitKind,
    NameList, Reply, RequestFault, UnsettledFile, UnsettledList,
};
use sis_name::Name;
use std::alloc::{AllocError, Global};
use std::test::Fail;

fn name(alloc: Global, text: &str) -> Result<Name, Fail> {
    Ok(Name::from_text(alloc, text)?)
}

fn bytes(alloc: Global) -> Result<Bytes, AllocError> {
    Ok(Bytes::from_vec(b"\x00\x0a\xff".to_vec(alloc)?))
}

fn names(alloc: Global) -> Result<NameList, Fail> {
    let mut names = NameList::new(alloc);
    for text in ["a", "b c", "caf\u{e9}"] {
        names.push(name(alloc, text)?)?;
    }
    Ok(names)
}

fn unsettled(alloc: Global) -> Result<UnsettledList, Fail> {
    let mut list = UnsettledList::new(alloc);
    for (text, left, cause) in [
        ("a", 5, Hindrance::Memory),
        ("b c", 6, Hindrance::TableFull { needed: 9, cap: 8 }),
    ] {
        list.push(UnsettledFile {
            name: name(alloc, text)?,
            left,
            cause,
        })?;
    }
    Ok(list)
}

const GUID: [u8; 16] = [0, 1, 2, 3, 4, 5, 6, 7, 8, 9, 10, 11, 12, 13, 14, 15];

/// Each command, and a reply of each form.
fn rows(alloc: Global) -> Result<[(Command, Reply); 16], Fail> {
    Ok([
        (
            Command::Put {
                name: name(alloc, "a")?,
                bytes: bytes(alloc)?,
            },
            Reply::Done,
        ),
        (
            Command::Open {
                name: name(alloc, "a")?,
                write: true,
            },
            Reply::Opened { number: 64 },
        ),
        (
            Command::Read {
                number: 2,
                at: 3,
                len: 4,
            },
            Reply::Read {
                bytes: bytes(alloc)?,
            },
        ),
        (
            Command::Write {
                number: 2,
                at: 3,
                bytes: bytes(alloc)?,
            },
            Reply::Hindered {
                by: Hindrance::Full {
                    needed: 12,
                    used: 95,
                    total: 100,
                },
            },
        ),
        (
            Command::Size { number: 2, len: 3 },
            Reply::Hindered {
                by: Hindrance::Limit {
                    kind: LimitKind::Versions,
                },
            },
        ),
        (
            Command::Close { number: 2 },
            Reply::Closed {
                fate: Fate::Unsettled {
                    left: 12,
                    cause: Hindrance::Disk,
                },
            },
        ),
        (
            Command::Remove {
                name: name(alloc, "a")?,
            },
            Reply::InUse,
        ),
        (
            Command::Rename {
                old: name(alloc, "a")?,
                new: name(alloc, "b")?,
            },
            Reply::Unsettled { left: 17 },
        ),
        (
            Command::Stat {
                name: name(alloc, "a")?,
            },
            Reply::Sized {
                size: 68_719_476_736,
            },
        ),
        (
            Command::List { after: None },
            Reply::Names {
                names: names(alloc)?,
                more: true,
            },
        ),
        (
            Command::Tell {
                name: name(alloc, "a")?,
            },
            Reply::Told {
                kind: Kind::Dirty {
                    guid: GUID,
                    left: 3,
                },
            },
        ),
        (
            Command::Space,
            Reply::Space {
                used: 7,
                total: 100,
            },
        ),
        (
            Command::Fsctl {
                code: 0x0009_0100,
                bytes: bytes(alloc)?,
            },
            Reply::InvalidRequest {
                fault: RequestFault::LengthRange {
                    field: Field::Destination,
                    value: 4_294_967_294,
                },
            },
        ),
        (
            Command::Sync,
            Reply::Hindered {
                by: Hindrance::Down { at: 7 },
            },
        ),
        (
            Command::Grovel,
            Reply::Groveled {
                report: GrovelReport {
                    seen: 15,
                    merged: 1,
                    skipped: 2,
                    refused: 4,
                    faulted: 8,
                },
            },
        ),
        (
            Command::End,
            Reply::Ended {
                closed: 2,
                unsettled: unsettled(alloc)?,
            },
        ),
    ])
}

/// What is printed of the first entry, and of all.
const FIRST: &str = "16 put 00000000\n";

const ALL: &str = "16 put 00000000
16 open 00000000 64
16 read 00000000 000aff
16 write C000007F full 12 95 100
16 size C000007F limit versions
16 close 00000000 unsettled 12 disk
16 remove C0000043
16 rename C0000043 unsettled 17
16 stat 00000000 68719476736
16 list 00000000 \"a\" \"b c\" \"caf\u{e9}\" more
16 tell 00000000 dirty 03020100-0504-0706-0809-0a0b0c0d0e0f 3
16 space 00000000 7 100
16 fsctl C000000D request range destination 4294967294
16 sync C0000185 down 7
16 grovel 00000000 15 1 2 4 8
16 end 00000000 2 unsettled \"a\" 5 memory unsettled \"b c\" 6 table 9 8
";

fn history(alloc: Global) -> Result<History, Fail> {
    let mut history = History::new(alloc);
    for (command, reply) in rows(alloc)? {
        history.reserve(1)?;
        history.push(Entry {
            client: 16,
            command,
            reply,
            decided: 3,
            answered: 5,
        });
    }
    Ok(history)
}

#[test]
fn each_entry_has_its_line(rt: HostRuntime) -> Result<(), Fail> {
    let alloc = rt.alloc();
    let history = history(alloc)?;
    let mut sink = MemorySink::new(alloc, Vec::new(alloc), 1000)?;
    print_history(alloc, &history, &mut sink)?;
    assert_eq!(rt; sink.written(), ALL.as_bytes());
    let mut failing = MemorySink::new(alloc, vec![in alloc; 1]?, 1000)?;
    let answer = print_history(alloc, &history, &mut failing);
    assert_eq!(rt; answer, Err(PrintFault::Sink));
    assert_eq!(rt; failing.written(), FIRST.as_bytes());
    Ok(())
}
