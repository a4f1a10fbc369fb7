//! The worked row, bytes by hand, and what the faults say.
use crate::{Back, BackFault, Backpointers};
use std::alloc::Global;
use std::test::Fail;

const FIRST: Back = Back { index: 1, file: 5 };

const SECOND: Back = Back { index: 2, file: 7 };

/// Link 1, which is file 5, and link 2, which is file 7.
const SPELLED: &[u8] = b"\x01\0\0\0\0\0\0\0\x05\0\0\0\0\0\0\0\x02\0\0\0\0\0\0\0\x07\0\0\0\0\0\0\0";

/// Bytes that are no backpointers, their first fault, and its message.
const REFUSED: [(&[u8], BackFault, &str); 4] = [
    (
        b"\x02\0\0\0\0\0\0\0\x05\0\0\0\0\0\0\0\x01",
        BackFault::Length { have: 17 },
        "the backpointers have 17 bytes, which is no multiple of 16",
    ),
    (
        b"\x02\0\0\0\0\0\0\0\x07\0\0\0\0\0\0\0\x01\0\0\0\0\0\0\0\x05\0\0\0\0\0\0\0",
        BackFault::Order { at: 16 },
        "the backpointers' byte 16: an index that isn't above the one before",
    ),
    (
        b"\0\0\0\0\0\0\0\0\x05\0\0\0\0\0\0\0\0\0\0\0\0\0\0\0\x06\0\0\0\0\0\0\0",
        BackFault::Order { at: 16 },
        "the backpointers' byte 16: an index that isn't above the one before",
    ),
    (
        b"\0\0\0\0\0\0\0\0\x05\0\0\0\0\0\0\0\x02\0\0\0\0\0\0\0\x07\0\0\0\0\0\0\0\
        \x02\0\0\0\0\0\0\0\x09\0\0\0\0\0\0\0",
        BackFault::Order { at: 32 },
        "the backpointers' byte 32: an index that isn't above the one before",
    ),
];

fn pair(alloc: Global) -> Result<Backpointers, BackFault> {
    let mut backs = Backpointers::new(alloc);
    backs.add(SECOND)?;
    backs.add(FIRST)?;
    Ok(backs)
}

#[test]
fn backpointers_stand_by_rising_indexes(rt: HostRuntime) -> Result<(), Fail> {
    let mut backs = pair(rt.alloc())?;
    assert_eq!(rt; backs.list(), [FIRST, SECOND].as_slice());
    assert_eq!(rt;
        (backs.has(2, 7), backs.has(2, 9), backs.has(3, 7)),
        (true, false, false)
    );
    assert_eq!(rt; (backs.file_of(1), backs.file_of(3)), (Some(5), None));
    let again = backs.add(Back { index: 2, file: 9 });
    assert_eq!(rt; again, Err(BackFault::Present { index: 2 }));
    assert_eq!(rt;
        format!(in rt.alloc(); "{}", BackFault::Present { index: 2 })?.as_str(),
        "link index 2 is in the list already"
    );
    assert_eq!(rt; (backs.drop_index(1), backs.drop_index(1)), (true, false));
    assert_eq!(rt; (backs.len(), backs.list()), (1, [SECOND].as_slice()));
    assert_eq!(rt; backs.copy(rt.alloc())?.list(), [SECOND].as_slice());
    Ok(())
}

#[test]
fn bytes_by_hand_are_read_and_written(rt: HostRuntime) -> Result<(), Fail> {
    let backs = Backpointers::read(rt.alloc(), SPELLED)?;
    assert_eq!(rt; backs.list(), [FIRST, SECOND].as_slice());
    let mut out = Vec::new(rt.alloc());
    pair(rt.alloc())?.write(&mut out)?;
    assert_eq!(rt; out.as_slice(), SPELLED);
    assert_eq!(rt; Backpointers::read(rt.alloc(), &[])?.len(), 0);
    Ok(())
}

#[test]
fn the_first_fault_is_told(rt: HostRuntime) -> Result<(), Fail> {
    for (bytes, fault, message) in REFUSED {
        let found = Backpointers::read(rt.alloc(), bytes).err();
        assert_eq!(rt; found, Some(fault), "{message}");
        assert_eq!(rt; format!(in rt.alloc(); "{fault}")?.as_str(), message);
    }
    assert_eq!(rt;
        format!(in rt.alloc(); "{}", BackFault::Memory)?.as_str(),
        "out of memory"
    );
    Ok(())
}
