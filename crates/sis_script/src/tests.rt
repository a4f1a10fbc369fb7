//! A worked script, a line for each kind of fault, the limits, and the words of all kinds.
use crate::faults::LineFault;
use crate::verbs::{Verb, fields};
use crate::{LineKind, PrintFault, Script, ScriptFault, ScriptLimit, read_script};
use sis_disk::MemorySource;
use sis_model::Command;
use std::alloc::{AllocError, Global};
use std::test::Fail;

fn read(alloc: Global, text: &[u8]) -> Result<Result<Script, ScriptFault>, AllocError> {
    let mut source = MemorySource::new(text.to_vec(alloc)?, 3, Vec::new(alloc));
    Ok(read_script(alloc, &mut source))
}

const SCRIPT: &[u8] = b"# verbs that need no open\r
1 put \"a\" 61fF00\r

@ 1 1
1 stat \"a\"
1 list\r
1 list \"a\"
1 space
1 sync";

#[test]
fn a_script_has_its_lines_and_turns(rt: HostRuntime) -> Result<(), Fail> {
    let alloc = rt.alloc();
    let script = read(alloc, SCRIPT)??;
    assert_eq!(rt; script.schedule.as_slice(), [1, 1].as_slice());
    let [put, stat, all, after, space, sync] = script.lines.as_slice() else {
        return Err(Fail::new("not six lines"));
    };
    let Command::Put { name, bytes } = &put.command else {
        return Err(Fail::new("no put"));
    };
    assert_eq!(rt; name.to_text(alloc)?.as_str(), "a");
    assert_eq!(rt; bytes.as_slice(), b"a\xff\0".as_slice());
    assert!(rt; matches!(stat.command, Command::Stat { .. }));
    assert!(rt; matches!(all.command, Command::List { after: None }));
    assert!(rt; matches!(after.command, Command::List { after: Some(_) }));
    assert!(rt; matches!(space.command, Command::Space));
    assert!(rt; matches!(sync.command, Command::Sync));
    Ok(())
}

const OPENS: &[u8] = b"16 open \"a\" w
2 open \"a\" r
16 write 1 0 -
2 read 1 0 3
16 size 1 18446744073709551615
16 close 1
1 rename \"a\" \"b\"
1 remove \"b\"
@ 2 16";

#[test]
fn several_clients_open_files(rt: HostRuntime) -> Result<(), Fail> {
    let alloc = rt.alloc();
    let script = read(alloc, OPENS)??;
    assert_eq!(rt; script.schedule.as_slice(), [2, 16].as_slice());
    let [write, read, bytes, range, size, close, rename, remove] = script.lines.as_slice() else {
        return Err(Fail::new("not eight lines"));
    };
    assert_eq!(rt; (write.client, read.client), (16, 2));
    assert!(rt; matches!(write.command, Command::Open { write: true, .. }));
    assert!(rt; matches!(read.command, Command::Open { write: false, .. }));
    assert!(rt;
        matches!(
            bytes.command,
            Command::Write {
                number: 1,
                at: 0,
                ..
            }
        )
    );
    assert!(rt;
        matches!(
            range.command,
            Command::Read {
                number: 1,
                at: 0,
                len: 3
            }
        )
    );
    assert!(rt;
        matches!(
            size.command,
            Command::Size {
                number: 1,
                len: u64::MAX
            }
        )
    );
    assert!(rt; matches!(close.command, Command::Close { number: 1 }));
    assert!(rt; matches!(rename.command, Command::Rename { .. }));
    assert!(rt; matches!(remove.command, Command::Remove { .. }));
    Ok(())
}

/// Lines, each with its first wrong field.
const LINES: [(&[u8], LineKind); 8] = [
    (b"1 put \"a\" \xff", LineKind::Encoding),
    (b"17 space", LineKind::Client),
    (b"1 tell a", LineKind::Verb),
    (b"1 put \"\"61", LineKind::Name),
    (b"1 put \"a\" 616", LineKind::Hex),
    (b"1 put \"a\"61", LineKind::Fields),
    (b"16 read 1 18446744073709551616 x", LineKind::Number),
    (b"1 open \"a\" rw", LineKind::Mode),
];

#[test]
fn the_first_wrong_field_is_named(rt: HostRuntime) -> Result<(), Fail> {
    let alloc = rt.alloc();
    for (text, kind) in LINES {
        let fault = read(alloc, text)?.err();
        assert_eq!(rt; fault, Some(ScriptFault::Line { line: 1, kind }), "{kind}");
    }
    // No line may have this verb yet.
    let fault = fields(alloc, Verb::Fsctl, b" 0x090100 -").err();
    assert_eq!(rt; fault, Some(LineFault::Wrong(LineKind::Code)));
    let control = fields(alloc, Verb::Fsctl, b" 80090aBc -");
    assert!(rt;
        matches!(
            control,
            Ok(Command::Fsctl {
                code: 0x80090abc,
                bytes: _
            })
        )
    );
    Ok(())
}

#[test]
fn a_script_keeps_its_limits(rt: HostRuntime) -> Result<(), Fail> {
    let alloc = rt.alloc();
    let lines = ScriptFault::Limit {
        kind: ScriptLimit::Lines,
        count: 4097,
    };
    let long = ScriptFault::Limit {
        kind: ScriptLimit::Bytes,
        count: 16_777_217,
    };
    for (len, fault) in [(4096, None), (4097, Some(lines)), (16_777_217, Some(long))] {
        let bytes = vec![in alloc; b'\n'; len]?;
        let mut source = MemorySource::new(bytes, 4096, Vec::new(alloc));
        assert_eq!(rt;
            read_script(alloc, &mut source).err(),
            fault,
            "{len} empty lines"
        );
    }
    let mut source = MemorySource::new(b"1 list".to_vec(alloc)?, 3, vec![in alloc; 1]?);
    let fault = read_script(alloc, &mut source).err();
    assert_eq!(rt; fault, Some(ScriptFault::Source));
    Ok(())
}

/// Each kind with its word in the program's line.
const KINDS: [(LineKind, &str); 9] = [
    (LineKind::Encoding, "encoding"),
    (LineKind::Client, "client"),
    (LineKind::Verb, "verb"),
    (LineKind::Name, "name"),
    (LineKind::Hex, "hex"),
    (LineKind::Number, "number"),
    (LineKind::Mode, "mode"),
    (LineKind::Code, "code"),
    (LineKind::Fields, "fields"),
];

/// Each fault with its message.
const FAULTS: [(ScriptFault, &str); 5] = [
    (ScriptFault::Source, "the source failed"),
    (
        ScriptFault::Line {
            line: 3,
            kind: LineKind::Hex,
        },
        "line 3 of the script: hex",
    ),
    (
        ScriptFault::Limit {
            kind: ScriptLimit::Bytes,
            count: 16_777_217,
        },
        "the script has 16777217 bytes or more",
    ),
    (
        ScriptFault::Limit {
            kind: ScriptLimit::Lines,
            count: 4097,
        },
        "the script has 4097 lines or more",
    ),
    (ScriptFault::Memory, "out of memory"),
];

#[test]
fn kinds_and_faults_have_their_words(rt: HostRuntime) -> Result<(), Fail> {
    let alloc = rt.alloc();
    for (kind, word) in KINDS {
        assert_eq!(rt; format!(in alloc; "{kind}")?.as_str(), word);
    }
    for (fault, message) in FAULTS {
        assert_eq!(rt; format!(in alloc; "{fault}")?.as_str(), message);
    }
    let (sink, memory) = (PrintFault::Sink, PrintFault::Memory);
    assert_eq!(rt;
        format!(in alloc; "{sink}, {memory}")?.as_str(),
        "the sink failed, out of memory"
    );
    Ok(())
}
