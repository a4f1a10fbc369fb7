//! Each public function once.
use crate::{is_plain_number, plain_number, text_of};
use std::test::Fail;

#[test]
fn a_number_has_one_spelling(rt: HostRuntime) -> Result<(), Fail> {
    let rows = [
        ("0", Some(0)),
        ("10", Some(10)),
        ("18446744073709551615", Some(u64::MAX)),
        ("18446744073709551616", None),
        ("01", None),
        ("+1", None),
        ("", None),
    ];
    for (word, number) in rows {
        assert_eq!(rt; plain_number(word.as_bytes()), number, "{word}");
    }
    assert!(rt; is_plain_number(b"18446744073709551616"));
    assert_eq!(rt; text_of(b"\xc3\xa9"), Some("\u{e9}"));
    assert_eq!(rt; text_of(b"\xc3"), None);
    Ok(())
}
