//! Places of bytes that are not UTF-8.
use irtext_diagnostics::invalid_utf8;
use std::process::Abort;

/// Bytes that are not UTF-8, the text before the wrong one, its line, its column, and itself.
const INVALID: &[(&[u8], &str, i32, i32, u8)] = &[
    (b"\xff", "", 1, 1, 0xff),
    (b"a\nb\xffc", "a\nb", 2, 2, 0xff),
    (b"\xe6\xbc\xa2\r\n\xe6\xbc", "漢\r\n", 2, 1, 0xe6),
    (b"\xe6\xbc\xa2\xe6\xbc\xa2\xc0\x80", "漢漢", 1, 3, 0xc0),
    (b"\n\n\xed\xa0\x80", "\n\n", 3, 1, 0xed),
];

#[test]
fn wrong_bytes_have_places(rt: HostRuntime) {
    for row in INVALID {
        let Some(found) = invalid_utf8(row.0) else {
            rt.panic("bytes that are not UTF-8 are taken for it");
        };
        assert_eq!(rt; found.valid, row.1);
        assert_eq!(rt; found.position.line, row.2);
        assert_eq!(rt; found.position.column, row.3);
        assert_eq!(rt; found.byte, row.4);
    }
    assert!(rt; invalid_utf8("漢\n".as_bytes()).is_none());
    assert!(rt; invalid_utf8(b"").is_none());
}
