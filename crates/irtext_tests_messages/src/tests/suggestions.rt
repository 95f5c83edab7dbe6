//! Names that wrong ones were perhaps meant to be.
use irtext_diagnostics::closest;
use std::process::Abort;

/// The names that there are. `make` and `mask` are as near to `mak`.
const NAMES: &[&str] = &["constant", "use", "make", "mask", "return", "b"];

/// Words, and the name that each was perhaps meant to be.
const WORDS: &[(&str, Option<&str>)] = &[
    ("constant", Some("constant")),
    ("cosntant", Some("constant")),
    ("contsnta", None),
    ("us", Some("use")),
    ("mske", Some("make")),
    ("mak", Some("make")),
    ("mas", Some("mask")),
    ("retrun", Some("return")),
    ("x", Some("b")),
    ("漢字", None),
    ("frobnicate", None),
];

#[test]
fn near_names_are_found(rt: HostRuntime) {
    for row in WORDS {
        let found = closest(rt.alloc(), row.0, NAMES).expect(&rt, "out of memory");
        match (found, row.1) {
            (Some(found), Some(name)) => assert_eq!(rt; found, name),
            (None, None) => (),
            _ => rt.panic("a name too many, or none"),
        }
    }
    let none = closest(rt.alloc(), "use", &[]).expect(&rt, "out of memory");
    assert!(rt; none.is_none());
}

/// A word of 64 characters, and one of 65.
const LONG: &[&str] = &[
    "0123456789abcdef0123456789abcdef0123456789abcdef0123456789abcdef",
    "0123456789abcdef0123456789abcdef0123456789abcdef0123456789abcdef_",
];

#[test]
fn long_words_are_near_nothing(rt: HostRuntime) {
    let found = closest(rt.alloc(), LONG[0], LONG).expect(&rt, "out of memory");
    assert!(rt; found.is_some());
    let found = closest(rt.alloc(), LONG[1], LONG).expect(&rt, "out of memory");
    assert!(rt; found.is_none());
}
