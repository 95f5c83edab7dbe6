//! Identifiers, and ids of operations, made of texts.
use crate::tests::must::{must, same, value_told};
use irtext_base::base::{Identifier, OpId};
use irtext_base::result::Result as Answer;
use irtext_tests_common::answers::named;
use std::alloc::Global;
use std::process::Abort;

/// Texts, and the identifier of each, or the error.
const WORDS: &[(&str, &str)] = &[
    ("a_1", "a_1"),
    ("", "Unexpected end of input, expected identifier"),
    ("1a", "Unexpected `1`, expected identifier"),
    ("a-b", "Unexpected `-`, expected identifier"),
];

/// The texts of a dialect and of a name, and the id of these, or the error.
const IDS: &[(&str, &str, &str)] = &[
    ("builtin", "module", "builtin.module"),
    ("1a", "b-", "Unexpected `1`, expected identifier"),
    ("a", "b-", "Unexpected `-`, expected identifier"),
    ("a", "", "Unexpected end of input, expected identifier"),
];

/// The identifier of a text, or the error.
fn word(rt: &impl Abort, alloc: Global, text: &str) -> String {
    let answer: Answer<Identifier, ()> = Identifier::try_new(alloc, text);
    value_told(rt, alloc, answer)
}

/// Whether the copy of an identifier equals it.
fn copied(rt: &impl Abort, alloc: Global) -> bool {
    let name = must(rt, named(alloc, "a_1"));
    let copy = name.clone().expect(rt, "out of memory");
    let same = copy == name;
    drop(copy);
    drop(name);
    same
}

/// The id of two texts, or the error.
fn id(rt: &impl Abort, alloc: Global, dialect: &str, name: &str) -> String {
    let answer: Answer<OpId, ()> = OpId::try_new(alloc, dialect, name);
    value_told(rt, alloc, answer)
}

#[test]
fn identifiers_and_ids_are_made_of_texts(rt: HostRuntime) {
    for row in WORDS {
        same(&rt, word(&rt, rt.alloc(), row.0), row.1);
    }
    assert!(rt; copied(&rt, rt.alloc()));
    for row in IDS {
        same(&rt, id(&rt, rt.alloc(), row.0, row.1), row.2);
    }
}
