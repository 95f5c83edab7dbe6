//! Which formats are accepted, and by which condition the others are rejected; and the operations of a dialect.
use crate::tests::must::{must, same};
use irtext_base::base::Identifier;
use irtext_base::format::{Directive, FormatFault, OpFormat};
use irtext_base::result::Result as Answer;
use irtext_context::dialect::{Dialect, DialectName};
use irtext_demo::DemoAttr;
use irtext_format_check::format::check_format;
use irtext_tests_common::answers::value_or_cause;
use irtext_tests_common::building::id;
use irtext_tests_common::contexts::named;
use irtext_tests_common::formats::format_of;
use std::alloc::Global;
use std::convert::AsStr;
use std::process::Abort;

const ACCEPTED: &[&str] = &[
    "", "xx", "1,0", "0,O", "ts", "v", "ab", "aR", "n", "hd", "Oa", "ak", "O>", "Od", "Oh", "OS:",
    "S0", "R:",
];

const REFUSED: &[(&str, FormatFault)] = &[
    ("_", FormatFault::LiteralNotPrintable),
    (" ", FormatFault::LiteralNotPrintable),
    ("1 ", FormatFault::LiteralNotPrintable),
    ("1", FormatFault::OperandIndices),
    ("00", FormatFault::OperandIndices),
    ("OO", FormatFault::OperandIndices),
    ("t", FormatFault::SuccessorIndices),
    ("w", FormatFault::ResultTypeIndices),
    ("v:v", FormatFault::ResultTypeIndices),
    ("ba", FormatFault::RegionOrder),
    ("Ra", FormatFault::RegionOrder),
    ("RR", FormatFault::RegionOrder),
    ("kk", FormatFault::AttributeKeys),
    ("g", FormatFault::AttributeKeys),
    ("dd", FormatFault::AttributeKeys),
    ("hn", FormatFault::AttributeKeys),
    ("a0", FormatFault::NameAfterRegion),
    ("aO", FormatFault::NameAfterRegion),
    ("av", FormatFault::NameAfterRegion),
    ("O.", FormatFault::AmbiguousList),
    ("Ok", FormatFault::AmbiguousList),
    ("O0", FormatFault::AmbiguousList),
    ("O,0", FormatFault::AmbiguousList),
    ("S", FormatFault::AmbiguousList),
    ("OS", FormatFault::AmbiguousList),
    ("SO", FormatFault::AmbiguousList),
    ("OSx", FormatFault::AmbiguousList),
    ("R{", FormatFault::AmbiguousList),
];

/// The condition by which the format of these letters is rejected.
fn refused(rt: &impl Abort, alloc: Global, letters: &str) -> Option<FormatFault> {
    check_format(&must(rt, format_of(alloc, letters))).err()
}

#[test]
fn formats_that_read_uniquely_are_accepted(rt: HostRuntime) {
    assert!(rt; check_format(&OpFormat::Canonical).is_ok());
    for letters in ACCEPTED {
        assert!(rt; refused(&rt, rt.alloc(), letters).is_none());
    }
}

/// The name of a dialect.
fn dialect_name(rt: &impl Abort, alloc: Global, text: &str) -> DialectName {
    DialectName::from(must(rt, named(alloc, text)))
}

/// A dialect of this name, without operations.
fn dialect(rt: &impl Abort, alloc: Global, name: &str) -> Dialect {
    Dialect::new(alloc, dialect_name(rt, alloc, name))
}

/// Whether a copy of this name equals it.
fn is_copied(name: &DialectName) -> bool {
    let copy: Answer<DialectName, DemoAttr> = name.try_clone();
    matches!(&copy, Ok(copy) if *copy == *name)
}

/// Whether a name's copy and its identifier equal the text that it was made from.
fn comes_back(rt: &impl Abort, alloc: Global) -> bool {
    let name = dialect_name(rt, alloc, "test");
    let same = is_copied(&name) && name.as_str() == "test";
    same && Identifier::from(name) == must(rt, named(alloc, "test"))
}

/// The name of a dialect as a text, or the error.
fn result_text(rt: &impl Abort, alloc: Global, text: &str) -> String {
    let answer: Answer<DialectName, DemoAttr> = DialectName::try_new(alloc, text);
    must(rt, value_or_cause(alloc, &answer))
}

/// Nothing for a call that succeeded, or the text of its error.
fn nothing_or_error(rt: &impl Abort, alloc: Global, answer: &Answer<(), DemoAttr>) -> String {
    match answer {
        Ok(()) => String::new(alloc),
        Err(error) => format!(in alloc; "{error}").expect(rt, "out of memory"),
    }
}

/// The result of registering an operation under the name `test.z`: an empty text, or the error.
fn registered(
    rt: &impl Abort,
    alloc: Global,
    dialect: &mut Dialect,
    letters: &str,
    isolated: bool,
) -> String {
    let id = must(rt, id(alloc, ("test", "z")));
    let format = must(rt, format_of(alloc, letters));
    let answer: Answer<(), DemoAttr> = dialect.add_op(id, format, isolated);
    nothing_or_error(rt, alloc, &answer)
}

/// Formats that are registered one after the other under one name, whether as isolated, and the result for each.
const REGISTERED: &[(&str, bool, &str)] = &[
    ("0", false, ""),
    ("", true, ""),
    (
        "S",
        false,
        "Compilation error: invalid argument.\nFormat refused by condition C8",
    ),
];

/// Whether the last format that was accepted is kept.
fn keeps(rt: &impl Abort, alloc: Global, dialect: &mut Dialect) -> bool {
    for row in REGISTERED {
        if registered(rt, alloc, dialect, row.0, row.1).as_str() != row.2 {
            return false;
        }
    }
    is_isolated(rt, alloc, dialect)
}

/// Whether `test.z` is isolated.
fn is_isolated(rt: &impl Abort, alloc: Global, dialect: &Dialect) -> bool {
    let id = must(rt, id(alloc, ("test", "z")));
    matches!(dialect.op(&id), Some(info) if info.isolated)
}

/// The same with a dialect of its own.
fn last_is_kept(rt: &impl Abort, alloc: Global) -> bool {
    keeps(rt, alloc, &mut dialect(rt, alloc, "test"))
}

/// Whether a format is only the first operand.
fn is_first_operand(format: &OpFormat) -> bool {
    match format {
        OpFormat::Custom(directives) => matches!(directives.as_slice(), [Directive::Operand(0)]),
        OpFormat::Canonical => false,
    }
}

/// Whether `test.z` is isolated, and has the format of its first operand.
fn is_as_it_was(rt: &impl Abort, alloc: Global, dialect: &Dialect) -> bool {
    let id = must(rt, id(alloc, ("test", "z")));
    match dialect.op(&id) {
        Some(info) => info.isolated && is_first_operand(&info.format),
        None => false,
    }
}

/// The result of registering `test.z` again, with a format that is rejected: the first registration has to stay.
fn refused_after(rt: &impl Abort, alloc: Global, dialect: &mut Dialect, letters: &str) -> String {
    assert!(rt;
        registered(rt, alloc, dialect, "0", true)
            .as_str()
            .is_empty()
    );
    let said = registered(rt, alloc, dialect, letters, false);
    assert!(rt; is_as_it_was(rt, alloc, dialect), "the table has changed");
    said
}

/// The same with a dialect of its own.
fn refused_by_add_op(rt: &impl Abort, alloc: Global, letters: &str) -> String {
    refused_after(rt, alloc, &mut dialect(rt, alloc, "test"), letters)
}

/// The expected text for a format that fails this condition first.
fn refusal(rt: &impl Abort, alloc: Global, fault: FormatFault) -> String {
    format!(in alloc; "Compilation error: invalid argument.\n{fault}").expect(rt, "out of memory")
}

#[test]
fn formats_are_refused_by_the_first_condition_that_they_fail(rt: HostRuntime) {
    for row in REFUSED {
        assert!(rt; refused(&rt, rt.alloc(), row.0) == Some(row.1));
        let said = refused_by_add_op(&rt, rt.alloc(), row.0);
        same(&rt, said.as_str(), refusal(&rt, rt.alloc(), row.1).as_str());
    }
}

/// The result of registering `test.z` with another dialect.
fn of_another(rt: &impl Abort, alloc: Global) -> String {
    registered(rt, alloc, &mut dialect(rt, alloc, "builtin"), "", false)
}

#[test]
fn dialects_and_their_names(rt: HostRuntime) {
    assert!(rt; comes_back(&rt, rt.alloc()));
    same(&rt, result_text(&rt, rt.alloc(), "test").as_str(), "test");
    same(
        &rt,
        result_text(&rt, rt.alloc(), "1a").as_str(),
        "Unexpected `1`, expected identifier",
    );
    assert!(rt; last_is_kept(&rt, rt.alloc()));
    same(
        &rt,
        of_another(&rt, rt.alloc()).as_str(),
        "Compilation error: invalid argument.\nOperation test.z is not of dialect builtin",
    );
}
