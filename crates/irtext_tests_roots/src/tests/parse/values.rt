//! Numbers, booleans, identifiers and texts that are parsed with a context.
use crate::tests::value::{same, value_of};
use irtext_base::base::Identifier;
use irtext_demo::{DemoAttr, DemoType};
use irtext_parse_root::parsable::Parsable;
use irtext_tests_common::answers::told;
use irtext_tests_common::contexts::{Stream, in_context};
use std::alloc::Global;
use std::test::Fail;

/// The quoted text that is parsed with a context.
fn quoted(alloc: Global, s: &mut Stream<'_>) -> Result<String, Fail> {
    told(
        alloc,
        <String as Parsable<DemoType, DemoAttr, ()>>::parse(s, ()),
    )
}

/// Whether the unsigned values in the text are parsed.
fn unsigned(s: &mut Stream<'_>) -> bool {
    usize::parse(s, ()).ok() == Some(1)
        && u64::parse(s, ()).ok() == Some(u64::MAX)
        && u32::parse(s, ()).ok() == Some(3)
        && u16::parse(s, ()).ok() == Some(65535)
        && u8::parse(s, ()).ok() == Some(255)
        && bool::parse(s, ()).ok() == Some(true)
}

/// Whether the signed values in the text are parsed.
fn signed(s: &mut Stream<'_>) -> bool {
    i8::parse(s, ()).ok() == Some(-1)
        && i16::parse(s, ()).ok() == Some(0)
        && i32::parse(s, ()).ok() == Some(-3)
        && i64::parse(s, ()).ok() == Some(i64::MIN)
}

/// The identifier that is parsed after these.
fn values(alloc: Global, s: &mut Stream<'_>) -> Result<String, Fail> {
    if unsigned(s) && signed(s) {
        return told(alloc, Identifier::parse(s, ()));
    }
    Err(Fail::from("another value"))
}

#[test]
fn values_are_read_with_a_context(rt: HostRuntime) {
    let text = "+1+18446744073709551615+3+00065535+255true-1-0-3-9223372036854775808_a1";
    let name = value_of(&rt, in_context(rt.alloc(), text, values), "another value");
    same(&rt, name, "_a1");
    let text = value_of(
        &rt,
        in_context(rt.alloc(), "\"a\"", quoted),
        "out of memory",
    );
    same(&rt, text, "a");
}
