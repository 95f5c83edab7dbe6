//! A list on a stream with its state.
use crate::tests::must::{must, same};
use irtext_base::parsable::{CharStream, ParseResult};
use irtext_demo::DemoAttr;
use irtext_tests_common::answers::listed;
use irtext_tests_common::contexts::{Stream, in_context};
use irtext_tokens::irfmt::parsers::{int_parse, list_parser};
use std::alloc::Global;
use std::test::Fail;

/// The result for a list on a stream with its state.
fn read(alloc: Global, s: &mut Stream<'_>) -> Result<String, Fail> {
    let answer: ParseResult<Vec<i32>, DemoAttr> = list_parser(s, ',', int_parse);
    listed(alloc, &answer, s.locate(s.position()), s.peek())
}

#[test]
fn a_list_beside_a_state(rt: HostRuntime) {
    let said = must(&rt, in_context(rt.alloc(), "1,2", read));
    same(&rt, said.as_str(), "[1, 2], line: 1, column: 4: None");
}
