//! Names that are used outside of every region: no scope is open there, so each is an error.
use crate::rows::said::{if_said, push_answer};
use irtext_demo::DemoAttr;
use pliron_text::base::{BasicBlock, Ptr, Value};
use pliron_text::irfmt::parsers::{block_opd_parse, ssa_opd_parse};
use pliron_text::parsable::{ParseResult, TextStream};
use std::alloc::Global;
use std::test::Fail;

/// The fault of a result, or `read`.
fn text_of<X: Drop>(alloc: Global, answer: ParseResult<X, DemoAttr>) -> Result<String, Fail> {
    let mut said = String::new(alloc);
    let done = push_answer(answer, "read", &mut said);
    if_said(done, said)
}

/// The result for a text as the use of a value.
pub(crate) fn value(alloc: Global, text: &str) -> Result<String, Fail> {
    let mut stream = TextStream::new(alloc, text)?;
    let answer: ParseResult<Value, DemoAttr> = ssa_opd_parse(&mut stream);
    drop(stream);
    text_of(alloc, answer)
}

/// The result for a text as the use of a block.
pub(crate) fn label(alloc: Global, text: &str) -> Result<String, Fail> {
    let mut stream = TextStream::new(alloc, text)?;
    let answer: ParseResult<Ptr<BasicBlock>, DemoAttr> = block_opd_parse(&mut stream);
    drop(stream);
    text_of(alloc, answer)
}
