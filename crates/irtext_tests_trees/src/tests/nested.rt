//! Types that hold types, of two authors, and attributes that hold attributes: what is printed of a text, or why it is rejected.
ghost use Rattle.std.specs.Prelude.{refl};

use crate::types::{LlvmHead, LlvmPlace};
use irtext_base::parsable::{ParseFault, TextStream};
use irtext_base::text::{Apart, AttrText, IrText};
use irtext_demo::{DemoAttr, DemoType};
use irtext_tokens::either::Either;
use irtext_tree::{Leaf, Places, Tree};
use std::alloc::Global;
use std::process::Abort;
use std::test::Fail;

/// Says that no word is of both dialects.
pub struct Differ;

impl Apart<DemoType, LlvmHead> for Differ {
    ghost apart = { refl };
}

impl Apart<DemoAttr, LlvmHead> for Differ {
    ghost apart = { refl };
}

/// A type of the demo dialects or of `llvm`, whose types hold those of both.
pub type AnyType = Tree<Places<Leaf, LlvmPlace>, Either<DemoType, LlvmHead, Differ>>;

/// An attribute of the demo dialects, or one that holds attributes.
type AnyAttr = Tree<Places<Leaf, LlvmPlace>, Either<DemoAttr, LlvmHead, Differ>>;

/// Texts of types, and what is printed for them, or the error with its position, and `!` if it is committed.
const TYPES: &[(&str, &str)] = &[
    (
        "llvm.func <llvm.int 8 ,llvm.array<2, test.ptr>>;",
        "llvm.func <llvm.int 8, llvm.array <2, test.ptr >>",
    ),
    (
        "llvm.struct < builtin.integer si32 , llvm.struct < > >",
        "llvm.struct <builtin.integer si32, llvm.struct <>>",
    ),
    (
        "llvm.array <4, nothing.here>",
        "line: 1, column: 16: Unregistered type nothing.here!",
    ),
    (
        "llvm.array <4,\n llvm.ptr; ",
        "line: 2, column: 10: Unexpected `;`, expected `>`!",
    ),
    (
        "llvm.func <test.ptr,",
        "line: 1, column: 21: Unexpected end of input, expected type!",
    ),
    (
        "llvm.func <>",
        "line: 1, column: 12: Unexpected `>`, expected type!",
    ),
    (
        "llvm.struct <llvm.struct <>",
        "line: 1, column: 28: Unexpected end of input, expected `>`!",
    ),
    (
        "<llvm.ptr>",
        "line: 1, column: 1: Unexpected `<`, expected type",
    ),
];

/// Texts of attributes, what is printed for a copy, and whether it is outlined and print-once.
const ATTRIBUTES: &[(&str, &str)] = &[
    (
        "llvm.struct<test.dbg \"a\",llvm.struct<>>",
        "llvm.struct <test.dbg \"a\", llvm.struct <>> false false",
    ),
    (
        "llvm.func <builtin.string \"b\">",
        "llvm.func <builtin.string \"b\"> true true",
    ),
    ("test.dbg \"a\"", "test.dbg \"a\" true true"),
];

/// The text of a fault: its position and its cause, and `!` if it is committed.
fn fault_said(alloc: Global, fault: &ParseFault<()>) -> Result<String, Fail> {
    let mark = if fault.committed { "!" } else { "" };
    Ok(format!(in alloc; "{}: {}{mark}", fault.pos, fault.cause)?)
}

/// What is printed for a type.
fn type_text(alloc: Global, ty: &AnyType) -> Result<String, Fail> {
    let mut text = String::new(alloc);
    <AnyType as IrText<()>>::write_text(ty, &mut text)?;
    Ok(text)
}

/// What is printed for the type that is next in the stream, or the error.
fn type_said(alloc: Global, stream: &mut TextStream) -> Result<String, Fail> {
    match <AnyType as IrText<()>>::read(stream) {
        Ok(ty) => type_text(alloc, &ty),
        Err(fault) => fault_said(alloc, &fault),
    }
}

/// What is printed for an attribute, and whether it is outlined and print-once.
fn attribute_text(alloc: Global, attr: &AnyAttr) -> Result<String, Fail> {
    let mut text = String::new(alloc);
    <AnyAttr as IrText<()>>::write_text(attr, &mut text)?;
    let outlined = <AnyAttr as AttrText<()>>::is_outlined(attr);
    let once = <AnyAttr as AttrText<()>>::is_print_once(attr);
    Ok(format!(in alloc; "{text} {outlined} {once}")?)
}

/// What is said of a copy of the attribute that is next in the stream, or the error.
fn attribute_said(alloc: Global, stream: &mut TextStream) -> Result<String, Fail> {
    match <AnyAttr as IrText<()>>::read(stream) {
        Ok(attr) => {
            let copy = <AnyAttr as AttrText<()>>::try_clone(&attr)?;
            attribute_text(alloc, &copy)
        }
        Err(fault) => fault_said(alloc, &fault),
    }
}

/// What is said of a text as a type, or as an attribute.
fn said(rt: &impl Abort, alloc: Global, text: &str, is_type: bool) -> String {
    let mut stream = TextStream::new(alloc, text).expect(rt, "out of memory");
    let said = if is_type {
        type_said(alloc, &mut stream)
    } else {
        attribute_said(alloc, &mut stream)
    };
    match said {
        Ok(said) => said,
        Err(_) => rt.panic("out of memory"),
    }
}

/// The text of arrays in arrays, this deep, of pointers.
fn nested_text(alloc: Global, depth: usize) -> Result<String, Fail> {
    let mut text = String::new(alloc);
    for _ in 0..depth {
        text.push_str("llvm.array <1, ")?;
    }
    text.push_str("llvm.ptr")?;
    for _ in 0..depth {
        text.push_str(">")?;
    }
    Ok(text)
}

#[test]
fn trees_in_trees(rt: HostRuntime) {
    for row in TYPES {
        assert_eq!(&rt; said(&rt, rt.alloc(), row.0, true).as_str(), row.1);
    }
    for row in ATTRIBUTES {
        assert_eq!(&rt; said(&rt, rt.alloc(), row.0, false).as_str(), row.1);
    }
}

#[test]
fn a_deep_type(rt: HostRuntime) {
    let text = match nested_text(rt.alloc(), 10000) {
        Ok(text) => text,
        Err(_) => rt.panic("out of memory"),
    };
    assert_eq!(&rt;
        said(&rt, rt.alloc(), text.as_str(), true).as_str(),
        text.as_str()
    );
}
