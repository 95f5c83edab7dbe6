//! The program of README.md, as it is there (`tools/pages` compares both), with a test of it.
use irtext_demo::dialects::register_demo;
use irtext_demo::{DemoAttr, DemoType};
use pliron_text::base::{Context, Operation};
use pliron_text::ir::{OperationText, ToText};
use pliron_text::parsable::parse_from_str;
use pliron_text::printable::Disp;
use pliron_text::result::Result as Answer;
use std::io;

fn formatted(ctx: &mut Context<DemoType, DemoAttr>, text: &str) -> Answer<String, DemoAttr> {
    register_demo(ctx)?;
    let root = parse_from_str(|s| Operation::top_level_parse(s), ctx, text)?;
    Ok(root.to_text(ctx)?)
}

fn main(rt: HostRuntime) -> io::Result<()> {
    let mut ctx = Context::new(rt.alloc());
    match formatted(&mut ctx, "builtin.module @m {}") {
        Ok(text) => println!(rt; "{text}"),
        Err(error) => println!(rt; "{}", error.disp(&ctx)),
    }
}

use crate::tests::value::{is_done, same, told};

/// The printed text of an empty module.
const PRINTED: &str =
    "builtin.module @m \n{\n  \n} !0\n\noutlined_attributes:\n!0 = @[<in-memory>: line: 1, column: 1], []\n";

#[test]
fn the_program_of_the_readme_prints_a_text(rt: HostRuntime) {
    let mut ctx = Context::new(rt.alloc());
    let answer = formatted(&mut ctx, "builtin.module @m { }");
    same(&rt, told(&rt, rt.alloc(), answer), PRINTED);
    is_done(main(rt));
}

/// A module with an attribute that its format does not print.
const MISFIT: &str =
    "builtin.module @m { } !0\n\noutlined_attributes:\n!0 = @[?], [note = builtin.string \"x\"]\n";

#[test]
fn the_program_of_the_readme_tells_a_misfit(rt: HostRuntime) {
    let mut ctx = Context::new(rt.alloc());
    let answer = formatted(&mut ctx, MISFIT);
    same(
        &rt,
        told(&rt, rt.alloc(), answer),
        "Compilation error: invalid argument.\nOperation builtin.module does not fit its format: The format does not write the attribute note",
    );
}
