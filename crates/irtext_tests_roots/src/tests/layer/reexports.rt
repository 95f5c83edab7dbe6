//! What `pliron_text` re-exports from the crates below, by its own paths, unless another row names it.
use crate::tests::checks::{Check, alone};
use crate::tests::reading::root;
use crate::tests::value::{held, id_of, is_done, name_of, same, to_text};
use irtext_demo::DemoAttr;
use irtext_graph::graph::Graph;
use irtext_graph::held::HasGraph;
use irtext_graph::object::Object;
use irtext_tests_common::contexts::Ctx;
use pliron_text::base::{
    AttrObj, AttributeDict, BasicBlock, BlockAccess, Few, Identifier, NewBlock, NewOperation, OpId,
    Operation, OperationAccess, Ptr, Region,
};
use pliron_text::dialect::OpInfo;
use pliron_text::format::{FormatFault, OpFormat, check_format};
use pliron_text::ir::{BasicBlockVerifyErr, DefUseVerifyErr, OpObj, OperationText};
use pliron_text::irfmt::outlined::OUTLINED_ATTR_MARKER;
use pliron_text::irfmt::parsers::Class;
use pliron_text::location::{PathKey, Source, SourcePosition, erase_locations};
use pliron_text::parsable::{
    CharStream, IntoParseResult, ParseFault, ParseResult, ParserNameTrackerError, Place,
    TextStream, UnresolvedReference,
};
use pliron_text::result::{Cause, Error, Expected, StringError};
use std::alloc::Global;
use std::process::Abort;

/// The line and the column after the next character that is no white space.
fn passed<S: CharStream>(stream: &mut S) -> SourcePosition {
    stream.skip(Class::WhiteSpace);
    let _ = stream.take();
    let place: Place = stream.position();
    stream.locate(place)
}

/// The result that a parser returns for an error.
fn refused() -> ParseResult<u8, DemoAttr> {
    let error: Error<DemoAttr> = pliron_text::input_error_noloc!(Cause::Unexpected {
        found: None,
        expected: Expected::Digit,
    });
    error.into_parse_result()
}

/// Whether a fault is committed.
fn is_committed(fault: &ParseFault<DemoAttr>) -> bool {
    fault.committed
}

/// Whether a parser returns a committed fault for an error.
fn commits() -> bool {
    let answer = refused();
    let commits = match &answer {
        Ok(_) => false,
        Err(fault) => is_committed(fault),
    };
    drop(answer);
    commits
}

/// The text of the small error of a line.
fn small(rt: &impl Abort, alloc: Global, number: usize) -> String {
    match number {
        0 => to_text(
            rt,
            alloc,
            DefUseVerifyErr::UseNotDominatedByDef(name_of(rt, alloc, "a")),
        ),
        1 => to_text(rt, alloc, UnresolvedReference(name_of(rt, alloc, "b"))),
        2 => to_text(
            rt,
            alloc,
            ParserNameTrackerError::TopLevelOpRegionNotIsolatedFromAbove,
        ),
        3 => to_text(
            rt,
            alloc,
            BasicBlockVerifyErr::NoParent(held(rt, alloc, "c")),
        ),
        _ => to_text(rt, alloc, StringError(held(rt, alloc, "d"))),
    }
}

/// Whether a dictionary keeps what is inserted.
fn keeps(rt: &impl Abort, alloc: Global) -> bool {
    let mut dictionary: AttributeDict<DemoAttr> = AttributeDict::new(alloc);
    let key: Identifier = name_of(rt, alloc, "k");
    let value = AttrObj::Ident(name_of(rt, alloc, "x"));
    let kept = is_done(dictionary.insert(key, value));
    let count = dictionary.len();
    drop(dictionary);
    kept & (count == 1)
}

/// The region of an operation that has one, if it is in it.
fn region<O: Drop, B: Drop, T: Drop>(
    graph: &Graph<O, B, T>,
    op: Ptr<Operation>,
) -> Option<Ptr<Region>> {
    let whole = Object::TheOperation(op);
    if !graph.contains(whole) || graph.num_children(whole) != 1 {
        return None;
    }
    let child = graph.get_child(whole, 0);
    if !graph.contains(child) || graph.get_parent(child) != Some(whole) {
        return None;
    }
    match child {
        Object::TheRegion(region) => Some(region),
        _ => None,
    }
}

/// Whether a module's region is in it, and `get_op_dyn` returns the value of its pointer.
fn alive(ctx: &Ctx, op: Ptr<Operation>) -> bool {
    let value: OpObj = Operation::get_op_dyn(op, ctx);
    match region(ctx.graph(), op) {
        Some(region) => ctx.contains_region(region) & (value == OpObj { op }),
        None => false,
    }
}

/// Whether a module's location is known, and unknown once it is erased.
fn erased(ctx: &mut Ctx, op: Ptr<Operation>) -> bool {
    if !ctx.contains_operation(op) || op.loc(ctx).is_unknown() {
        return false;
    }
    erase_locations(ctx, op);
    ctx.contains_operation(op) && op.loc(ctx).is_unknown()
}

/// The key of a path.
fn key(rt: &impl Abort, ctx: &mut Ctx, path: &str) -> PathKey {
    match Source::new_from_file(ctx, path).expect(rt, "refused") {
        Source::File(key) => key,
        _ => rt.panic("no file"),
    }
}

/// Whether a module and a block that were just made have no location.
fn unlocated(rt: &impl Abort, alloc: Global, ctx: &mut Ctx) -> bool {
    let id = id_of(rt, alloc, ("builtin", "module"));
    let made = <Operation as NewOperation>::new(ctx, id, Few::none(), &[], &[], 1);
    let op = made.expect(rt, "refused");
    let block = BasicBlock::new(ctx, None, Few::none()).expect(rt, "refused");
    assert!(rt; ctx.contains_operation(op));
    assert!(rt; ctx.contains_block(block));
    op.loc(ctx).is_unknown() && block.loc(ctx).is_unknown()
}

/// Whether modules are isolated.
fn isolated(rt: &impl Abort, alloc: Global, ctx: &Ctx) -> bool {
    let id: OpId = id_of(rt, alloc, ("builtin", "module"));
    let info: Option<&OpInfo> = ctx.op_info(&id);
    let isolated = matches!(info, Some(info) if info.isolated);
    drop(id);
    isolated
}

/// Checks that all of this is true of a module.
pub(crate) fn check(rt: &impl Abort, alloc: Global, ctx: &mut Ctx) {
    let op = root(ctx, "builtin.module @m {}").expect(rt, "refused");
    assert!(rt; alive(ctx, op) & isolated(rt, alloc, ctx) & keeps(rt, alloc));
    assert!(rt; key(rt, ctx, "b") == key(rt, ctx, "b"));
    assert!(rt; erased(ctx, op) & unlocated(rt, alloc, ctx));
}

#[test]
fn objects_by_the_paths_of_this_layer(rt: HostRuntime) {
    alone(&rt, rt.alloc(), Check::Objects);
}

/// The texts of the small errors.
const ERRORS: &[&str] = &[
    "Use of a not dominated by definition",
    "Identifier b was not resolved to any definition in the scope",
    "Regions in a top-level operation must be IsolatedFromAbove",
    "Basic block \"c\" has no parent operation",
    "d",
];

/// The column after the next character of a text that is no white space.
fn column(rt: &impl Abort, alloc: Global, text: &str) -> i32 {
    let mut stream = TextStream::new(alloc, text).expect(rt, "out of memory");
    let at = passed(&mut stream);
    drop(stream);
    at.column
}

/// Whether the canonical format is accepted.
fn accepts_canonical() -> bool {
    let format = OpFormat::Canonical;
    let checked: Result<(), FormatFault> = check_format(&format);
    drop(format);
    checked == Ok(())
}

#[test]
fn readings_and_errors_by_the_paths_of_this_layer(rt: HostRuntime) {
    assert_eq!(rt; column(&rt, rt.alloc(), "ab"), 2);
    assert!(rt; commits() & accepts_canonical());
    assert_eq!(rt; OUTLINED_ATTR_MARKER, "!outlined");
    for (number, wanted) in ERRORS.iter().enumerate() {
        same(&rt, small(&rt, rt.alloc(), number), *wanted);
    }
}
