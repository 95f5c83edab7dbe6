//! Plain values, lists, separators, quoted texts and stored printers as texts, and the printing state's guards.
use crate::tests::checks::{Check, in_demo};
use crate::tests::must::same;
use irtext_context::base::Context;
use irtext_demo::{DemoAttr, DemoType};
use irtext_print_ir::irfmt::printers::{
    enclosed, iter_with_sep, iter_with_sep_by, list_with_sep, printable_from_fn, quoted,
};
use irtext_print_ir::printable::{
    Disp, ListSeparator, Printable, RegionPrintDepthLimit, State, fmt_iter, fmt_quoted, indented_nl,
};
use irtext_tests_common::contexts::Ctx;
use std::alloc::Global;
use std::fmt;
use std::process::Abort;

/// The printed texts, one line after the other, with one context.
const LINES: &[&str] = &[
    "-1 a\"b",
    "<\"a\">",
    "|",
    "\n  |\n",
    ";\n  |;\n",
    ",|,",
    "→ |→ ",
    "1, 2, 3",
    "1;\n  2;\n  3",
    "",
    "x4",
    "\n  108\n  ",
    "\n",
    "text: <\"a\">",
    "\n  108\n",
    "1,2",
    "012",
    "1+ 2",
];

/// Appends a number.
fn fmt_number(
    number: &u64,
    _ctx: &Context<DemoType, DemoAttr>,
    _state: &mut State<()>,
    f: &mut String,
) -> fmt::Result {
    write!(f, "{number}")?;
    Ok(())
}

/// The numbers with a separator between each two, under one indent.
fn listed(
    rt: &impl Abort,
    alloc: Global,
    ctx: &Ctx,
    numbers: &[u64],
    separator: ListSeparator,
) -> String {
    let list = iter_with_sep_by(numbers.iter(), separator, fmt_number);
    let mut state = State::new(alloc, ());
    let mut text = String::new(alloc);
    let guard = state.indent().expect(rt, "too deep");
    list.fmt(ctx, guard.state, &mut text).expect(rt, "refused");
    text
}

/// A separator under one indent, a bar, and the separator under none.
fn shown(rt: &impl Abort, alloc: Global, ctx: &Ctx, separator: ListSeparator) -> String {
    let mut state = State::new(alloc, ());
    let guard = state.indent().expect(rt, "too deep");
    let text = format!(in alloc;
        "{}|{}",
        separator.print(ctx, guard.state),
        separator.disp(ctx)
    );
    text.expect(rt, "out of memory")
}

/// Plain values.
fn plain(rt: &impl Abort, alloc: Global, ctx: &Ctx) -> String {
    let text = format!(in alloc; "{} {}", (-1i8).disp(ctx), (&"a\"b").disp(ctx));
    text.expect(rt, "out of memory")
}

/// A text between two others.
fn between(rt: &impl Abort, alloc: Global, ctx: &Ctx) -> String {
    let inside = enclosed("<", ">", quoted("a"));
    format!(in alloc; "{}", inside.disp(ctx)).expect(rt, "out of memory")
}

/// The printed text of a stored closure, and the width of the indentation that it leaves in the state.
fn stored(rt: &impl Abort, alloc: Global, ctx: &Ctx) -> String {
    let printer = printable_from_fn(|_ctx: &Context<DemoType, DemoAttr>, state: &mut State<
        (),
    >, f: &mut String| -> fmt::Result {
        state.set_indent_width(4);
        f.push_str("x")?;
        Ok(())
    });
    let mut state = State::new(alloc, ());
    let mut text = String::new(alloc);
    printer
        .fmt(ctx, &mut state, &mut text)
        .expect(rt, "refused");
    write!(text, "{}", state.indent_width()).expect(rt, "out of memory");
    text
}

/// A text between two others, appended to an earlier text.
fn appended(rt: &impl Abort, alloc: Global, ctx: &Ctx) -> String {
    let inside = enclosed("<", ">", quoted("a"));
    let mut text = String::from_str(alloc, "text: ").expect(rt, "out of memory");
    inside.disp(ctx).append_to(&mut text).expect(rt, "refused");
    text
}

/// A newline under one indent, made before the state has no room for another.
fn newline(rt: &impl Abort, alloc: Global, ctx: &Ctx) -> String {
    let mut state = State::new(alloc, ());
    let guard = state.indent().expect(rt, "too deep");
    let newline = indented_nl(guard.state);
    guard.state.set_indent_width(65535);
    assert!(rt; matches!(guard.state.indent(), Err(fmt::Error)));
    format!(in alloc; "{newline}108{}", newline.disp(ctx)).expect(rt, "out of memory")
}

/// A newline after a guard.
fn after_guard(rt: &impl Abort, alloc: Global) -> String {
    let mut state = State::new(alloc, ());
    assert!(rt; state.indent().is_ok());
    format!(in alloc; "{}", indented_nl(&state)).expect(rt, "out of memory")
}

/// A newline under one indent and a number, and a newline once the guard, through which the width was changed, is dropped.
fn widened(rt: &impl Abort, alloc: Global) -> String {
    let mut state = State::new(alloc, ());
    let mut text = String::new(alloc);
    {
        let guard = state.indent().expect(rt, "too deep");
        write!(text, "{}108", indented_nl(guard.state)).expect(rt, "out of memory");
        guard.state.set_indent_width(8);
    }
    write!(text, "{}", indented_nl(&state)).expect(rt, "out of memory");
    text
}

/// The items of a slice.
const NUMBERS: &[u64] = &[1, 2];

/// The items of a slice, which print themselves.
fn of_slice(rt: &impl Abort, alloc: Global, ctx: &Ctx) -> String {
    let list = list_with_sep(NUMBERS, ListSeparator::Char(','));
    format!(in alloc; "{}", list.disp(ctx)).expect(rt, "out of memory")
}

/// The items of an iterator.
fn of_iterator(rt: &impl Abort, alloc: Global, ctx: &Ctx) -> String {
    let list = iter_with_sep(0u64..3, ListSeparator::None);
    format!(in alloc; "{}", list.disp(ctx)).expect(rt, "out of memory")
}

/// Items that are appended to a text.
fn written(rt: &impl Abort, alloc: Global, ctx: &Ctx) -> String {
    let mut state = State::new(alloc, ());
    let mut text = String::new(alloc);
    fmt_iter(
        1u64..3,
        ctx,
        &mut state,
        ListSeparator::CharSpace('+'),
        &mut text,
    )
    .expect(rt, "refused");
    text
}

/// The printed text for a line.
fn line(rt: &impl Abort, alloc: Global, ctx: &Ctx, number: usize) -> String {
    match number {
        0 => plain(rt, alloc, ctx),
        1 => between(rt, alloc, ctx),
        2 => shown(rt, alloc, ctx, ListSeparator::None),
        3 => shown(rt, alloc, ctx, ListSeparator::Newline),
        4 => shown(rt, alloc, ctx, ListSeparator::CharNewline(';')),
        5 => shown(rt, alloc, ctx, ListSeparator::Char(',')),
        6 => shown(rt, alloc, ctx, ListSeparator::CharSpace('→')),
        7 => listed(rt, alloc, ctx, &[1, 2, 3], ListSeparator::CharSpace(',')),
        8 => listed(rt, alloc, ctx, &[1, 2, 3], ListSeparator::CharNewline(';')),
        9 => listed(rt, alloc, ctx, &[], ListSeparator::CharSpace(',')),
        10 => stored(rt, alloc, ctx),
        11 => newline(rt, alloc, ctx),
        12 => after_guard(rt, alloc),
        13 => appended(rt, alloc, ctx),
        14 => widened(rt, alloc),
        15 => of_slice(rt, alloc, ctx),
        16 => of_iterator(rt, alloc, ctx),
        _ => written(rt, alloc, ctx),
    }
}

/// Checks the text of each line.
pub(crate) fn check(rt: &impl Abort, alloc: Global, ctx: &Ctx) {
    for (number, wanted) in LINES.iter().enumerate() {
        same(rt, line(rt, alloc, ctx, number).as_str(), *wanted);
    }
}

#[test]
fn values_and_lists_print_themselves(rt: HostRuntime) {
    in_demo(&rt, rt.alloc(), Check::Values);
}

#[test]
fn quoted_texts_escape_controls(rt: HostRuntime) {
    let mut text = String::new(rt.alloc());
    fmt_quoted("a\"b\\c\nd\te\u{7f}\0\r\u{1f}'é\u{1f600}\u{80}", &mut text).expect(&rt, "refused");
    same(
        &rt,
        text.as_str(),
        "\"a\\\"b\\\\c\\nd\\te\\u{7f}\\0\\r\\u{1f}'é\u{1f600}\u{80}\"",
    );
}

#[test]
fn a_guard_gives_back_the_limit_of_its_entry(rt: HostRuntime) {
    let mut state = State::new(rt.alloc(), ());
    assert_eq!(rt;
        state.current_region_print_depth_limit(),
        RegionPrintDepthLimit::default()
    );
    state.set_region_print_depth_limit(RegionPrintDepthLimit::Max(1));
    {
        let guard = state.enter_region().expect(&rt, "elided");
        guard
            .state
            .set_region_print_depth_limit(RegionPrintDepthLimit::Max(9));
    }
    assert_eq!(rt;
        state.current_region_print_depth_limit(),
        RegionPrintDepthLimit::Max(1)
    );
}
