//! Printing a root while an allocation fails: the first printing fails, and a second one prints the text. A state that is passed as
//! `&mut` keeps its layout in both cases.
ghost use Rattle.std.specs.Prelude.{IsSome};
ghost use Rattle.irtext_context.specs.Context.{operation};

use crate::fault::Fault;
use crate::roots::{Ctx, first_root};
use pliron_text::base::{Operation, Ptr};
use pliron_text::location::erase_locations;
use pliron_text::printable::{Disp, Printable, RegionPrintDepthLimit, State};
use std::alloc::Global;
use std::fmt::Write;

/// The limit of the state that is passed as `&mut`.
const LIMIT: RegionPrintDepthLimit = RegionPrintDepthLimit::Max(3);

/// Returns a state with another layout than that of a new one.
fn layout(alloc: Global) -> State<()> {
    State::with_layout(alloc, 4, 1, LIMIT, ())
}

/// Returns this, or the fault if a state does not have that layout.
fn if_laid_out(state: &State<()>, is_printed: bool) -> Result<bool, Fault> {
    let has_layout = state.indent_width() == 4
        && state.current_indent() == 1
        && state.current_region_print_depth_limit() == LIMIT;
    if has_layout {
        Ok(is_printed)
    } else {
        Err(Fault::Wrong)
    }
}

/// Appends the text of a root. Returns whether it could be printed.
pub(crate) fn print(ctx: &Ctx, root: Ptr<Operation>, out: &mut String) -> bool
    requires { IsSome (operation ctx.now root) }
{
    write!(out, "{}", root.disp(ctx)).is_ok()
}

/// Appends the text of a root in that layout. Returns whether it could be printed. The state has to keep the layout.
fn print_lent(
    alloc: Global,
    ctx: &Ctx,
    root: Ptr<Operation>,
    out: &mut String,
) -> Result<bool, Fault>
    requires { IsSome (operation ctx.now root) }
{
    let mut state = layout(alloc);
    let is_printed = root.fmt(ctx, &mut state, out).is_ok();
    let checked = if_laid_out(&state, is_printed);
    drop(state);
    checked
}

/// How a root is printed.
#[derive(Clone, Copy)]
enum Way {
    /// By `disp`.
    Displayed,
    /// By `fmt`, with a state that is passed as `&mut`.
    Lent,
}

/// Appends the text of a root. Returns whether it could be printed.
fn print_by(
    alloc: Global,
    ctx: &Ctx,
    root: Ptr<Operation>,
    way: Way,
    out: &mut String,
) -> Result<bool, Fault>
    requires { IsSome (operation ctx.now root) }
{
    match way {
        Way::Displayed => Ok(print(ctx, root, out)),
        Way::Lent => print_lent(alloc, ctx, root, out),
    }
}

/// Fails if a root was printed twice otherwise than it should be. If the first printing failed, the second has to succeed; otherwise both
/// texts have to be equal.
fn check_printed(is_first: bool, is_second: bool, are_equal: bool) -> Result<(), Fault> {
    match (is_first, is_second) {
        (true, false) => Err(Fault::Memory),
        (true, true) if are_equal => Ok(()),
        (false, true) => Ok(()),
        _ => Err(Fault::Wrong),
    }
}

/// Prints a root twice, into two empty texts, and appends the second.
fn append_twice(
    alloc: Global,
    ctx: &Ctx,
    root: Ptr<Operation>,
    way: Way,
    first: &mut String,
    second: &mut String,
    out: &mut String,
) -> Result<(), Fault>
    requires { IsSome (operation ctx.now root) }
{
    let is_first = print_by(alloc, ctx, root, way, first)?;
    let is_second = print_by(alloc, ctx, root, way, second)?;
    check_printed(is_first, is_second, first.as_str() == second.as_str())?;
    Ok(out.push_str(second.as_str())?)
}

/// Appends the text of a root, which is printed twice.
fn twice(
    alloc: Global,
    ctx: &Ctx,
    root: Ptr<Operation>,
    way: Way,
    out: &mut String,
) -> Result<(), Fault>
    requires { IsSome (operation ctx.now root) }
{
    let mut first = String::new(alloc);
    let mut second = String::new(alloc);
    let done = append_twice(alloc, ctx, root, way, &mut first, &mut second, out);
    drop(first);
    drop(second);
    done
}

/// Which locations are printed.
#[derive(Clone, Copy)]
pub(crate) enum Located {
    /// Those that the root's text gives it.
    AsRead,
    /// None: they are erased first.
    Nowhere,
}

/// Erases the locations of a root, unless they are to be printed or it is not live.
fn prepare(ctx: &mut Ctx, root: Ptr<Operation>, located: Located) {
    if let Located::Nowhere = located {
        if ctx.contains_operation(root) {
            erase_locations(ctx, root);
        }
    }
}

/// Parses the text as a root, with an empty context. Appends its text, which is printed twice by `disp`, and twice with a state that is
/// passed as `&mut`.
pub(crate) fn displayed(
    alloc: Global,
    ctx: &mut Ctx,
    text: &str,
    located: Located,
    out: &mut String,
) -> Result<(), Fault> {
    let root = first_root(ctx, text)?;
    prepare(ctx, root, located);
    if !ctx.contains_operation(root) {
        return Err(Fault::Wrong);
    }
    twice(alloc, ctx, root, Way::Displayed, out)?;
    twice(alloc, ctx, root, Way::Lent, out)
}
