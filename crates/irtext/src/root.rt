//! A root from a text in memory, and its text in a form.
ghost use Rattle.std.specs.Prelude.{◌≡◌, [], IfOk, IfErr, OnOk, IsSome, string_bytes};
ghost use Rattle.irtext_context.specs.Context.{operation};
ghost use Rattle.irtext.specs.Roots.{ReadsRoot, IsNotRead, IsSeen, AppendsIn, PrintsIn, RefusesIn};

use irtext_base::text::{AttrText, IrText};
use irtext_graph::held::HasGraph;
use pliron_text::base::{Context, Operation, Ptr};
use pliron_text::ir::{OperationText, print_concrete, print_root};
use pliron_text::parsable::parse_from_string;
use pliron_text::printable::{Refusal, RegionPrintDepthLimit, State};
use pliron_text::result::Result as Answer;
use std::alloc::Global;

/// How a root is printed.
#[derive(Clone, Copy)]
pub enum Form {
    /// The whole text, with its mark and the section: what `disp` shows.
    Whole,
    /// The concrete text, with its regions elided: what `print_dbg` appends.
    Elided,
}

/// Parses a root from the beginning of a text; what follows it is not looked at. The error is that of `parse_from_string`.
pub fn read_root<T: IrText<A>, A: AttrText<A>>(
    ctx: &mut Context<T, A>,
    text: String,
) -> Answer<Ptr<Operation>, A>
    ensures reads { IfOk result (λ op. ReadsRoot T.IrText.own A.IrText.own (string_bytes text) ctx.old op ctx.new) }
    ensures seen { IfOk result (IsSeen A.written ctx.new) }
    ensures rejected { IfErr result (IsNotRead T.IrText.own A.IrText.own (string_bytes text) ctx.old) }
{
    ctx.graph().keeps_nesting();
    let answer = parse_from_string(|stream| Operation::top_level_parse(stream), ctx, text);
    ctx.graph().keeps_nesting();
    answer
}

/// Appends the text of a root in this form.
fn append_root<T: IrText<A>, A: AttrText<A>>(
    ctx: &Context<T, A>,
    root: Ptr<Operation>,
    form: Form,
    text: &mut String,
) -> Result<(), Refusal>
    requires live { IsSome (operation ctx.now root) }
    requires seen { IsSeen A.written ctx.now root }
    ensures appends { OnOk result (AppendsIn T.IrText.own A.IrText.own A.AttrText.own A.eq ctx.now root form
        (string_bytes text.old) (string_bytes text.new)) }
    ensures refused { IfErr result (RefusesIn T.IrText.own A.IrText.own A.AttrText.own A.eq ctx.now root form) }
{
    let mut state = State::new(ctx.allocator(), ());
    match form {
        Form::Whole => print_root(ctx, root, &mut state, text),
        Form::Elided => {
            state.set_region_print_depth_limit(RegionPrintDepthLimit::Max(0));
            print_concrete(ctx, root, &mut state, text)
        }
    }
}

/// Returns an empty text with room for this many bytes, if there is memory for them. If not, it grows as it is written.
fn with_room(alloc: Global, bytes: usize) -> String
    ensures { string_bytes result ≡ [] }
{
    let mut text = String::new(alloc);
    let _ = text.try_reserve(bytes);
    text
}

/// Returns the text of a root in this form. Room for `room` bytes is made at once, if there is memory for them.
pub fn print_text<T: IrText<A>, A: AttrText<A>>(
    ctx: &Context<T, A>,
    root: Ptr<Operation>,
    form: Form,
    room: usize,
) -> Result<String, Refusal>
    requires live { IsSome (operation ctx.now root) }
    requires seen { IsSeen A.written ctx.now root }
    ensures text { IfOk result (λ text. PrintsIn T.IrText.own A.IrText.own A.AttrText.own A.eq ctx.now root form
        (string_bytes text)) }
    ensures refused { IfErr result (RefusesIn T.IrText.own A.IrText.own A.AttrText.own A.eq ctx.now root form) }
{
    let mut text = with_room(ctx.allocator(), room);
    match append_root(ctx, root, form, &mut text) {
        Ok(()) => Ok(text),
        Err(refusal) => Err(refusal),
    }
}
