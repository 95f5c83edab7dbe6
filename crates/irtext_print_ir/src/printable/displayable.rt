//! A printable value with its context as a `Display`.
ghost use Rattle.std.specs.Prelude.{◌≡◌, ◌++◌, List, ℕ, Some, None, Option, OnOk, OnErr, IfSome, string_bytes};
ghost use Rattle.irtext_print.specs.Printers.Appended.{fresh, text_of};
ghost use Rattle.irtext_print.specs.Printers.Shown.{Shown};

use crate::printable::Printable;
use crate::printable::state::{RegionPrintDepthLimit, State};
use irtext_base::text::{AttrText, IrText};
use irtext_context::base::Context;
use std::alloc::Global;
use std::fmt;

/// A value with its context, as a `Display`. Each formatting begins with a new state of this layout, with nothing gathered. Created by
/// [`Disp::disp`] and [`Disp::print`].
#[derive(Drop)]
pub struct Displayable<'a, X: Printable<(), T, A>, T: IrText<A>, A: AttrText<A>> {
    value: &'a X,
    ctx: &'a Context<T, A>,
    alloc: Global,
    indent_width: u16,
    current_indent: u16,
    limit: RegionPrintDepthLimit,
    ghost printable: { ∥ X.can_print value.now ctx.now ∥₁ },
}

impl<'a, X: Printable<(), T, A>, T: IrText<A>, A: AttrText<A>> Displayable<'a, X, T, A> {
    ghost use Rattle.irtext_print_ir.specs.Printers.Shows.{shown_by, ShownOnce};

    /// Returns nothing: hands out the proof that the value may be printed. The field states only that such a proof exists.
    fn can_be_printed(&self)
        ensures { X.can_print self.now.value.now self.now.ctx.now }
    {}

    /// Appends the text. The contract of `Display` covers no more than a text that the value claims; this call also promises what the
    /// value's printing may do, for example if it calls a closure. Fails if that printing does. What was appended up to the error
    /// remains.
    pub fn append_to(&self, f: &mut String) -> fmt::Result
        ensures prints { OnOk result (ShownOnce X.prints self.now f.old f.new) }
        ensures text { OnOk result (IfSome (shown_by X.gives self.now) (λ text. string_bytes
            f.new ≡ string_bytes f.old ++ text)) }
        ensures refused { OnErr result (ShownOnce X.refuses self.now f.old f.new) }
    {
        let mut state = State::with_layout(
            self.alloc,
            self.indent_width,
            self.current_indent,
            self.limit,
            (),
        );
        self.can_be_printed();
        self.value.fmt(self.ctx, &mut state, f)
    }
}

impl<X: Printable<(), T, A>, T: IrText<A>, A: AttrText<A>> fmt::Display
    for Displayable<'_, X, T, A> {
    ghost output = { λ d. text_of (X.gives d.value.now d.ctx.now (fresh d.indent_width d.current_indent d.limit)) };

    fn fmt<W: fmt::Write>(&self, f: &mut fmt::Formatter<W>) -> fmt::Result {
        let mut text = String::new(self.alloc);
        self.append_to(&mut text)?;
        f.write_str(text.as_str())
    }
}

/// The text of a printable value, as a `Display`.
pub trait Disp<T: IrText<A>, A: AttrText<A>>: Printable<(), T, A> {
    ghost use Rattle.irtext_print_ir.specs.Printers.Shows.{shown_by, Displays};

    /// Returns the value as a `Display` that uses a new printing state at each formatting: two spaces per level, indentation 0, no
    /// limit on the depth of regions.
    fn disp<'a>(&'a self, ctx: &'a Context<T, A>) -> Displayable<'a, Self, T, A>
    where
        Self: Sized,
        requires { Self.can_print self.now ctx.now }
        ensures text { shown_by Self.gives result ≡ text_of (Self.gives self.now ctx.now
            (fresh 2 0 RegionPrintDepthLimit.Unlimited)) }
        ensures shows { Displays result self.now ctx.now (fresh 2 0 RegionPrintDepthLimit.Unlimited) };

    /// Returns the value as a `Display` that uses, at each formatting, a state of the same indent width, indentation and depth limit as
    /// this state, with nothing gathered.
    fn print<'a>(&'a self, ctx: &'a Context<T, A>, state: &State<()>) -> Displayable<'a, Self, T, A>
    where
        Self: Sized,
        requires { Self.can_print self.now ctx.now }
        ensures text { shown_by Self.gives result ≡ text_of
            (Self.gives self.now ctx.now (fresh state.now.width state.now.indent state.now.limit)) }
        ensures shows { Displays result self.now ctx.now (fresh state.now.width state.now.indent
            state.now.limit) };
}

impl<X: Printable<(), T, A>, T: IrText<A>, A: AttrText<A>> Disp<T, A> for X {
    fn disp<'a>(&'a self, ctx: &'a Context<T, A>) -> Displayable<'a, X, T, A> {
        Displayable {
            value: self,
            ctx,
            alloc: ctx.allocator(),
            indent_width: 2,
            current_indent: 0,
            limit: RegionPrintDepthLimit::Unlimited,
        }
    }

    fn print<'a>(&'a self, ctx: &'a Context<T, A>, state: &State<()>) -> Displayable<'a, X, T, A> {
        Displayable {
            value: self,
            ctx,
            alloc: ctx.allocator(),
            indent_width: state.indent_width(),
            current_indent: state.current_indent(),
            limit: state.current_region_print_depth_limit(),
        }
    }
}
