//! The text of a location, part by part: what follows after an inner location waits on a stack until that one is printed. So one loop
//! prints them all, however deep they are nested.
ghost use Rattle.std.specs.Prelude.{◌≡◌, ◌++◌, IfOk, OnOk, OnErr, Some, cond, [], ◌∷◌, string_bytes};
ghost use Rattle.irtext_base.specs.Appending.{OnlyAppends};
ghost use Rattle.irtext_grammar.specs.Spelling.Spell.{comma};
ghost use Rattle.irtext_print.specs.declared.location.parts.Part.TheVariants.{Whole};
ghost use Rattle.irtext_print.specs.Printers.LocationParts.{WritesPart};

use crate::location::print::{fmt_metadata, fmt_place};
use irtext_base::location::Location;
use irtext_base::text::{AttrText, IrText};
use irtext_context::base::Context;
use irtext_memory::{OutOfMemory, string, vec};
use irtext_tokens::printable::fmt_quoted;
use std::alloc::AllocError;

/// What is still to be printed of a location's text.
pub(super) enum Part<'l, A> {
    /// A location.
    Whole(&'l Location<A>),
    /// The rest of a row of locations, and its bracket.
    Row {
        left: &'l [Location<A>],
        first: bool,
    },
    /// The caller, after its callee was printed.
    Caller(&'l Location<A>),
    /// A closing parenthesis.
    Closing,
}

impl<A> Copy for Part<'_, A> {}

impl<A> Clone for Part<'_, A> {
    ghost is_clone = { λ this copy. copy ≡ this };

    fn clone(&self) -> Result<Self, AllocError> {
        Ok(*self)
    }
}

/// Appends `, `, except before the first item.
fn fmt_comma(first: bool, f: &mut String) -> Result<(), OutOfMemory>
    ensures text { OnOk result (string_bytes f.new ≡ string_bytes f.old ++ cond first [] comma) }
    ensures appended { OnErr result (OnlyAppends f.old f.new) }
{
    if !first {
        string::push_str(f, ", ")?;
    }
    Ok(())
}

/// Puts a part on the stack until this location, which comes next, is printed.
fn inside<'l, A>(
    location: &'l Location<A>,
    following: Part<'l, A>,
    waiting: &mut Vec<Part<'l, A>>,
) -> Result<Option<Part<'l, A>>, OutOfMemory>
    ensures next { IfOk result (λ next. next ≡ Some (Whole location.entry)) }
    ensures waiting { OnOk result (waiting.new.items ≡ waiting.old.items ++ following.entry ∷ []) }
{
    match vec::push(waiting, following) {
        Ok(()) => Ok(Some(Part::Whole(location))),
        Err(refused) => Err(refused.into()),
    }
}

/// Appends a location up to its first inner location, and returns what comes next.
fn fmt_whole<'l, T: IrText<A>, A: AttrText<A>>(
    location: &'l Location<A>,
    ctx: &Context<T, A>,
    waiting: &mut Vec<Part<'l, A>>,
    f: &mut String,
) -> Result<Option<Part<'l, A>>, OutOfMemory>
    ensures text { IfOk result (WritesPart A.written ctx.now.paths (Whole location.entry) waiting.old f.old
        waiting.new f.new) }
    ensures appended { OnlyAppends f.old f.new }
{
    match location {
        Location::SrcPos { src, pos } => {
            fmt_place(*src, pos, ctx, f)?;
            Ok(waiting.pop())
        }
        Location::Fused {
            metadata,
            locations,
        } => {
            string::push_str(f, "fused")?;
            fmt_metadata(metadata, f)?;
            string::push_str(f, "[")?;
            Ok(Some(Part::Row {
                left: locations,
                first: true,
            }))
        }
        Location::Named { name, child_loc } => {
            string::push_str(f, "name: ")?;
            fmt_quoted(name.as_str(), f)?;
            string::push_str(f, ", loc: (")?;
            inside(child_loc, Part::Closing, waiting)
        }
        Location::CallSite { callee, caller } => {
            string::push_str(f, "callsite(")?;
            inside(callee, Part::Caller(caller), waiting)
        }
        Location::Unknown => {
            string::push_str(f, "?")?;
            Ok(waiting.pop())
        }
    }
}

/// Appends a part up to its first inner location, which is then the next part, and puts what follows after that on the stack. If there
/// is no inner location, the next part is popped from the stack. Fails only if out of memory.
pub(super) fn fmt_part<'l, T: IrText<A>, A: AttrText<A>>(
    part: Part<'l, A>,
    ctx: &Context<T, A>,
    waiting: &mut Vec<Part<'l, A>>,
    f: &mut String,
) -> Result<Option<Part<'l, A>>, OutOfMemory>
    ensures text { IfOk result (WritesPart A.written ctx.now.paths part.entry waiting.old f.old
        waiting.new f.new) }
    ensures appended { OnlyAppends f.old f.new }
{
    match part {
        Part::Whole(location) => fmt_whole(location, ctx, waiting, f),
        Part::Row { left, first } => {
            let Some((location, others)) = left.split_first() else {
                string::push_str(f, "]")?;
                return Ok(waiting.pop());
            };
            fmt_comma(first, f)?;
            let following = Part::Row {
                left: others,
                first: false,
            };
            inside(location, following, waiting)
        }
        Part::Caller(caller) => {
            string::push_str(f, " at ")?;
            inside(caller, Part::Closing, waiting)
        }
        Part::Closing => {
            string::push_str(f, ")")?;
            Ok(waiting.pop())
        }
    }
}
