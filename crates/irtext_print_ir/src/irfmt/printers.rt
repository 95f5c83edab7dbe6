//! Stored printers: values that print what a closure prints, a quoted text, the items of an iterator, a text between two others, or
//! parts of an operation.
ghost use Rattle.std.specs.Prelude.{◌≡◌};
ghost use Rattle.std.specs.Slice.Iter.{iter_rest};

use crate::printable::ListSeparator;
use crate::printable::state::State;
use irtext_base::text::{AttrText, IrText};
use irtext_context::base::Context;
use std::fmt;

pub mod closures;
pub mod lists;
pub mod op;
pub mod texts;

pub use closures::PrinterFn;
pub use lists::{IterWithSep, IterWithSepBy};
pub use texts::{Enclosed, Quoted};

/// Returns a printer that calls its closure: it appends what the closure appends, and leaves the state that the closure leaves. It
/// fails if the closure does.
pub fn printable_from_fn<
    T: IrText<A>,
    A: AttrText<A>,
    U,
    F: Fn(&Context<T, A>, &mut State<U>, &mut String) -> fmt::Result,
>(print: F) -> PrinterFn<F>
    ensures { result.print ≡ print }
{
    PrinterFn { print }
}

/// Returns a printer that appends the text as [`fmt_quoted`](crate::printable::fmt_quoted) does, between quotation marks: `"s"`. It
/// fails only if out of memory.
pub fn quoted(text: &str) -> Quoted<'_>
    ensures { result.text.now ≡ text.now }
{
    Quoted { text }
}

/// Returns a printer that appends the items of a slice, with a separator between each two: of two items with the separator
/// `CharSpace(',')` that is `a, b`. It fails if a separator or an item does.
pub fn list_with_sep<X>(
    items: &[X],
    separator: ListSeparator,
) -> IterWithSep<std::slice::Iter<'_, X>>
    ensures iter { iter_rest result.iter ≡ items.now }
    ensures separator { result.separator ≡ separator }
{
    IterWithSep {
        iter: items.iter(),
        separator,
    }
}

/// Returns a printer that appends the items of a finite iterator, with a separator between each two. The iterator is cloned at each
/// printing. It fails if the clone, a separator or an item does.
pub fn iter_with_sep<I: Iterator + Clone>(iter: I, separator: ListSeparator) -> IterWithSep<I>
    ensures iter { result.iter ≡ iter }
    ensures separator { result.separator ≡ separator }
{
    IterWithSep { iter, separator }
}

/// Returns a printer that appends what its closure appends for each item of a finite iterator, with a separator between each two. The
/// iterator is cloned at each printing. It fails if the clone, a separator or the closure does.
pub fn iter_with_sep_by<
    T: IrText<A>,
    A: AttrText<A>,
    U,
    I: Iterator + Clone,
    F: Fn(I::Item, &Context<T, A>, &mut State<U>, &mut String) -> fmt::Result,
>(iter: I, separator: ListSeparator, print_item: F) -> IterWithSepBy<I, F>
    ensures iter { result.iter ≡ iter }
    ensures separator { result.separator ≡ separator }
    ensures print_item { result.print_item ≡ print_item }
{
    IterWithSepBy {
        iter,
        separator,
        print_item,
    }
}

/// Returns a printer that appends the left text, the inner value and the right text: with `(` and `)` that is `(x)`. It fails if out of
/// memory, or if the inner value fails.
pub fn enclosed<'a, P>(left: &'a str, right: &'a str, inside: P) -> Enclosed<'a, P>
    ensures left { result.left.now ≡ left.now }
    ensures right { result.right.now ≡ right.now }
    ensures inside { result.inside ≡ inside }
{
    Enclosed {
        left,
        right,
        inside,
    }
}
