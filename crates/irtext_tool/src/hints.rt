//! What may have been meant: where a name is not registered, the registered names that one edit leads to; and where an operation does not
//! fit its format, a key near another one.

use irtext_base::base::OpId;
use irtext_base::result::{Cause, Expected};
use irtext_base::text::{AttrText, IrText};
use irtext_context::base::Context;
use irtext_diagnostics::innermost;
use irtext_formatter::keys::MistakenKey;
use std::alloc::{AllocError, Global};

/// The characters of names.
const LETTERS: &'static str = "abcdefghijklmnopqrstuvwxyz_0123456789ABCDEFGHIJKLMNOPQRSTUVWXYZ";

/// One edit of a word, at the index of one of its characters.
#[derive(Clone, Copy)]
enum Edit {
    /// The character is left out.
    Without,
    /// The character and the next one change places.
    Swapped,
    /// Another character stands in its place.
    Replaced(char),
    /// Another character stands before it.
    Before(char),
}

/// Returns the word after an edit at the index of a character.
fn edited(alloc: Global, word: &str, index: usize, edit: Edit) -> Result<String, AllocError> {
    let mut text = String::new(alloc);
    let mut swapped = None;
    for (at, c) in word.chars().enumerate() {
        if at != index {
            text.push(c)?;
            if let Some(before) = swapped.take() {
                text.push(before)?;
            }
            continue;
        }
        match edit {
            Edit::Without => {}
            Edit::Swapped => swapped = Some(c),
            Edit::Replaced(other) => text.push(other)?,
            Edit::Before(other) => {
                text.push(other)?;
                text.push(c)?;
            }
        }
    }
    if let Some(before) = swapped {
        text.push(before)?;
    }
    if let (Edit::Before(other), true) = (edit, index >= word.chars().count()) {
        text.push(other)?;
    }
    Ok(text)
}

/// Where a name is looked up.
#[derive_where(Clone, Copy)]
enum Names<'c, T, A> {
    /// Among the dialects of the context.
    Dialects(&'c Context<T, A>),
    /// Among the operations of this dialect.
    Operations(&'c Context<T, A>, &'c str),
}

impl<T: IrText<A>, A: AttrText<A>> Names<'_, T, A> {
    /// Whether the name is registered.
    fn has(&self, name: &str) -> bool {
        match self {
            Names::Dialects(ctx) => ctx.dialect_named(name).is_some(),
            Names::Operations(ctx, dialect) => match ctx.dialect_named(dialect) {
                Some((_, found)) => found.op_named(dialect, name).is_some(),
                None => false,
            },
        }
    }

    /// Returns the word after this edit, if that is registered.
    fn after(
        &self,
        alloc: Global,
        word: &str,
        index: usize,
        edit: Edit,
    ) -> Result<Option<String>, AllocError> {
        let name = edited(alloc, word, index, edit)?;
        Ok(if self.has(name.as_str()) {
            Some(name)
        } else {
            None
        })
    }

    /// Returns the word after an edit at this index, if that is registered.
    fn near_at(
        &self,
        alloc: Global,
        word: &str,
        index: usize,
    ) -> Result<Option<String>, AllocError> {
        for edit in [Edit::Without, Edit::Swapped] {
            if let Some(name) = self.after(alloc, word, index, edit)? {
                return Ok(Some(name));
            }
        }
        for letter in LETTERS.chars() {
            for edit in [Edit::Replaced(letter), Edit::Before(letter)] {
                if let Some(name) = self.after(alloc, word, index, edit)? {
                    return Ok(Some(name));
                }
            }
        }
        Ok(None)
    }

    /// Returns a registered name that one edit of the word leads to.
    fn near(&self, alloc: Global, word: &str) -> Result<Option<String>, AllocError> {
        for index in 0..=word.len() {
            if let Some(name) = self.near_at(alloc, word, index)? {
                return Ok(Some(name));
            }
        }
        Ok(None)
    }
}

/// Returns what may have been meant by the id of an operation whose dialect does not have it.
fn hint_of_operation<T: IrText<A>, A: AttrText<A>>(
    ctx: &Context<T, A>,
    id: &OpId,
) -> Result<Option<String>, AllocError> {
    let alloc = ctx.allocator();
    let dialect = id.dialect.as_str();
    match Names::Operations(ctx, dialect).near(alloc, id.name.as_str())? {
        Some(name) => Ok(Some(format!(in alloc; "did you mean `{dialect}.{name}`?")?)),
        None => Ok(None),
    }
}

/// Returns what may have been meant by the name of a dialect that is not registered.
fn hint_of_dialect<T: IrText<A>, A: AttrText<A>>(
    ctx: &Context<T, A>,
    word: &str,
) -> Result<Option<String>, AllocError> {
    let alloc = ctx.allocator();
    match Names::Dialects(ctx).near(alloc, word)? {
        Some(name) => Ok(Some(format!(in alloc; "did you mean the dialect `{name}`?")?)),
        None => Ok(None),
    }
}

/// Returns a sentence that helps with a cause, if there is one: a registered name that one edit leads to, or that a text begins with a
/// byte order mark.
pub fn hint_for<T: IrText<A>, A: AttrText<A>>(
    ctx: &Context<T, A>,
    cause: &Cause<A>,
) -> Result<Option<String>, AllocError> {
    match innermost(cause) {
        Cause::UnregisteredOp(id) => hint_of_operation(ctx, id),
        Cause::UnregisteredDialect(name) => hint_of_dialect(ctx, name.as_str()),
        Cause::Unexpected {
            found: Some('\u{feff}'),
            expected: Expected::Operation,
        } => {
            let text = "this is a byte order mark: save the file as UTF-8 without one";
            Ok(Some(String::from_str(ctx.allocator(), text)?))
        }
        _ => Ok(None),
    }
}

/// Returns a sentence on the key of an attribute that was perhaps meant to be another one.
pub fn hint_for_key(alloc: Global, mistaken: &MistakenKey) -> Result<String, AllocError> {
    let (written, meant) = (&mistaken.written, &mistaken.meant);
    format!(in alloc; "the operation has an attribute `{written}`: did you mean `{meant}`?")
}
