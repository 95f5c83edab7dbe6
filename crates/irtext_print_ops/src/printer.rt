//! What prints the parts of operations and blocks from the context that holds them.

use irtext_base::text::{AttrText, IrText};
use irtext_context::base::Context;

/// Prints the parts of what a context holds.
#[derive_where(Clone, Copy)]
pub struct Printer<'c, T: IrText<A>, A: AttrText<A>> {
    /// The context.
    pub ctx: &'c Context<T, A>,
}
