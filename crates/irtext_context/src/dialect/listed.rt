//! The dialects of a context and the operations of a dialect, by their indices in the order of registration.
ghost use Rattle.std.specs.Prelude.{◌≡◌, IfSome, length, option_copied, option_map, slice_get};
ghost use Rattle.std.specs.Map.{values_of};
ghost use Rattle.irtext_base.specs.Format.{Accepted};
ghost use Rattle.irtext_base.specs.FormatViews.{format_of};
ghost use Rattle.irtext_context.specs.Dialects.{known_of, IsKeyed};

use crate::base::Context;
use crate::dialect::{Dialect, OpInfo};
use irtext_base::base::OpId;
use irtext_base::text::{AttrText, IrText};

impl Dialect {
    /// The number of operations that are registered with the dialect.
    pub fn num_ops(&self) -> usize
        ensures { result ≡ length self.now.entries }
    {
        self.ops.len()
    }

    /// Returns the id of the operation at an index, counted from 0 in the order of registration, and what the dialect records of it, or
    /// `None` if there are no more operations. It allocates nothing.
    pub fn op_by_index(&self, index: usize) -> Option<(&OpId, &OpInfo)>
        ensures found { option_map (λ e. (e.0.now, known_of e.1.now)) result ≡ slice_get self.now.entries index }
        ensures accepted { IfSome result (λ e. Accepted (format_of e.1.now.format)) }
        ensures keyed { IfSome result (λ e. IsKeyed e.1.now) }
    {
        self.ops.get_index(index)
    }
}

impl<T: IrText<A>, A: AttrText<A>> Context<T, A> {
    /// The number of registered dialects.
    pub fn num_dialects(&self) -> usize
        ensures { result ≡ length self.now.dialects }
    {
        self.dialects.len()
    }

    /// Returns the dialect at an index, counted from 0 in the order of registration, or `None` if there are no more dialects. It allocates
    /// nothing.
    pub fn dialect_by_index(&self, index: usize) -> Option<&Dialect>
        ensures { option_copied result ≡ slice_get (values_of self.now.dialects) index }
    {
        match self.dialects.get_index(index) {
            Some((_, dialect)) => Some(dialect),
            None => None,
        }
    }
}
