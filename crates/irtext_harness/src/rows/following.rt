//! Roots and whole texts that follow each other on one stream.
use crate::fault::written;
use crate::roots::Ctx;
use crate::rows::streams::{Asked, Question, on_stream};
use std::alloc::Global;
use std::fmt::Write;
use std::test::Fail;

impl Question<'_> {
    /// Says the result for what is asked of a text, and then the number of objects, after whole texts also whether a mark is recorded.
    /// Nothing more is said of a second root's text, or of whole texts after an operation.
    pub(crate) fn say(self, alloc: Global, ctx: &mut Ctx, said: &mut String) -> Result<(), Fail> {
        let marks = on_stream(alloc, ctx, self, said)?;
        match self.asked {
            Asked::SecondLocation | Asked::SameMark => written(write!(said, " {}", ctx.num_live())),
            Asked::Whole(_) => written(write!(said, ", {marks}, {}", ctx.num_live())),
            _ => Ok(()),
        }
    }
}
