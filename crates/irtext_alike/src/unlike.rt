//! How two contexts know an operation otherwise.
ghost use Rattle.std.specs.Prelude.{Some};
ghost use Rattle.irtext_alike.specs.Texts as texts;

use irtext_context::base::{Operation, Ptr};
use std::fmt;
use std::fmt::Display;

/// How another context knows an operation otherwise than a first one does.
#[derive(Clone, Copy, PartialEq, Eq, Debug)]
pub enum Unlike {
    /// Only the first context knows it. Text: `not registered in the other context`.
    Unregistered,
    /// Only the other context knows it. Text: `registered in the other context alone`.
    RegisteredThere,
    /// Both know it, with different formats. Text: `registered with another format`.
    OtherFormat,
    /// Both know it with the same format, and it is isolated from above in only one of them. Text: `isolated from above in one context
    /// alone`.
    OtherIsolation,
}

impl Display for Unlike {
    ghost output = { λ why. Some (texts.unlike_text why) };

    fn fmt<W: fmt::Write>(&self, f: &mut fmt::Formatter<W>) -> fmt::Result {
        match self {
            Unlike::Unregistered => write!(f, "not registered in the other context"),
            Unlike::RegisteredThere => write!(f, "registered in the other context alone"),
            Unlike::OtherFormat => write!(f, "registered with another format"),
            Unlike::OtherIsolation => write!(f, "isolated from above in one context alone"),
        }
    }
}

/// An operation of the first context that the other one knows otherwise. Its text is that of `why` after `An operation is `.
#[derive(Clone, Copy, PartialEq, Eq, Debug)]
pub struct UnlikeOperation {
    /// The operation.
    pub op: Ptr<Operation>,
    /// How the other context knows it otherwise.
    pub why: Unlike,
}

impl Display for UnlikeOperation {
    ghost output = { λ unlike. Some (texts.operation_text unlike) };

    fn fmt<W: fmt::Write>(&self, f: &mut fmt::Formatter<W>) -> fmt::Result {
        write!(f, "An operation is {}", self.why)
    }
}
