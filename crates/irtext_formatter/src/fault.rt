//! Why a text was not formatted.

use crate::input::InputFault;
use crate::misfit::Misfit;
use irtext_base::parsable::ParseFault;
use irtext_base::result;
use std::io;

/// Why the roots of a text were not printed.
#[derive(Drop)]
pub enum Fault<A> {
    /// Out of memory.
    Memory,
    /// A root was rejected: the cause, and its line and column in the text.
    Rejected(ParseFault<A>),
    /// An operation does not fit its format, so it has no text.
    Misfit(Misfit),
    /// An indentation does not fit 16 bits: regions are nested too deep.
    TooDeep,
}

/// Why an input was not formatted to an output.
#[derive(Drop)]
pub enum Failure<A> {
    /// No text was read. Nothing was written.
    Input(InputFault),
    /// The dialects could not be registered. Nothing was written.
    Dialects(result::Error<A>),
    /// The text's roots were not printed. Nothing was written.
    Text(Fault<A>),
    /// Writing failed. A part of the output may have been written.
    Unwritable(io::Error),
}
