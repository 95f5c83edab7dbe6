//! The position of the end of a text.

use pliron_text::parsable::{SourcePosition, TextStream};
use std::alloc::{AllocError, Global};
use std::fmt::Write;

const MILLION: usize = 1_000_000;

/// Takes so many characters, or all that come, and requests the position after them so many million times.
fn position_after(stream: &mut TextStream, characters: usize, times: usize) -> SourcePosition {
    for _ in 0..characters {
        let _ = stream.take();
    }
    let mut position = SourcePosition::default();
    for _ in 0..times {
        for _ in 0..MILLION {
            position = stream.locate(stream.position());
        }
    }
    position
}

/// Requests the position of the end of a text so many million times. Appends that position.
pub fn positions(
    alloc: Global,
    text: &str,
    times: usize,
    out: &mut String,
) -> Result<(), AllocError> {
    let mut stream = TextStream::new(alloc, text)?;
    let position = position_after(&mut stream, text.len(), times);
    drop(stream);
    write!(out, "{position}")
}
