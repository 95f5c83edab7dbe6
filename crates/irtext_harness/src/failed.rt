//! What says that a stream has failed. Results are dropped by a call, here and in other modules: what ends of itself is proved part by part.
use crate::roots::Stream;
use irtext_demo::DemoAttr;
use pliron_text::base::Operation;
use pliron_text::ir::OperationText;
use pliron_text::parsable::{ParseFault, ParseResult};
use pliron_text::result::Cause;

/// Whether a fault says that the stream has failed.
fn is_failure(fault: &ParseFault<DemoAttr>) -> bool {
    fault.committed && matches!(&fault.cause, Cause::StreamFailed)
}

/// Whether a result says that the stream has failed.
pub(crate) fn has_failed<X: Drop>(answer: ParseResult<X, DemoAttr>) -> bool {
    let failed = match &answer {
        Ok(_) => false,
        Err(fault) => is_failure(fault),
    };
    drop(answer);
    failed
}

/// Whether something was parsed.
pub(crate) fn is_parsed<X: Drop>(answer: ParseResult<X, DemoAttr>) -> bool {
    let parsed = answer.is_ok();
    drop(answer);
    parsed
}

/// Whether the next root of a stream is refused because the stream has failed.
pub(crate) fn refuses_another(s: &mut Stream<'_>) -> bool {
    has_failed(Operation::top_level_parse(s))
}
