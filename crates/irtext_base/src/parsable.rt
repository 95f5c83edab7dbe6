//! What parsers are made with: character streams and parse errors.

pub mod fault;
pub mod names;

pub use fault::{ParseFault, ParseResult};
pub use irtext_stream::char_stream::CharStream;
pub use irtext_stream::class::Class;
pub use irtext_stream::position::{Place, SourcePosition};
pub use irtext_stream::stream::TextStream;
pub use names::{ParserNameTrackerError, UnresolvedReference};
