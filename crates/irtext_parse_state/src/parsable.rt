//! The stream of a text, together with the state of its parse.

pub mod numbered;
pub mod state;
pub mod text;

pub use state::{State, StateStream, StreamLocation};
pub use text::{parse_from_str, parse_from_string, state_stream_from_iterator};
