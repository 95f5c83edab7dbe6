//! The laws of printing and parsing, as functions that make the two calls: a root is printed, and its text is parsed in another
//! context; or a root is printed before and after a text is parsed beside it.

pub use crate::calls::{
    NotAgain, NotBack, printed_and_read, printed_before_and_after, read_printed_and_read,
    there_and_back,
};
