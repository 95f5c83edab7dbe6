//! Why the program fails, its text and its exit status.
ghost use Rattle.std.specs.Prelude.{◌≡◌, option_copied};
ghost use Rattle.irtext.specs.Faults.{fault_text, fault_status};

use thiserror::Error;

const USAGE: &str = "usage: irtext fmt|dbg";

const UNREADABLE: &str = "cannot read standard input";

const NOT_UTF8: &str = "input is not UTF-8";

const MEMORY: &str = "Out of memory";

/// Why the program fails.
#[derive(Debug, Drop, Error)]
pub enum Fault {
    /// The arguments are not the one word `fmt` or `dbg`.
    #[error("{USAGE}")]
    Usage,
    /// Reading the input failed.
    #[error("{UNREADABLE}")]
    Unreadable,
    /// The input is not UTF-8.
    #[error("{NOT_UTF8}")]
    NotUtf8,
    /// Out of memory.
    #[error("{MEMORY}")]
    Memory,
    /// The input does not begin with the text of a root, or there was no memory to parse it: the error's text.
    #[error("{0}")]
    Rejected(String),
    /// The root was not printed: the error's text.
    #[error("{0}")]
    Unprinted(String),
    /// Writing the output failed.
    #[error("cannot write")]
    Unwritable,
}

impl Fault {
    /// Returns the text for the error output: none if the output could not be written. What `Display` shows has no contract.
    pub fn text(&self) -> Option<&str>
        ensures { option_copied result ≡ fault_text self.now }
    {
        match self {
            Fault::Usage => Some(USAGE),
            Fault::Unreadable => Some(UNREADABLE),
            Fault::NotUtf8 => Some(NOT_UTF8),
            Fault::Memory => Some(MEMORY),
            Fault::Rejected(text) | Fault::Unprinted(text) => Some(text.as_str()),
            Fault::Unwritable => None,
        }
    }

    /// Returns the exit status: 2 for `Usage`, otherwise 1.
    pub fn status(&self) -> u8
        ensures { result ≡ fault_status self.now }
    {
        match self {
            Fault::Usage => 2,
            _ => 1,
        }
    }
}
