//! The names that a script has mentioned.
use std::alloc::{AllocError, Global};

/// The names that were mentioned, each by its index in the table of texts, in the order of first mention.
#[derive(Drop)]
pub struct Mentioned {
    names: Vec<usize>,
}

impl Mentioned {
    /// No name is mentioned.
    pub fn new(alloc: Global) -> Mentioned {
        Mentioned {
            names: Vec::new(alloc),
        }
    }

    /// The number of a name, which is its index in the order of first mention. A new name is added.
    pub fn intern(&mut self, text: usize) -> Result<usize, AllocError> {
        for (number, known) in self.names.iter().enumerate() {
            if *known == text {
                return Ok(number);
            }
        }
        let number = self.names.len();
        self.names.push(text)?;
        Ok(number)
    }
}
