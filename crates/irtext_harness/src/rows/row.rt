//! What a file of rows consists of.
use pliron_text::base::Identifier;

/// A group of rows: the word that says what is done with their texts, and numbers for it.
#[derive(Drop)]
pub(crate) struct Group {
    pub(crate) word: Identifier,
    pub(crate) numbers: Vec<u64>,
}

impl Group {
    /// The number at an index, or 0 if there are fewer.
    pub(crate) fn number(&self, index: usize) -> u64 {
        match self.numbers.get(index) {
            Some(number) => *number,
            None => 0,
        }
    }
}

/// A row: its line in the file, its texts, and what has to be said of them.
#[derive(Drop)]
pub(crate) struct Row {
    pub(crate) line: i32,
    pub(crate) texts: Vec<String>,
    pub(crate) wanted: String,
}

impl Row {
    /// The text at an index, or the empty text if there are fewer.
    pub(crate) fn text(&self, index: usize) -> &str {
        match self.texts.get(index) {
            Some(text) => text.as_str(),
            None => "",
        }
    }
}

/// A row, and the group that it is in.
#[derive(Clone, Copy)]
pub(crate) struct Given<'r> {
    pub(crate) group: &'r Group,
    pub(crate) row: &'r Row,
}

/// What comes next in a file.
#[derive(Drop)]
pub(crate) enum Item {
    Group(Group),
    Row(Row),
    End,
}
