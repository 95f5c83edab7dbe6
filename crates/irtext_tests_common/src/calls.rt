//! The calls of a random script about names: regions are entered and left, and names of values and labels are used and defined.
use crate::calls::Call::{
    Define, DefineLabel, Enter, EnterIsolated, Exit, ExitIsolated, Use, UseLabel,
};
use irtext_tests_graph::random::Random;

/// The kinds of calls on names.
#[derive(Clone, Copy)]
pub enum Call {
    Enter,
    EnterIsolated,
    Exit,
    ExitIsolated,
    Use,
    Define,
    UseLabel,
    DefineLabel,
}

// the calls, repeated by how often each is to occur
const KINDS: &[Call] = &[
    Enter,
    EnterIsolated,
    EnterIsolated,
    Exit,
    ExitIsolated,
    ExitIsolated,
    Use,
    Use,
    Use,
    Use,
    Define,
    Define,
    UseLabel,
    UseLabel,
    UseLabel,
    DefineLabel,
];

/// The names that a script uses.
pub const NAMES: &[&str] = &[
    "a", "b", "c", "d", "e", "f", "g", "h", "aa", "ab", "ba", "bb", "block", "block_1", "v", "v_1",
];

impl Call {
    /// Whether the call is about a region of an isolated operation.
    pub fn is_isolated(self) -> bool {
        matches!(self, EnterIsolated | ExitIsolated)
    }
}

/// The next call, and the index of its name.
pub fn next_call(random: &mut Random) -> (Call, usize) {
    let name = random.below(NAMES.len());
    match KINDS.get(random.below(KINDS.len())) {
        Some(call) => (*call, name),
        None => (ExitIsolated, name),
    }
}

/// The call on a name that a word denotes, and the name: `x` uses a value and `x=` defines it, `^b` and `^b=` do so with a label.
fn named_call(word: &str) -> (Call, &str) {
    let (is_label, rest) = match word.strip_prefix('^') {
        Some(rest) => (true, rest),
        None => (false, word),
    };
    match (is_label, rest.strip_suffix('=')) {
        (false, None) => (Use, rest),
        (false, Some(name)) => (Define, name),
        (true, None) => (UseLabel, rest),
        (true, Some(name)) => (DefineLabel, name),
    }
}

/// The call that a word denotes, and its name: `[` and `]` enter and leave the region of an isolated operation, `{` and `}` another.
pub fn call_of(word: &str) -> (Call, &str) {
    match word {
        "[" => (EnterIsolated, ""),
        "]" => (ExitIsolated, ""),
        "{" => (Enter, ""),
        "}" => (Exit, ""),
        _ => named_call(word),
    }
}
