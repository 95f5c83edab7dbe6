//! What the parsers of pieces return: names, marks, keys, entries of dictionaries, and the pieces of an operation. Each with its position,
//! for the errors that are found later; names by their numbers.

use irtext_base::base::{AttrObj, Identifier};
use irtext_base::parsable::Place;
use irtext_few::Few;

/// A parsed name: its number among the names of the parse, and its position.
#[derive(Clone, Copy)]
pub struct ReadName {
    pub name: usize,
    pub at: Place,
}

/// A parsed name of a symbol, which is not numbered, and the position of its `@`.
#[derive(Drop)]
pub struct Symbol {
    pub name: Identifier,
    pub at: Place,
}

/// What a name refers to.
#[derive(Clone, Copy)]
pub enum NameKind {
    Value,
    Block,
}

/// A parsed mark: its index, and the position of its `!`.
#[derive(Clone, Copy)]
pub struct ReadMark {
    pub index: usize,
    pub at: Place,
}

/// Where an operation's own parts are parsed.
#[derive(Clone, Copy)]
pub struct Setting {
    /// Whether it is inside of a region. Outside of every region no name may be used.
    pub inside: bool,
    /// Whether a dictionary may have any attribute under a reserved key.
    pub any_key: bool,
}

/// A parsed key, and the position where it begins.
#[derive(Drop)]
pub struct Key {
    pub name: Identifier,
    pub at: Place,
}

/// A parsed entry of a dictionary: a key and its attribute.
pub type ReadEntry<A> = (Key, AttrObj<A>);

/// What one directive of a format parsed, or a list of types of the canonical form.
#[derive(Drop)]
pub enum ReadPiece<T, A> {
    /// A fixed text, of which nothing is stored.
    Word,
    /// The name of the operand at this place.
    Operand(usize, ReadName),
    /// The names of the other operands.
    Operands(Few<ReadName>),
    /// The label of the successor at this place.
    Successor(usize, ReadName),
    /// The labels of the other successors.
    Successors(Few<ReadName>),
    /// The attribute under this key; `None` if the text has the marker of an attribute that is in the section.
    Attr(Identifier, Option<AttrObj<A>>),
    /// The entries of a dictionary.
    Dictionary(Vec<ReadEntry<A>>),
    /// The type of the result at this place.
    ResultType(usize, T),
    /// The symbol's name.
    Header(Symbol),
    /// A list of types.
    Types(Few<T>),
}

/// What the canonical form has before its regions.
#[derive(Drop)]
pub struct CanonicalPieces<T, A> {
    /// The names of the operands.
    pub operands: Few<ReadName>,
    /// The labels of the successors.
    pub successors: Few<ReadName>,
    /// The entries of the dictionary.
    pub entries: Vec<ReadEntry<A>>,
    /// The types of the operands.
    pub inputs: Few<T>,
    /// The types of the results.
    pub results: Few<T>,
}
