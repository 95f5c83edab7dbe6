//! The parsed entries of a section. An item is an operation or a block that carries a mark.

use indexmap::IndexMap;
use irtext_base::base::AttrObj;
use irtext_base::location::Location;
use irtext_base::seed::Seed;
use irtext_context::base::Item;
use irtext_grammar::parsed::{Key, ReadMark};
use irtext_parse_state::parsable::numbered::Numbered;

/// What an entry gives under a key: an attribute, or a reference to a print-once attribute.
#[derive(Drop)]
pub enum GivenAttr<A> {
    Direct(AttrObj<A>),
    Reference(ReadMark),
}

/// A key, and what the entry gives under it.
pub type ReadPair<A> = (Key, GivenAttr<A>);

/// What an entry gives its item: a location or none, and attributes under keys.
#[derive(Drop)]
pub struct ItemEntry<A> {
    pub item: Item,
    pub location: Option<Location<A>>,
    pub pairs: Vec<ReadPair<A>>,
}

/// An entry with its index: that of an item, or of a print-once attribute.
#[derive(Drop)]
pub enum ReadEntry<A> {
    OfItem(usize, ItemEntry<A>),
    OfOnce(usize, AttrObj<A>),
}

/// The print-once attributes, by their indices.
pub type Once<A> = IndexMap<usize, AttrObj<A>, Seed>;

/// The parsed entries of a section: those of items in the order of the text, the indices of these, and the print-once attributes.
#[derive(Drop)]
pub struct NotedEntries<A> {
    pub items: Vec<ItemEntry<A>>,
    pub seen: Numbered<()>,
    pub once: Once<A>,
}

/// All entries of a section: none; the entry of one item, which is stored without an allocation; or any others.
#[derive(Drop)]
pub enum Entries<A> {
    Nothing,
    Only(ItemEntry<A>),
    All(Box<NotedEntries<A>>),
}
