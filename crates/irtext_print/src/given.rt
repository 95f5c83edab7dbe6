//! What the section contains for an operation or a block: its location, if that is known, its label, if it is a block that has one, and
//! its outlined attributes. Marks and entries are made from this alone. An item is an operation or a block that carries a mark.
ghost use Rattle.std.specs.Prelude.{◌≡◌, ◌++◌, [], option_copied};
ghost use Rattle.std.specs.Iterator.{YieldsFirstBy, item_count};
ghost use Rattle.irtext_base.specs.declared.location.Location.TheVariants.{Unknown};
ghost use Rattle.irtext_print.specs.Given as gives;

use crate::ir::print::pieces::is_outlined;
use irtext_base::base::{AttrObj, Identifier};
use irtext_base::location::Location;
use irtext_base::text::{AttrText, IrText};
use irtext_context::base::attributes::Iter;
use irtext_context::base::{AttributeDict, BlockAccess, Context, Item, OperationAccess};
use std::alloc::AllocError;

/// What the section contains for an item.
pub struct Given<'c, A> {
    /// The item's location, which the entry contains if it is known.
    pub location: &'c Location<A>,
    /// The label of a block; `None` for an operation.
    pub label: Option<&'c Identifier>,
    /// All attributes of the item. The entry contains the outlined ones.
    pub attributes: &'c AttributeDict<A>,
}

impl<A> Copy for Given<'_, A> {}

impl<A> Clone for Given<'_, A> {
    ghost is_clone = { λ this copy. copy ≡ this };

    fn clone(&self) -> Result<Self, AllocError> {
        Ok(*self)
    }
}

/// One of the attributes that the section contains for an item.
pub enum GivenAttribute<'c, A> {
    /// A block's label, which the section contains as an identifier.
    Label(&'c Identifier),
    /// An attribute of the item, under its key.
    Outlined(&'c Identifier, &'c AttrObj<A>),
}

impl<A> Copy for GivenAttribute<'_, A> {}

impl<A> Clone for GivenAttribute<'_, A> {
    ghost is_clone = { λ this copy. copy ≡ this };

    fn clone(&self) -> Result<Self, AllocError> {
        Ok(*self)
    }
}

/// The attributes that the section contains for an item: a block's label first, then the outlined ones, in the dictionary's order.
#[derive(Drop)]
pub struct GivenAttributes<'c, A> {
    pub(crate) label: Option<&'c Identifier>,
    pub(crate) entries: Iter<'c, A>,
}

/// Returns the next of these entries whose attribute is outlined.
fn next_outlined<'c, A: AttrText<A>>(entries: &mut Iter<'c, A>) -> Option<GivenAttribute<'c, A>>
    ensures { YieldsFirstBy gives.given_pair (gives.outlined_left A.outlined) entries.old result entries.new }
{
    while let Some((key, attr)) = entries.next() {
        if is_outlined(attr) {
            return Some(GivenAttribute::Outlined(key, attr));
        }
    }
    None
}

impl<'c, A: AttrText<A>> Iterator for GivenAttributes<'c, A> {
    type Item = GivenAttribute<'c, A>;

    ghost next_gives = { YieldsFirstBy gives.given_pair (gives.attributes_left A.outlined) };

    ghost remaining = { item_count (gives.attributes_left A.outlined) };

    fn next(&mut self) -> Option<GivenAttribute<'c, A>> {
        if let Some(label) = self.label.take() {
            return Some(GivenAttribute::Label(label));
        }
        next_outlined(&mut self.entries)
    }
}

/// Whether a location is known.
fn is_located<A>(location: &Location<A>) -> bool
    ensures { result ≡ gives.marks_given location.now [] }
{
    if let Location::Unknown = location {
        return false;
    }
    true
}

impl<'c, A: AttrText<A>> Given<'c, A> {
    /// Returns an iterator over what the section contains for the item besides its location.
    pub fn attributes(&self) -> GivenAttributes<'c, A>
        ensures { gives.attributes_left A.outlined result ≡ gives.attributes_of A.outlined self.now }
    {
        GivenAttributes {
            label: self.label,
            entries: self.attributes.iter(),
        }
    }

    /// Whether the section contains something for the item besides its location.
    pub fn has_attributes(&self) -> bool
        ensures { result ≡ gives.marks_given Unknown (gives.attributes_of A.outlined self.now) }
    {
        let mut attributes = self.attributes();
        attributes.next().is_some()
    }

    /// Whether the item has a mark: the section contains something for it.
    pub fn is_marked(&self) -> bool
        ensures { result ≡ gives.marks_given self.now.location.now (gives.attributes_of A.outlined self.now) }
    {
        is_located(self.location) || self.has_attributes()
    }
}

/// Returns what the section contains for an item; `None` if it was erased. Allocates nothing.
pub fn given_of<'c, T: IrText<A>, A: AttrText<A>>(
    ctx: &'c Context<T, A>,
    item: Item,
) -> Option<Given<'c, A>>
    ensures { gives.Gives T.IrText.own A.IrText.own A.AttrText.own A.eq ctx.now item result }
{
    match item {
        Item::Operation(op) => {
            if !ctx.contains_operation(op) {
                return None;
            }
            Some(Given {
                location: op.loc(ctx),
                label: None,
                attributes: op.attributes(ctx),
            })
        }
        Item::Block(block) => {
            if !ctx.contains_block(block) {
                return None;
            }
            Some(Given {
                location: block.loc(ctx),
                label: block.label(ctx),
                attributes: block.attributes(ctx),
            })
        }
    }
}

/// Whether an item has a mark: the section contains something for it. An erased item has none.
pub fn is_marked<T: IrText<A>, A: AttrText<A>>(ctx: &Context<T, A>, item: Item) -> bool
    ensures { result ≡ gives.is_marked_at T.IrText.own A.IrText.own A.AttrText.own A.eq ctx.now item }
{
    match given_of(ctx, item) {
        Some(given) => given.is_marked(),
        None => false,
    }
}
