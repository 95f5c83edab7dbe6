//! Access to operations and blocks that need not be known to be in the context.
ghost use Rattle.std.specs.Prelude.{◌≡◌, ◌≤◌, ◌↔◌, ℕ, Some, None, false, IsSome, IsTrue, IfOk, IfErr, IfSome, OnOk, OnErr, length, slice_get, option_map};
ghost use Rattle.irtext_base.specs.declared.location.Location.{Unknown};
ghost use Rattle.irtext_context.specs.Dictionary.{is_reserved_for};
ghost use Rattle.irtext_graph.specs.Parts.{regions};
ghost use Rattle.irtext_graph.specs.Store.{before};
ghost use Rattle.irtext_context.specs.Context.{block, operation, with_attribute, with_block_attribute, EditsBlock, EditsOperation, KeepsOlder};
ghost use Rattle.irtext_context.specs.Named.{id_of_texts};
ghost use Rattle.irtext_checked.specs.Checked.{RefusesAttribute, RefusesRegion};

use crate::unfit;
use irtext_base::base::{AttrObj, Identifier, OpId};
use irtext_base::result;
use irtext_base::result::{Error, ErrorKind};
use irtext_base::text::{AttrText, IrText};
use irtext_context::base::{
    BasicBlock, BlockAccess, Context, Operation, OperationAccess, Ptr, Region,
};
use irtext_graph::graph::Graph;
use irtext_graph::held::HasGraph;
use irtext_graph::object::Object;

/// Reads and changes an operation that need not be known to be in the context: what `OperationAccess` and `get_region` require is tested
/// first.
pub trait TryAccess: Sized {
    ghost use Rattle.irtext_graph.specs.declared.arena.Ptr.{Ptr};
    ghost use Rattle.irtext_graph.specs.declared.object.Operation.{Operation};

    // the pointer
    ghost pointer: { Self → Ptr Operation };

    /// Whether the operation is in the context and has the id with these two texts, as `"test"` and `"nop"`. If so, the calls of
    /// `OperationAccess` can be made. Allocates nothing.
    fn is_op<T: IrText<A>, A: AttrText<A>>(
        self,
        ctx: &Context<T, A>,
        dialect: &str,
        name: &str,
    ) -> bool
        ensures id { IsTrue result ↔ (option_map (λ op. op.id) (operation ctx.now (pointer self)) ≡ Some
            (id_of_texts dialect.now name.now)) }
        ensures live { IsTrue result → IsSome (operation ctx.now (pointer self)) };

    /// Returns the region of the operation at an index, as `get_region` does. Fails with `Text` if the operation has no region with this
    /// index, as if it is not in the context, and with `Memory` if there is no memory for that text. The error is of kind invalid argument
    /// and has no location.
    fn try_get_region<T: IrText<A>, A: AttrText<A>>(
        self,
        ctx: &Context<T, A>,
        index: usize,
    ) -> result::Result<Ptr<Region>, A>
        ensures ok { IfOk result (λ r. slice_get (regions ctx.now.graph (pointer self)) index ≡ Some r) }
        ensures refused { IfErr result (λ e. RefusesRegion ctx.now.graph (pointer self) index e.err) }
        ensures kind { IfErr result (λ e. (e.kind ≡ ErrorKind.InvalidArgument) × (e.loc ≡ Unknown)) };

    /// Sets the attribute under a key of the operation, as `set_attribute` does. Nothing else changes. Fails with `Text` if the operation
    /// is not in the context, else with `ReservedKey` and the key if the key is `builtin_given_names` and the attribute is not
    /// `GivenNames`. Fails with `Memory` if an allocation fails, also that of the text. The error is of kind invalid argument and has no
    /// location, and the context is unchanged.
    fn try_set_attribute<T: IrText<A>, A: AttrText<A>>(
        self,
        ctx: &mut Context<T, A>,
        key: Identifier,
        attr: AttrObj<A>,
    ) -> result::Result<(), A>
        ensures edits { OnOk result (EditsOperation ctx.old ctx.new (pointer self)
            (with_attribute key attr)) }
        ensures live { OnOk result (IsSome (operation ctx.old (pointer self))) }
        ensures allowed { OnOk result (is_reserved_for key attr ≡ false) }
        ensures err { OnErr result (ctx.new ≡ ctx.old) }
        ensures refused { IfErr result (λ e. RefusesAttribute (operation ctx.old (pointer self)) key
            attr e.err) }
        ensures kept { (mark : ℕ) → before mark ctx.old.graph.operations (pointer self) ≡ None
            → KeepsOlder mark ctx.old ctx.new }
        ensures kind { IfErr result (λ e. (e.kind ≡ ErrorKind.InvalidArgument) × (e.loc ≡ Unknown)) };
}

/// Whether the id has these two texts.
fn has_texts(id: &OpId, dialect: &str, name: &str) -> bool
    ensures { IsTrue result ↔ (id.now ≡ id_of_texts dialect.now name.now) }
{
    id.dialect.as_str() == dialect && id.name.as_str() == name
}

/// Returns the region of an operation at an index, if the operation is live and has one there.
fn region_at<O: Drop, B: Drop, T: Drop>(
    graph: &Graph<O, B, T>,
    op: Ptr<Operation>,
    index: usize,
) -> Option<Ptr<Region>>
    ensures found { IfSome result (λ r. slice_get (regions graph.now op) index ≡ Some r) }
    ensures none { result ≡ None → length (regions graph.now op) ≤ index }
{
    let parent = Object::TheOperation(op);
    if !graph.contains(parent) || index >= graph.num_children(parent) {
        return None;
    }
    match graph.get_child(parent, index) {
        Object::TheRegion(child) => Some(child),
        _ => unreachable!(),
    }
}

impl TryAccess for Ptr<Operation> {
    ghost pointer = { λ p. p };

    fn is_op<T: IrText<A>, A: AttrText<A>>(
        self,
        ctx: &Context<T, A>,
        dialect: &str,
        name: &str,
    ) -> bool {
        ctx.contains_operation(self) && has_texts(self.get_opid(ctx), dialect, name)
    }

    fn try_get_region<T: IrText<A>, A: AttrText<A>>(
        self,
        ctx: &Context<T, A>,
        index: usize,
    ) -> result::Result<Ptr<Region>, A> {
        match region_at(ctx.graph(), self, index) {
            Some(region) => Ok(region),
            None => Err(unfit(ctx.allocator(), "the operation has no such region")),
        }
    }

    fn try_set_attribute<T: IrText<A>, A: AttrText<A>>(
        self,
        ctx: &mut Context<T, A>,
        key: Identifier,
        attr: AttrObj<A>,
    ) -> result::Result<(), A> {
        if !ctx.contains_operation(self) {
            return Err(unfit(ctx.allocator(), "the operation is not in the context"));
        }
        match self.set_attribute(ctx, key, attr) {
            Ok(()) => Ok(()),
            Err(refusal) => Err(Error::from(refusal)),
        }
    }
}

/// Changes a block that need not be known to be in the context.
pub trait TryBlockAccess: Sized {
    ghost use Rattle.irtext_graph.specs.declared.arena.Ptr.{Ptr};
    ghost use Rattle.irtext_graph.specs.declared.object.BasicBlock.{BasicBlock};

    // the pointer
    ghost pointer: { Self → Ptr BasicBlock };

    /// Sets the attribute under a key of the block, as `TryAccess::try_set_attribute` does for an operation, with the same errors. On an
    /// error the context is unchanged.
    fn try_set_attribute<T: IrText<A>, A: AttrText<A>>(
        self,
        ctx: &mut Context<T, A>,
        key: Identifier,
        attr: AttrObj<A>,
    ) -> result::Result<(), A>
        ensures edits { OnOk result (EditsBlock ctx.old ctx.new (pointer self) (with_block_attribute
            key attr)) }
        ensures live { OnOk result (IsSome (block ctx.old (pointer self))) }
        ensures allowed { OnOk result (is_reserved_for key attr ≡ false) }
        ensures err { OnErr result (ctx.new ≡ ctx.old) }
        ensures refused { IfErr result (λ e. RefusesAttribute (block ctx.old (pointer self)) key attr e.err) }
        ensures kept { (mark : ℕ) → before mark ctx.old.graph.blocks (pointer self) ≡ None
            → KeepsOlder mark ctx.old ctx.new }
        ensures kind { IfErr result (λ e. (e.kind ≡ ErrorKind.InvalidArgument) × (e.loc ≡ Unknown)) };
}

impl TryBlockAccess for Ptr<BasicBlock> {
    ghost pointer = { λ p. p };

    fn try_set_attribute<T: IrText<A>, A: AttrText<A>>(
        self,
        ctx: &mut Context<T, A>,
        key: Identifier,
        attr: AttrObj<A>,
    ) -> result::Result<(), A> {
        if !ctx.contains_block(self) {
            return Err(unfit(ctx.allocator(), "the block is not in the context"));
        }
        match self.set_attribute(ctx, key, attr) {
            Ok(()) => Ok(()),
            Err(refusal) => Err(Error::from(refusal)),
        }
    }
}
