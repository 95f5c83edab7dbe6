//! Drafts of blocks.
ghost use Rattle.std.specs.Prelude.{◌≡◌, ◌≤◌, ◌∷◌, ℕ, [], Some, false, IsSome, IsTrue, IfOk, IfErr, OnOk, OnErr};
ghost use Rattle.irtext_base.specs.Faults.{fault_of, name_refused};
ghost use Rattle.irtext_base.specs.Format.{given_names_key};
ghost use Rattle.irtext_base.specs.Text.{is_identifier};
ghost use Rattle.irtext_base.specs.declared.location.Location.{Unknown};
ghost use Rattle.irtext_builder.specs.Drafts.{outlined, bare_outline, outlined_key, Gives, names_refused, texts, MakesOutline, AppendsOutline, RefusesKey, RefusesOutlineIn};
ghost use Rattle.irtext_context.specs.Context.{block, region as region_at, KeepsOlder};
ghost use Rattle.irtext_context.specs.Dictionary.{is_reserved_for};
ghost use Rattle.irtext_context.specs.Made.{SameObjects};
ghost use Rattle.irtext_graph.specs.Graph.{IsNew};
ghost use Rattle.irtext_graph.specs.declared.object.Object.TheVariants.{TheRegion};

use crate::attributes::{insert, insert_names};
use crate::unfit;
use irtext_base::base::{AttrObj, Identifier};
use irtext_base::location::Location;
use irtext_base::result::{Cause, ErrorKind, Result as Answer};
use irtext_base::text::{AttrText, IrText};
use irtext_context::base::context::making::Making;
use irtext_context::base::{AttributeDict, BasicBlock, Context, Ptr, Region};
use irtext_context::dialect::invalid;
use irtext_few::Few;
use irtext_graph::held::HasGraph;
use irtext_graph_queries::edits::ObjectEdits;
use std::alloc::Global;

/// A block that is to be made: what was said of it since `new`. What is not said is empty, and the location is `Unknown`.
#[derive(Drop)]
pub struct BlockDraft<T, A> {
    label: Option<Identifier>,
    arg_types: Few<T>,
    attributes: AttributeDict<A>,
    loc: Location<A>,
    alloc: Global,
}

impl<T: IrText<A>, A: AttrText<A>> BlockDraft<T, A> {
    /// Begins a draft of a block for this context, without a label, arguments and attributes.
    pub fn new(ctx: &Context<T, A>) -> BlockDraft<T, A>
        ensures { outlined result ≡ bare_outline }
    {
        let alloc = ctx.allocator();
        BlockDraft {
            label: None,
            arg_types: Few::none(),
            attributes: AttributeDict::with_seed(alloc, ctx.seed()),
            loc: Location::Unknown,
            alloc,
        }
    }

    /// The block has this label. Fails with `Unexpected` if it is no identifier, and with `Memory` when out of memory. The error is of kind
    /// invalid argument and has no location.
    pub fn label(mut self, label: &str) -> Answer<BlockDraft<T, A>, A>
        ensures said { IfOk result (λ d. outlined d ≡ record (outlined self) { label = Some label.now }) }
        ensures fits { OnOk result (IsTrue (is_identifier label.now)) }
        ensures refused { IfErr result (λ e. fault_of e.err ≡ name_refused label.now) }
        ensures kind { IfErr result (λ e. (e.kind ≡ ErrorKind.InvalidArgument) × (e.loc ≡ Unknown)) }
    {
        let label = Identifier::try_new(self.alloc, label)?;
        self.label = Some(label);
        Ok(self)
    }

    /// The block has arguments of these types.
    pub fn arguments(mut self, types: Few<T>) -> BlockDraft<T, A>
        ensures { outlined result ≡ record (outlined self) { types = types } }
    {
        self.arg_types = types;
        self
    }

    /// The block is at this location.
    pub fn at(mut self, loc: Location<A>) -> BlockDraft<T, A>
        ensures { outlined result ≡ record (outlined self) { loc = loc } }
    {
        self.loc = loc;
        self
    }

    /// The block has this attribute under the key with this text, in place of one that was given under it before. Fails with
    /// `Unexpected` if the text is no identifier, else with `ReservedKey` if the key is `builtin_given_names` and the attribute is not
    /// `GivenNames`, and with `Memory` when out of memory. The error is of kind invalid argument and has no location.
    pub fn attribute(mut self, key: &str, attr: AttrObj<A>) -> Answer<BlockDraft<T, A>, A>
        ensures said { IfOk result (λ d. outlined d ≡ outlined_key key.now attr (outlined self)) }
        ensures fits { OnOk result (IsTrue (is_identifier key.now)) }
        ensures allowed { OnOk result (is_reserved_for key.now attr ≡ false) }
        ensures refused { IfErr result (λ e. RefusesKey key.now attr e.err) }
        ensures kind { IfErr result (λ e. (e.kind ≡ ErrorKind.InvalidArgument) × (e.loc ≡ Unknown)) }
    {
        insert(self.alloc, &mut self.attributes, key, attr)?;
        Ok(self)
    }

    /// The arguments of the block have these given names, in order. Fails with `Unexpected` if a name is no identifier, for the first that
    /// is none, and with `Memory` when out of memory. The error is of kind invalid argument and has no location.
    pub fn names(mut self, names: &[&str]) -> Answer<BlockDraft<T, A>, A>
        ensures said { IfOk result (λ d. (given : _) × Gives (texts names.now) given
            × (outlined d ≡ outlined_key given_names_key given (outlined self))) }
        ensures refused { IfErr result (λ e. fault_of e.err ≡ names_refused (texts names.now)) }
        ensures kind { IfErr result (λ e. (e.kind ≡ ErrorKind.InvalidArgument) × (e.loc ≡ Unknown)) }
    {
        insert_names(self.alloc, &mut self.attributes, names)?;
        Ok(self)
    }

    /// The only argument of the block has this given name. Fails as `names` does.
    #[tactic(auto, using(crate::proofs::Names::one_refused))]
    pub fn name(mut self, name: &str) -> Answer<BlockDraft<T, A>, A>
        ensures said { IfOk result (λ d. (given : _) × Gives (name.now ∷ []) given
            × (outlined d ≡ outlined_key given_names_key given (outlined self))) }
        ensures refused { IfErr result (λ e. fault_of e.err ≡ name_refused name.now) }
        ensures kind { IfErr result (λ e. (e.kind ≡ ErrorKind.InvalidArgument) × (e.loc ≡ Unknown)) }
    {
        insert_names(self.alloc, &mut self.attributes, &[name])?;
        Ok(self)
    }

    /// Makes the block, without a parent. Fails with `Memory` if an allocation fails or a counter is at its limit. The error is of kind
    /// invalid argument and has no location, and the context is unchanged.
    pub fn build(self, ctx: &mut Context<T, A>) -> Answer<Ptr<BasicBlock>, A>
        ensures made { IfOk result (λ b. MakesOutline (outlined self) ctx.old ctx.new b) }
        ensures live { IfOk result (λ b. IsSome (block ctx.new b)) }
        ensures kept { (mark : ℕ) → mark ≤ ctx.old.graph.made → KeepsOlder mark ctx.old ctx.new }
        ensures err { OnErr result (ctx.new ≡ ctx.old) }
        ensures refused { IfErr result (λ e. e.err ≡ Cause.Memory) }
        ensures kind { IfErr result (λ e. (e.kind ≡ ErrorKind.InvalidArgument) × (e.loc ≡ Unknown)) }
    {
        match ctx.make_block(self.label, self.attributes, self.loc, self.arg_types) {
            Ok(block) => Ok(block),
            Err(_) => Err(invalid(Cause::Memory)),
        }
    }

    /// Makes the block, and then makes it the last of a region. Fails with `Text` if the region is not in the context, and else as `build`
    /// does. The error is of kind invalid argument and has no location, and all objects are unchanged.
    pub fn build_in(
        self,
        ctx: &mut Context<T, A>,
        region: Ptr<Region>,
    ) -> Answer<Ptr<BasicBlock>, A>
        ensures made { IfOk result (λ b. AppendsOutline (outlined self) ctx.old ctx.new region b) }
        ensures live { IfOk result (λ b. IsSome (block ctx.new b)) }
        ensures stood { OnOk result (IsSome (region_at ctx.old region)) }
        ensures kept { (mark : ℕ) → mark ≤ ctx.old.graph.made → IsNew mark ctx.old.graph (TheRegion region)
            → KeepsOlder mark ctx.old ctx.new }
        ensures objects { OnErr result (SameObjects ctx.old ctx.new) }
        ensures refused { IfErr result (λ e. RefusesOutlineIn ctx.old region e.err) }
        ensures kind { IfErr result (λ e. (e.kind ≡ ErrorKind.InvalidArgument) × (e.loc ≡ Unknown)) }
    {
        if !ctx.contains_region(region) {
            return Err(unfit(ctx.allocator(), "the region is not in the context"));
        }
        ctx.graph().keeps_nesting();
        let mark = ctx.made();
        let block = self.build(ctx)?;
        match block.insert_at_back(region, ctx) {
            Ok(()) => Ok(block),
            Err(_) => {
                ctx.roll_back(mark);
                Err(invalid(Cause::Memory))
            }
        }
    }
}
