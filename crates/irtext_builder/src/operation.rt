//! Drafts of operations.
ghost use Rattle.std.specs.Prelude.{◌≡◌, ◌≤◌, ◌∷◌, ℕ, [], false, IsSome, IsTrue, IfOk, IfErr, OnOk, OnErr};
ghost use Rattle.std.specs.Str.{bytes_eq};
ghost use Rattle.indexmap.specs.IndexMap.{insert_entry};
ghost use Rattle.irtext_base.specs.Faults.{fault_of, id_refused, name_refused};
ghost use Rattle.irtext_base.specs.Format.{given_names_key};
ghost use Rattle.irtext_base.specs.Text.{is_identifier};
ghost use Rattle.irtext_base.specs.declared.base.attributes.AttrObj.TheVariants.{Ident};
ghost use Rattle.irtext_graph.specs.Graph.{IsNew};
ghost use Rattle.irtext_graph.specs.declared.object.Object.TheVariants.{TheBlock};
ghost use Rattle.irtext_base.specs.declared.location.Location.{Unknown};
ghost use Rattle.irtext_checked.specs.Checked.{RefusesRegistered};
ghost use Rattle.irtext_checked.specs.Types.{AreContainedValues};
ghost use Rattle.irtext_context.specs.Context.{operation, block as block_at, KeepsOlder};
ghost use Rattle.irtext_context.specs.Dictionary.{is_reserved_for};
ghost use Rattle.irtext_context.specs.Made.{AreLiveBlocks, AreDefinedValues, MakesRegistered, SameObjects};
ghost use Rattle.irtext_context.specs.Named.{id_of_texts};
ghost use Rattle.irtext_builder.specs.Drafts.{said, bare_draft, with_key, symbol_key, Gives, names_refused, texts, MakesDraft, AppendsDraft, RefusesKey, RefusesDraft, RefusesIn};

use crate::attributes::{insert, insert_names, insert_symbol};
use crate::unfit;
use irtext_base::base::{AttrObj, OpId};
use irtext_base::location::Location;
use irtext_base::result::{Cause, ErrorKind, Result as Answer};
use irtext_base::text::{AttrText, IrText};
use irtext_checked::contains::ContainsParts;
use irtext_checked::make::operation::add_regions;
use irtext_context::base::context::making::Making;
use irtext_context::base::{AttributeDict, BasicBlock, Context, Operation, Ptr, Value};
use irtext_context::dialect::invalid;
use irtext_few::Few;
use irtext_graph_queries::edits::ObjectEdits;
use irtext_memory::NoRoom;
use std::alloc::Global;

/// An operation that is to be made: its id, and what was said of it since `new`. What is not said is empty, and the location is `Unknown`.
#[derive(Drop)]
pub struct OpDraft<'a, T, A> {
    id: OpId,
    result_types: Few<T>,
    operands: &'a [Value],
    successors: &'a [Ptr<BasicBlock>],
    num_regions: usize,
    attributes: AttributeDict<A>,
    loc: Location<A>,
    alloc: Global,
}

impl<'a, T: IrText<A>, A: AttrText<A>> OpDraft<'a, T, A> {
    /// Begins a draft of an operation with the id of these two texts, as `"test"` and `"make"`, for this context. Fails with `Unexpected`
    /// if one of them is no identifier, and with `Memory` when out of memory. The error is of kind invalid argument and has no location.
    pub fn new(ctx: &Context<T, A>, dialect: &str, name: &str) -> Answer<OpDraft<'a, T, A>, A>
        ensures said { IfOk result (λ d. said d ≡ bare_draft (id_of_texts dialect.now name.now)) }
        ensures fits { OnOk result (IsTrue (is_identifier dialect.now) × IsTrue (is_identifier name.now)) }
        ensures refused { IfErr result (λ e. fault_of e.err ≡ id_refused dialect.now name.now) }
        ensures kind { IfErr result (λ e. (e.kind ≡ ErrorKind.InvalidArgument) × (e.loc ≡ Unknown)) }
    {
        let alloc = ctx.allocator();
        let id = OpId::try_new(alloc, dialect, name)?;
        Ok(OpDraft {
            id,
            result_types: Few::none(),
            operands: &[],
            successors: &[],
            num_regions: 0,
            attributes: AttributeDict::with_seed(alloc, ctx.seed()),
            loc: Location::Unknown,
            alloc,
        })
    }

    /// The operation has results of these types.
    pub fn results(mut self, types: Few<T>) -> OpDraft<'a, T, A>
        ensures { said result ≡ record (said self.entry) { types = types } }
    {
        self.result_types = types;
        self
    }

    /// The operation uses these values.
    pub fn operands(mut self, operands: &'a [Value]) -> OpDraft<'a, T, A>
        ensures { said result ≡ record (said self.entry) { operands = operands.now } }
    {
        self.operands = operands;
        self
    }

    /// The operation has these blocks as successors.
    pub fn successors(mut self, successors: &'a [Ptr<BasicBlock>]) -> OpDraft<'a, T, A>
        ensures { said result ≡ record (said self.entry) { successors = successors.now } }
    {
        self.successors = successors;
        self
    }

    /// The operation has this many regions, which are empty at first.
    pub fn regions(mut self, count: usize) -> OpDraft<'a, T, A>
        ensures { said result ≡ record (said self.entry) { regions = count } }
    {
        self.num_regions = count;
        self
    }

    /// The operation is at this location.
    pub fn at(mut self, loc: Location<A>) -> OpDraft<'a, T, A>
        ensures { said result ≡ record (said self.entry) { loc = loc } }
    {
        self.loc = loc;
        self
    }

    /// The operation has this attribute under the key with this text, in place of one that was given under it before. Fails with
    /// `Unexpected` if the text is no identifier, else with `ReservedKey` if the key is `builtin_given_names` and the attribute is not
    /// `GivenNames`, and with `Memory` when out of memory. The error is of kind invalid argument and has no location.
    pub fn attribute(mut self, key: &str, attr: AttrObj<A>) -> Answer<OpDraft<'a, T, A>, A>
        ensures said { IfOk result (λ d. said d ≡ with_key key.now attr (said self.entry)) }
        ensures fits { OnOk result (IsTrue (is_identifier key.now)) }
        ensures allowed { OnOk result (is_reserved_for key.now attr ≡ false) }
        ensures refused { IfErr result (λ e. RefusesKey key.now attr e.err) }
        ensures kind { IfErr result (λ e. (e.kind ≡ ErrorKind.InvalidArgument) × (e.loc ≡ Unknown)) }
    {
        insert(self.alloc, &mut self.attributes, key, attr)?;
        Ok(self)
    }

    /// The results of the operation have these given names, in order. Fails with `Unexpected` if a name is no identifier, for the first that
    /// is none, and with `Memory` when out of memory. The error is of kind invalid argument and has no location.
    pub fn names(mut self, names: &[&str]) -> Answer<OpDraft<'a, T, A>, A>
        ensures said { IfOk result (λ d. (given : _) × Gives (texts names.now) given
            × (said d ≡ with_key given_names_key given (said self.entry))) }
        ensures refused { IfErr result (λ e. fault_of e.err ≡ names_refused (texts names.now)) }
        ensures kind { IfErr result (λ e. (e.kind ≡ ErrorKind.InvalidArgument) × (e.loc ≡ Unknown)) }
    {
        insert_names(self.alloc, &mut self.attributes, names)?;
        Ok(self)
    }

    /// The only result of the operation has this given name. Fails as `names` does.
    #[tactic(auto, using(crate::proofs::Names::one_refused))]
    pub fn name(mut self, name: &str) -> Answer<OpDraft<'a, T, A>, A>
        ensures said { IfOk result (λ d. (given : _) × Gives (name.now ∷ []) given
            × (said d ≡ with_key given_names_key given (said self.entry))) }
        ensures refused { IfErr result (λ e. fault_of e.err ≡ name_refused name.now) }
        ensures kind { IfErr result (λ e. (e.kind ≡ ErrorKind.InvalidArgument) × (e.loc ≡ Unknown)) }
    {
        insert_names(self.alloc, &mut self.attributes, &[name])?;
        Ok(self)
    }

    /// The operation has this name as its symbol, as `@main`. Fails with `Unexpected` if it is no identifier, and with `Memory` when out of
    /// memory. The error is of kind invalid argument and has no location.
    pub fn symbol(mut self, name: &str) -> Answer<OpDraft<'a, T, A>, A>
        ensures said { IfOk result (λ d. said d ≡ with_key symbol_key (Ident name.now) (said self.entry)) }
        ensures refused { IfErr result (λ e. fault_of e.err ≡ name_refused name.now) }
        ensures kind { IfErr result (λ e. (e.kind ≡ ErrorKind.InvalidArgument) × (e.loc ≡ Unknown)) }
    {
        insert_symbol(self.alloc, &mut self.attributes, name)?;
        Ok(self)
    }

    /// Makes the operation, without a parent. Fails with `Text` if an operand is not in the context, else if a successor is not, and the
    /// text says which; else with `UnregisteredDialect` or `UnregisteredOp` if the operation is not registered. Fails with `Memory` if an
    /// allocation fails, also that of the text, or a counter is at its limit. The error is of kind invalid argument and has no location,
    /// and all objects are unchanged.
    pub fn build(self, ctx: &mut Context<T, A>) -> Answer<Ptr<Operation>, A>
        ensures made { IfOk result (λ op. MakesDraft (said self.entry) ctx.old ctx.new op) }
        ensures live { IfOk result (λ op. IsSome (operation ctx.new op)) }
        ensures used { OnOk result (AreContainedValues ctx.old self.entry.operands.now
            × AreLiveBlocks ctx.old self.entry.successors.now) }
        ensures registered { MakesRegistered self.entry.id result ctx.old ctx.new }
        ensures refused { IfErr result (λ e. RefusesDraft ctx.old (said self.entry) e.err) }
    {
        if !ctx.contains_values(self.operands) {
            return Err(unfit(ctx.allocator(), "an operand is not in the context"));
        }
        if !ctx.contains_blocks(self.successors) {
            return Err(unfit(ctx.allocator(), "a successor is not in the context"));
        }
        make_registered(ctx, self)
    }

    /// Makes the operation, and then makes it the last of a block. Fails with `Text` if the block is not in the context, and else as `build`
    /// does. The error is of kind invalid argument and has no location, and all objects are unchanged.
    pub fn build_in(
        self,
        ctx: &mut Context<T, A>,
        block: Ptr<BasicBlock>,
    ) -> Answer<Ptr<Operation>, A>
        ensures made { IfOk result (λ op. AppendsDraft (said self.entry) ctx.old ctx.new block op) }
        ensures live { IfOk result (λ op. IsSome (operation ctx.new op)) }
        ensures stood { OnOk result (IsSome (block_at ctx.old block)) }
        ensures used { OnOk result (AreContainedValues ctx.old self.entry.operands.now
            × AreLiveBlocks ctx.old self.entry.successors.now) }
        ensures kept { (mark : ℕ) → mark ≤ ctx.old.graph.made → IsNew mark ctx.old.graph (TheBlock block)
            → KeepsOlder mark ctx.old ctx.new }
        ensures objects { OnErr result (SameObjects ctx.old ctx.new) }
        ensures refused { IfErr result (λ e. RefusesIn ctx.old (said self.entry) block e.err) }
        ensures kind { IfErr result (λ e. (e.kind ≡ ErrorKind.InvalidArgument) × (e.loc ≡ Unknown)) }
    {
        if !ctx.contains_block(block) {
            return Err(unfit(ctx.allocator(), "the block is not in the context"));
        }
        let mark = ctx.made();
        let op = self.build(ctx)?;
        match op.insert_at_back(block, ctx) {
            Ok(()) => Ok(op),
            Err(_) => {
                ctx.roll_back(mark);
                Err(invalid(Cause::Memory))
            }
        }
    }
}

/// Makes an operation with its regions. If an allocation fails or a counter is at its limit, what was made before stays.
fn make<T: IrText<A>, A: AttrText<A>>(
    ctx: &mut Context<T, A>,
    draft: OpDraft<'_, T, A>,
) -> Result<Ptr<Operation>, NoRoom>
    requires operands { AreDefinedValues ctx.old draft.operands.now }
    requires successors { AreLiveBlocks ctx.old draft.successors.now }
    ensures made { IfOk result (λ op. MakesDraft (said draft.entry) ctx.old ctx.new op) }
    ensures kept { (mark : ℕ) → mark ≤ ctx.old.graph.made → KeepsOlder mark ctx.old ctx.new }
{
    let op = ctx.make_operation_with(
        draft.id,
        draft.attributes,
        draft.loc,
        draft.result_types,
        draft.operands,
        draft.successors,
    )?;
    add_regions(ctx, op, draft.num_regions)?;
    Ok(op)
}

/// Makes an operation that a draft describes, if it is registered.
fn make_registered<T: IrText<A>, A: AttrText<A>>(
    ctx: &mut Context<T, A>,
    mut draft: OpDraft<'_, T, A>,
) -> Answer<Ptr<Operation>, A>
    requires operands { AreDefinedValues ctx.old draft.operands.now }
    requires successors { AreLiveBlocks ctx.old draft.successors.now }
    ensures made { IfOk result (λ op. MakesDraft (said draft.entry) ctx.old ctx.new op) }
    ensures registered { MakesRegistered draft.entry.id result ctx.old ctx.new }
    ensures refused { IfErr result (λ e. RefusesRegistered ctx.old draft.entry.id e.err) }
{
    draft.id = match ctx.known_id(draft.id) {
        Ok(id) => id,
        Err(cause) => return Err(invalid(cause)),
    };
    let mark = ctx.made();
    match make(ctx, draft) {
        Ok(op) => Ok(op),
        Err(_) => {
            ctx.roll_back(mark);
            Err(invalid(Cause::Memory))
        }
    }
}
