//! The roots of a text, parsed one after the other on one stream.
ghost use Rattle.std.specs.Prelude.{◌≡◌, ◌<◌, ◌↔◌, ℕ, [], true, false, length, None, IsTrue, IsSome, IfSome, IfNone, IfOk, IfErr, OnOk, OnErr};
ghost use Rattle.irtext_base.specs.Text.{Text};
ghost use Rattle.irtext_base.specs.Places.{IsPlaceAfter};
ghost use Rattle.irtext_base.specs.Stream.{IsAt};
ghost use Rattle.irtext_base.specs.declared.location.Location.{Unknown};
ghost use Rattle.irtext_context.specs.Context.{ContextView, operation, KeepsOlder, RollsBack};
ghost use Rattle.irtext_context.specs.Locations.{ErasesLocations};
ghost use Rattle.irtext_context.specs.Made.{SameObjects};
ghost use Rattle.irtext_graph.specs.Back.{AllOlder, IsClosedBelow};
ghost use Rattle.irtext_graph.specs.Graph.{children, parent};
ghost use Rattle.irtext_graph.specs.Nested.{Nested};
ghost use Rattle.irtext_graph.specs.Parts.{regions};
ghost use Rattle.irtext_graph.specs.Store.{before};
ghost use Rattle.irtext_graph.specs.Throughout.{IsNewInside};
ghost use Rattle.irtext_graph.specs.Used.{IsUse, IsDefined};
ghost use Rattle.irtext_graph.specs.declared.arena.Ptr.{Ptr};
ghost use Rattle.irtext_graph.specs.declared.object.Object.TheVariants.{TheOperation};
ghost use Rattle.irtext_graph.specs.declared.object.Operation.{Operation};
ghost use Rattle.irtext_grammar.specs.Promises.Root.{UnlessMemory};
ghost use Rattle.irtext_stream.specs.Classes.{after_spaces};
ghost use Rattle.irtext_formatter.specs.Rows.{follows, ReadsRoot, RefusesAt, KeepsPlace, LaysOut};
ghost use Rattle.irtext_formatter.specs.Stands.{place_of, held_by, IsReady, CanTakeBack, Begins, NextRoot};

use crate::layout::Layout;
use irtext_base::location::{Location, Source};
use irtext_base::parsable::{CharStream, Class, ParseResult, Place, SourcePosition, TextStream};
use irtext_base::text::{AttrText, IrText};
use irtext_context::base::context::making::Making;
use irtext_context::base::{Context, Operation, OperationAccess, Ptr};
use irtext_context::location::erase_locations;
use irtext_graph::held::HasGraph;
use irtext_graph_queries::operation::OperationParts;
use irtext_parse_root::outermost::outermost_parse;
use irtext_parse_state::parsable::{State, StateStream};

/// The roots of a text that are still to be parsed, and the context that they are parsed into.
pub struct Roots<'c, T, A> {
    stream: StateStream<'c, T, A, ()>,
    /// How many objects had been made before the last root was parsed.
    made: u64,
    /// Where the last root begins.
    begin: Place,
}

/// Returns how many objects were made in the context of a state.
fn made_in<T: IrText<A>, A: AttrText<A>>(state: &State<'_, T, A, ()>) -> u64
    ensures made { result ≡ state.now.ctx.now.graph.made }
    ensures older { AllOlder result state.now.ctx.now.graph }
    ensures closed { IsClosedBelow result state.now.ctx.now.graph }
{
    state.ctx.made()
}

/// Borrows the context of a state.
fn context_of<'a, T: IrText<A>, A: AttrText<A>>(state: &'a State<'_, T, A, ()>) -> &'a Context<T, A>
    ensures { result.now ≡ state.now.ctx.now }
{
    &*state.ctx
}

/// The graph of a context is sound. Does nothing: the contract states what every context has.
fn keeps_sound<T: IrText<A>, A: AttrText<A>>(ctx: &Context<T, A>)
    ensures nested { Nested (children ctx.now.graph) (parent ctx.now.graph) }
    ensures used { (u d : _) → IsUse ctx.now.graph d u → IsDefined ctx.now.graph d }
{
    ctx.graph().keeps_nesting();
}

/// Whether an operation has no regions.
fn is_leaf<T: IrText<A>, A: AttrText<A>>(state: &State<'_, T, A, ()>, op: Ptr<Operation>) -> bool
    requires live { IsSome (operation state.now.ctx.now op) }
    ensures { IsTrue result ↔ (regions state.now.ctx.now.graph op ≡ []) }
{
    op.num_regions(context_of(state)) == 0
}

/// Whether the location of an operation is unknown.
fn is_unplaced<T: IrText<A>, A: AttrText<A>>(ctx: &Context<T, A>, op: Ptr<Operation>) -> bool
    requires live { IsSome (operation ctx.now op) }
    ensures { IfSome (operation ctx.now op) (λ seen. IsTrue result ↔ (seen.loc ≡ Unknown)) }
{
    match op.loc(ctx) {
        Location::Unknown => true,
        _ => false,
    }
}

/// If the location of an operation is unknown, sets it to this position of the text. Nothing else of the context changes.
fn keep_place<T: IrText<A>, A: AttrText<A>>(
    state: &mut State<'_, T, A, ()>,
    op: Ptr<Operation>,
    pos: SourcePosition,
)
    requires live { IsSome (operation state.old.ctx.now op) }
    ensures lent { state.new.ctx.ghost_name ≡ state.old.ctx.ghost_name }
    ensures rest { state.new ≡ record state.old { ctx = state.new.ctx } }
    ensures place { (begin : Text) → IsAt pos.line pos.column begin → IfSome (operation state.old.ctx.now op)
        (KeepsPlace begin op state.old.ctx.now state.new.ctx.now) }
    ensures live { IsSome (operation state.new.ctx.now op) }
    ensures kept { (mark : ℕ) → before mark state.old.ctx.now.graph.operations op ≡ None → KeepsOlder mark
        state.old.ctx.now state.new.ctx.now }
{
    if is_unplaced(context_of(state), op) {
        let src = Source::InMemory;
        op.set_loc(state.ctx, Location::SrcPos { src, pos });
    }
}

/// Erases the locations of an operation and of everything nested in it.
fn erase_in<T: IrText<A>, A: AttrText<A>>(state: &mut State<'_, T, A, ()>, op: Ptr<Operation>)
    requires live { IsSome (operation state.old.ctx.now op) }
    ensures lent { state.new.ctx.ghost_name ≡ state.old.ctx.ghost_name }
    ensures rest { state.new ≡ record state.old { ctx = state.new.ctx } }
    ensures erased { ErasesLocations state.old.ctx.now state.new.ctx.now op }
    ensures live { IsSome (operation state.new.ctx.now op) }
    ensures kept { (mark : ℕ) → IsNewInside mark state.old.ctx.now.graph (TheOperation op) → KeepsOlder mark
        state.old.ctx.now state.new.ctx.now }
{
    erase_locations(state.ctx, op);
}

/// Removes the objects that were made since this mark was taken.
fn take_back<T: IrText<A>, A: AttrText<A>>(state: &mut State<'_, T, A, ()>, mark: u64)
    requires closed { IsClosedBelow mark state.old.ctx.now.graph }
    ensures lent { state.new.ctx.ghost_name ≡ state.old.ctx.ghost_name }
    ensures rest { state.new ≡ record state.old { ctx = state.new.ctx } }
    ensures back { RollsBack mark state.old.ctx.now state.new.ctx.now }
{
    state.ctx.roll_back(mark);
}

impl<'c, T: IrText<A>, A: AttrText<A>> Roots<'c, T, A> {
    /// Returns the roots on a stream of a text, from its position on.
    pub fn new(ctx: &'c mut Context<T, A>, stream: TextStream) -> Roots<'c, T, A>
        ensures lent { result.stream.state.ctx.ghost_name ≡ ctx.entry.ghost_name }
        ensures context { held_by result ≡ ctx.old }
        ensures place { place_of result ≡ stream }
        ensures ready { stream.failed ≡ false → IsReady result }
    {
        let made = ctx.made();
        let begin = stream.position();
        let state = State::new(ctx, Source::InMemory, ());
        Roots {
            stream: StateStream { stream, state },
            made,
            begin,
        }
    }

    /// Whether something else than white space is left of the text, so that another root has to follow. Consumes the white space.
    pub fn is_left(&mut self) -> bool
        ensures lent { self.new.stream.state.ctx.ghost_name ≡ self.old.stream.state.ctx.ghost_name }
        ensures left { result ≡ follows (place_of self.old).rest }
        ensures place { place_of self.new ≡ after_spaces (place_of self.old) }
        ensures state { self.new.stream.state ≡ self.old.stream.state }
        ensures last { (self.new.made ≡ self.old.made) × (self.new.begin ≡ self.old.begin) }
        ensures begin { (begin : Text) → Begins begin self.old → Begins begin self.new }
        ensures back { (before : ContextView T A) → CanTakeBack before self.old → CanTakeBack before self.new }
        ensures inside { (op : Ptr Operation) → IsNewInside self.old.made (held_by self.old).graph (TheOperation op)
            → IsNewInside self.new.made (held_by self.new).graph (TheOperation op) }
        ensures ready { IsReady self.old → IsReady self.new }
    {
        self.stream.stream.skip(Class::WhiteSpace);
        self.stream.stream.peek().is_some()
    }

    /// Parses the root that comes next, with its section. On an error the context holds the objects that it held before; after a committed
    /// one the stream has failed.
    pub fn parse_root(&mut self) -> ParseResult<Ptr<Operation>, A>
        ensures lent { self.new.stream.state.ctx.ghost_name ≡ self.old.stream.state.ctx.ghost_name }
        ensures reads { IsReady self.old → IfOk result (λ op. ReadsRoot T.IrText.own A.IrText.own op (place_of self.old)
            (place_of self.new) (held_by self.old) (held_by self.new)) }
        ensures refuses { IsReady self.old → IfErr result (UnlessMemory (RefusesAt T.IrText.own A.IrText.own
            (held_by self.old) (place_of self.old))) }
        ensures live { IsReady self.old → IfOk result (λ op. IsSome (operation (held_by self.new) op)) }
        ensures ready { IsReady self.old → OnOk result (IsReady self.new) }
        ensures begin { IsReady self.old → OnOk result (Begins (place_of self.old).passed self.new) }
        ensures objects { OnErr result (SameObjects (held_by self.old) (held_by self.new)) }
        ensures back { IsReady self.old → OnOk result (CanTakeBack (held_by self.old) self.new) }
        ensures inside { IsReady self.old → IfOk result (λ op. IsNewInside self.new.made (held_by self.new).graph
            (TheOperation op)) }
        ensures shorter { IsReady self.old → OnOk result (length (place_of self.new).rest < length
            (place_of self.old).rest) }
    {
        self.made = made_in(&self.stream.state);
        self.begin = self.stream.stream.position();
        let parsed = outermost_parse(&mut self.stream, true);
        keeps_sound(context_of(&self.stream.state));
        parsed
    }

    /// Parses the next root, with its section. `None` exactly if only white space is left of the text. On an error the context holds the
    /// objects that it held before. The last root stays in the context, unless it is erased (`erase`).
    pub fn next_root(&mut self) -> Option<ParseResult<Ptr<Operation>, A>>
        ensures lent { self.new.stream.state.ctx.ghost_name ≡ self.old.stream.state.ctx.ghost_name }
        ensures some { IsSome result ↔ (follows (place_of self.old).rest ≡ true) }
        ensures parses { IsReady self.old → IfSome result (NextRoot T.IrText.own A.IrText.own self.old self.new) }
        ensures none { IfNone result (held_by self.new ≡ held_by self.old) }
    {
        if !self.is_left() {
            return None;
        }
        Some(self.parse_root())
    }

    /// The context of the roots.
    pub fn context(&self) -> &Context<T, A>
        ensures { result.now ≡ held_by self.now }
    {
        context_of(&self.stream.state)
    }

    /// The place in the text after what was parsed so far.
    pub fn place(&self) -> Place
        ensures { IsPlaceAfter result (place_of self.now).passed }
    {
        self.stream.stream.position()
    }

    /// The place in the text where the last root begins.
    pub fn begin(&self) -> Place
        ensures { result ≡ self.now.begin }
    {
        self.begin
    }

    /// Gives the last root the locations that this layout prints. `followed` says whether another root follows.
    pub(crate) fn lay_out(&mut self, root: Ptr<Operation>, layout: Layout, followed: bool)
        requires live { IsSome (operation (held_by self.old) root) }
        ensures lent { self.new.stream.state.ctx.ghost_name ≡ self.old.stream.state.ctx.ghost_name }
        ensures laid { (begin : Text) → Begins begin self.old → LaysOut layout followed begin root (held_by self.old)
            (held_by self.new) }
        ensures live { IsSome (operation (held_by self.new) root) }
        ensures back { IsNewInside self.old.made (held_by self.old).graph (TheOperation root) → (before : ContextView T A)
            → CanTakeBack before self.old → CanTakeBack before self.new }
        ensures place { place_of self.new ≡ place_of self.old }
        ensures ready { IsReady self.old → IsReady self.new }
    {
        if followed && is_leaf(&self.stream.state, root) {
            let position = self.stream.stream.locate(self.begin);
            keep_place(&mut self.stream.state, root, position);
            return;
        }
        if !layout.locations {
            erase_in(&mut self.stream.state, root);
        }
    }

    /// Erases the root that was parsed last, with everything nested in it. It allocates nothing.
    pub fn erase(&mut self)
        requires closed { IsClosedBelow self.old.made (held_by self.old).graph }
        ensures lent { self.new.stream.state.ctx.ghost_name ≡ self.old.stream.state.ctx.ghost_name }
        ensures back { (before : ContextView T A) → CanTakeBack before self.old → SameObjects before (held_by self.new) }
        ensures place { place_of self.new ≡ place_of self.old }
        ensures ready { IsReady self.old → IsReady self.new }
    {
        take_back(&mut self.stream.state, self.made);
    }

    /// Erases the root that was parsed last, if another one follows.
    pub(crate) fn erase_followed(&mut self, followed: bool)
        requires closed { IsClosedBelow self.old.made (held_by self.old).graph }
        ensures lent { self.new.stream.state.ctx.ghost_name ≡ self.old.stream.state.ctx.ghost_name }
        ensures back { followed ≡ true → (before : ContextView T A) → CanTakeBack before self.old → SameObjects before
            (held_by self.new) }
        ensures last { followed ≡ false → held_by self.new ≡ held_by self.old }
        ensures place { place_of self.new ≡ place_of self.old }
        ensures ready { IsReady self.old → IsReady self.new }
    {
        if followed {
            self.erase();
        }
    }

    /// Returns the context.
    pub fn into_context(self) -> &'c mut Context<T, A>
        ensures lent { result.ghost_name ≡ self.entry.stream.state.ctx.ghost_name }
        ensures now { result.now ≡ self.entry.stream.state.ctx.now }
    {
        let Roots {
            stream,
            made: _,
            begin: _,
        } = self;
        stream.into_ctx()
    }
}
