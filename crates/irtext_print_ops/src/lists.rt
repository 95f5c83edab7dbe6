//! The lists of operations and blocks, as they are printed: with `, ` between the items, and without the items that have no text.
ghost use Rattle.std.specs.Prelude.{◌≡◌, ◌<◌, ◌&&◌, ◌++◌, not, true, drop, is_some, length, slice_get, option_and_then, option_map, Some, IsSome, IfOk, IfSome, OnOk, OnErr};
ghost use Rattle.std.specs.Char.{is_ascii};
ghost use Rattle.std.specs.List.{list_all};
ghost use Rattle.irtext_base.specs.Appending.{OnlyAppends};
ghost use Rattle.irtext_context.specs.Context.{block};
ghost use Rattle.irtext_graph.specs.Graph.{IsLive};
ghost use Rattle.irtext_graph.specs.Parts.{operands, successors, value_at, IsDefinedValue};
ghost use Rattle.irtext_graph.specs.declared.object.Object.TheVariants.{TheOperation};
ghost use Rattle.irtext_grammar.specs.Contexts.Held.{known_types};
ghost use Rattle.irtext_grammar.specs.Contexts.Nested.{number_of};
ghost use Rattle.irtext_print.specs.Printers.Appended.{AppendsText};
ghost use Rattle.irtext_print_ops.specs.Listed as texts;
ghost use Rattle.irtext_print_ops.specs.Names.{label_text, operand_text};
ghost use Rattle.irtext_print_ops.specs.declared.lists.Facet.TheVariants as facet;

use crate::names::{fmt_block_label, fmt_value_name, keeps_values};
use crate::printer::Printer;
use irtext_base::text::{AttrText, IrText};
use irtext_context::base::{BasicBlock, Context, Operation, Ptr, Value};
use irtext_graph::held::HasGraph;
use irtext_memory::{OutOfMemory, string};

/// A list of an operation or a block.
#[derive(Clone, Copy)]
pub(crate) enum Listed {
    /// The names of the values that an operation uses.
    Operands(Ptr<Operation>),
    /// The labels of the blocks that an operation uses.
    Successors(Ptr<Operation>),
    /// The names of an operation's results with known types.
    Results(Ptr<Operation>),
    /// The types of the values that an operation uses, if they are known.
    OperandTypes(Ptr<Operation>),
    /// The types of an operation's results, if they are known.
    ResultTypes(Ptr<Operation>),
    /// The names and types of a block's arguments with known types.
    Arguments(Ptr<BasicBlock>),
}

/// What is printed of a value with a known type.
#[derive(Clone, Copy)]
enum Facet {
    Name,
    Type,
    Both,
}

/// Whether still nothing of a list was printed.
pub(crate) type StillFirst = Result<bool, OutOfMemory>;

/// Appends `, `, except before the first item.
#[inline(always)]
fn fmt_between(first: bool, f: &mut String) -> Result<(), OutOfMemory>
    ensures text { OnOk result (AppendsText f.old (texts.gap first) f.new) }
    ensures appended { OnErr result (OnlyAppends f.old f.new) }
{
    if !first {
        string::push_str(f, ", ")?;
    }
    Ok(())
}

impl<'c, T: IrText<A>, A: AttrText<A>> Printer<'c, T, A> {
    /// Returns the value that an operation uses at an index; it is live.
    #[inline(always)]
    fn operand(self, op: Ptr<Operation>, index: usize) -> Value
        requires alive { IsLive self.ctx.now.graph (TheOperation op) }
        requires within { index < length (operands self.ctx.now.graph op) }
        ensures value { slice_get (operands self.entry.ctx.now.graph op) index ≡ Some result }
        ensures there { IsDefinedValue self.entry.ctx.now.graph result }
    {
        let graph = self.ctx.graph();
        graph.keeps_nesting();
        graph.get_operand(op, index)
    }

    /// Returns the block that an operation uses at an index; it is live.
    #[inline(always)]
    fn successor(self, op: Ptr<Operation>, index: usize) -> Ptr<BasicBlock>
        requires alive { IsLive self.ctx.now.graph (TheOperation op) }
        requires within { index < length (successors self.ctx.now.graph op) }
        ensures value { slice_get (successors self.entry.ctx.now.graph op) index ≡ Some result }
        ensures there { IsSome (block self.entry.ctx.now result) }
    {
        let graph = self.ctx.graph();
        graph.keeps_nesting();
        graph.get_successor(op, index)
    }

    /// Appends the name of a value, after `, ` if it is not the first.
    #[inline(always)]
    fn fmt_operand(self, value: Value, first: bool, f: &mut String) -> Result<(), OutOfMemory>
        requires { IsDefinedValue self.ctx.now.graph value }
        ensures text { OnOk result (AppendsText f.old
            (texts.next_text first (operand_text self.entry.ctx.now value)) f.new) }
        ensures appended { OnErr result (OnlyAppends f.old f.new) }
    {
        fmt_between(first, f)?;
        fmt_value_name(self.ctx, value, f)
    }

    /// Appends the label of a block, after `, ` if it is not the first.
    #[inline(always)]
    fn fmt_successor(
        self,
        p: Ptr<BasicBlock>,
        first: bool,
        f: &mut String,
    ) -> Result<(), OutOfMemory>
        requires { IsSome (block self.ctx.now p) }
        ensures text { OnOk result (AppendsText f.old
            (texts.next_text first (Some (label_text self.entry.ctx.now p))) f.new) }
        ensures appended { OnErr result (OnlyAppends f.old f.new) }
    {
        fmt_between(first, f)?;
        fmt_block_label(self.ctx, p, f)
    }

    /// Appends this facet of a value of this type.
    #[inline(always)]
    fn fmt_facet(
        self,
        value: Value,
        of_type: &T,
        facet: Facet,
        f: &mut String,
    ) -> Result<(), OutOfMemory>
        requires { IsDefinedValue self.ctx.now.graph value }
        ensures text { OnOk result (IfSome (number_of self.entry.ctx.now value) (λ n. AppendsText f.old
            (texts.facet_text T.IrText.written self.entry.ctx.now facet (n, of_type.now)) f.new)) }
        ensures appended { OnErr result (OnlyAppends f.old f.new) }
    {
        match facet {
            Facet::Name => fmt_value_name(self.ctx, value, f),
            Facet::Type => of_type.write_text(f),
            Facet::Both => {
                fmt_value_name(self.ctx, value, f)?;
                string::push_str(f, ": ")?;
                of_type.write_text(f)
            }
        }
    }

    /// Appends this facet of a value if its type is known, after `, ` if it is not the first. Returns whether still nothing was printed.
    #[inline(always)]
    fn fmt_typed(self, value: Value, facet: Facet, first: bool, f: &mut String) -> StillFirst
        requires { IsDefinedValue self.ctx.now.graph value }
        ensures text { OnOk result (AppendsText f.old (texts.next_text first
            (option_and_then (texts.typed_text T.IrText.written self.entry.ctx.now facet)
            (value_at self.entry.ctx.now.graph value))) f.new) }
        ensures left { IfOk result (λ left. left ≡ (first && not (is_some
            (option_and_then (texts.typed_text T.IrText.written self.entry.ctx.now facet)
            (value_at self.entry.ctx.now.graph value))))) }
        ensures appended { OnErr result (OnlyAppends f.old f.new) }
    {
        let Some(of_type) = self.ctx.graph().type_of(value) else {
            return Ok(first);
        };
        fmt_between(first, f)?;
        self.fmt_facet(value, of_type, facet, f)?;
        Ok(false)
    }

    /// Appends the type of a value if it is known, after `, ` if it is not the first. Returns whether still nothing was printed.
    #[inline(always)]
    fn fmt_operand_type(self, value: Value, first: bool, f: &mut String) -> StillFirst
        requires { IsDefinedValue self.ctx.now.graph value }
        ensures text { OnOk result (AppendsText f.old (texts.next_text first (texts.operand_type_text
            T.IrText.written self.entry.ctx.now value)) f.new) }
        ensures left { IfOk result (λ left. left ≡ (first && not
            (is_some (texts.operand_type_text T.IrText.written self.entry.ctx.now value)))) }
        ensures appended { OnErr result (OnlyAppends f.old f.new) }
    {
        keeps_values(self.ctx, value);
        self.fmt_typed(value, Facet::Type, first, f)
    }

    /// Returns the number of items.
    #[inline(always)]
    pub(crate) fn count(self, listed: Listed) -> usize
        requires { IsLive self.ctx.now.graph (texts.owner listed) }
        ensures { result ≡ length (texts.texts_of T.IrText.written self.entry.ctx.now listed) }
    {
        let graph = self.ctx.graph();
        match listed {
            Listed::Operands(op) | Listed::OperandTypes(op) => graph.num_operands(op),
            Listed::Successors(op) => graph.num_successors(op),
            Listed::Results(op) | Listed::ResultTypes(op) => graph.num_results(op),
            Listed::Arguments(block) => graph.num_arguments(block),
        }
    }

    /// Appends the item at an index if it has a text, after `, ` if it is not the first. Returns whether still nothing was printed.
    #[inline(always)]
    pub(crate) fn fmt_item(
        self,
        listed: Listed,
        index: usize,
        first: bool,
        f: &mut String,
    ) -> StillFirst
        requires alive { IsLive self.ctx.now.graph (texts.owner listed) }
        requires within { index < length (texts.texts_of T.IrText.written self.ctx.now listed) }
        ensures text { OnOk result (AppendsText f.old (texts.next_text first
            (texts.text_at T.IrText.written self.entry.ctx.now listed index)) f.new) }
        ensures left { IfOk result (λ left. left ≡ (first && not (is_some
            (texts.text_at T.IrText.written self.entry.ctx.now listed index)))) }
        ensures appended { OnErr result (OnlyAppends f.old f.new) }
    {
        match listed {
            Listed::Operands(op) => {
                self.fmt_operand(self.operand(op, index), first, f)?;
                Ok(false)
            }
            Listed::Successors(op) => {
                self.fmt_successor(self.successor(op, index), first, f)?;
                Ok(false)
            }
            Listed::OperandTypes(op) => self.fmt_operand_type(self.operand(op, index), first, f),
            Listed::Results(op) => self.fmt_typed(Value::Result(op, index), Facet::Name, first, f),
            Listed::ResultTypes(op) => self.fmt_typed(
                Value::Result(op, index),
                Facet::Type,
                first,
                f,
            ),
            Listed::Arguments(block) => {
                self.fmt_typed(Value::Argument(block, index), Facet::Both, first, f)
            }
        }
    }

    /// Appends the items from an index on, with `, ` between them. Returns whether there was none.
    #[inline(always)]
    pub(crate) fn fmt_listed(self, listed: Listed, from: usize, f: &mut String) -> StillFirst
        requires { IsLive self.ctx.now.graph (texts.owner listed) }
        ensures text { OnOk result (AppendsText f.old
            (texts.list_text T.IrText.written self.entry.ctx.now listed from) f.new) }
        ensures none { IfOk result (λ none. none ≡ texts.are_none
            (known_types (drop from (texts.texts_of T.IrText.written self.entry.ctx.now listed)))) }
        ensures appended { OnErr result (OnlyAppends f.old f.new) }
    {
        let mut first = true;
        for index in from..self.count(listed) {
            first = self.fmt_item(listed, index, first, f)?;
        }
        Ok(first)
    }

    /// Appends all items between two texts. `both` is the two texts, which are appended at once if there is no item.
    #[inline(always)]
    pub(crate) fn fmt_enclosed(
        self,
        listed: Listed,
        before: &str,
        after: &str,
        both: &str,
        f: &mut String,
    ) -> Result<(), OutOfMemory>
        requires alive { IsLive self.ctx.now.graph (texts.owner listed) }
        requires joined { both.now ≡ before.now ++ after.now }
        requires before { list_all is_ascii before.now ≡ true }
        requires after { list_all is_ascii after.now ≡ true }
        ensures text { OnOk result (AppendsText f.old
            (before.now ++ (texts.list_text T.IrText.written self.entry.ctx.now listed 0
            ++ after.now)) f.new) }
        ensures appended { OnErr result (OnlyAppends f.old f.new) }
    {
        if self.count(listed) == 0 {
            string::push_str(f, both)?;
            return Ok(());
        }
        string::push_str(f, before)?;
        self.fmt_listed(listed, 0, f)?;
        string::push_str(f, after)?;
        Ok(())
    }
}
