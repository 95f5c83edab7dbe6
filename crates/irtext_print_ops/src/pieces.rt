//! What a directive of a format prints of an operation, if it prints no region.
ghost use Rattle.std.specs.Prelude.{◌≡◌, ◌<◌, ℕ, is_some, option_map, option_and_then, length, slice_get, Some, None, IsSome, IfSome, IfErr, OnOk, OnErr};
ghost use Rattle.irtext_base.specs.Appending.{OnlyAppends};
ghost use Rattle.irtext_base.specs.Format as format;
ghost use Rattle.irtext_base.specs.Format.{operand_places, successor_places};
ghost use Rattle.irtext_context.specs.Context.{operation};
ghost use Rattle.irtext_base.specs.FormatViews.{directive_of, directives_of};
ghost use Rattle.irtext_graph.specs.Graph.{IsLive};
ghost use Rattle.irtext_graph.specs.Parts.{operands, value_at, IsDefinedValue};
ghost use Rattle.irtext_graph.specs.declared.object.Value as code;
ghost use Rattle.irtext_graph.specs.declared.object.Object.TheVariants.{TheOperation};
ghost use Rattle.irtext_grammar.specs.Contexts.Held.{known_types};
ghost use Rattle.irtext_grammar.specs.Contexts.Nested.{seen_own};
ghost use Rattle.irtext_grammar.specs.Graphs.Graph.{part_of};
ghost use Rattle.irtext_print.specs.Printers.Appended.{AppendsText};
ghost use Rattle.irtext_print.specs.Printers.PieceText.{spaced, spaced_if};
ghost use Rattle.irtext_print.specs.Printers.PrintedOperation.{language_in};
ghost use Rattle.irtext_print.specs.Refusals.{IsMemory};
ghost use Rattle.irtext_print_ops.specs.Listed as texts;
ghost use Rattle.irtext_print_ops.specs.Listed.{owner};
ghost use Rattle.irtext_print_ops.specs.Names.{printing_by};
ghost use Rattle.irtext_print_ops.specs.Written.{part_text};
ghost use Rattle.irtext_print_ops.specs.declared.lists.Facet.TheVariants as facet;
ghost use Rattle.irtext_print_ops.specs.declared.lists.Listed.TheVariants as listed;

use crate::lists::Listed;
use crate::printer::Printer;
use irtext_base::format::Directive;
use irtext_base::text::{AttrText, IrText};
use irtext_context::base::{Context, Operation, OperationAccess, Ptr, Value};
use irtext_graph::held::HasGraph;
use irtext_memory::{OutOfMemory, string};
use irtext_print::ir::print::pieces::{DictPrinter, fmt_keyed, fmt_symbol, fmt_word};
use irtext_print::printable::Refusal;
use irtext_print::printable::refusal::memory_alone;

impl<'c, T: IrText<A>, A: AttrText<A>> Printer<'c, T, A> {
    /// What an operation uses is live. Does nothing: the contract hands that out.
    pub(crate) fn keeps_operands(self, op: Ptr<Operation>)
        ensures { (i : ℕ) (v : code.Value) → slice_get (operands self.entry.ctx.now.graph op) i ≡ Some v
            → IsDefinedValue self.entry.ctx.now.graph v }
    {
        self.ctx.graph().keeps_nesting();
    }

    /// Appends the item at an index, after a space, if there is one; it has a text.
    fn fmt_item_at(self, list: Listed, index: usize, f: &mut String) -> Result<(), OutOfMemory>
        requires live { IsLive self.ctx.now.graph (owner list) }
        requires text { index < length (texts.texts_of T.IrText.written self.ctx.now list)
            → IsSome (texts.text_at T.IrText.written self.ctx.now list index) }
        ensures text { OnOk result (AppendsText f.old
            (spaced_if (texts.text_at T.IrText.written self.entry.ctx.now list index)) f.new) }
        ensures appended { OnErr result (OnlyAppends f.old f.new) }
    {
        if index >= self.count(list) {
            return Ok(());
        }
        string::push_str(f, " ")?;
        self.fmt_item(list, index, true, f)?;
        Ok(())
    }

    /// Returns the type of a value, if it is known.
    pub(crate) fn known_type(self, value: Value) -> Option<&'c T>
        requires { IsDefinedValue self.ctx.now.graph value }
        ensures { option_map (λ t. T.IrText.written t.now) result ≡
            option_and_then (texts.typed_text T.IrText.written self.entry.ctx.now facet.Type)
            (value_at self.entry.ctx.now.graph value) }
    {
        match self.ctx.graph().type_of(value) {
            Some(of_type) => Some(of_type),
            None => None,
        }
    }

    /// Appends the type at an index among the known types of the results, after a space, if there is one.
    fn fmt_result_type_at(
        self,
        op: Ptr<Operation>,
        index: usize,
        f: &mut String,
    ) -> Result<(), OutOfMemory>
        requires { IsLive self.ctx.now.graph (TheOperation op) }
        ensures text { OnOk result (AppendsText f.old (spaced_if (slice_get
            (known_types (texts.texts_of T.IrText.written self.entry.ctx.now (listed.ResultTypes op))) index))
            f.new) }
        ensures appended { OnErr result (OnlyAppends f.old f.new) }
    {
        let mut left = index;
        for place in 0..self.count(Listed::ResultTypes(op)) {
            let Some(of_type) = self.known_type(Value::Result(op, place)) else {
                continue;
            };
            if left == 0 {
                string::push_str(f, " ")?;
                return of_type.write_text(f);
            }
            left -= 1;
        }
        Ok(())
    }

    /// Appends the items of a list from an index on, after a space.
    fn fmt_spaced(self, list: Listed, from: usize, f: &mut String) -> Result<(), OutOfMemory>
        requires { IsLive self.ctx.now.graph (owner list) }
        ensures text { OnOk result (AppendsText f.old
            (spaced (texts.list_text T.IrText.written self.entry.ctx.now list from)) f.new) }
        ensures appended { OnErr result (OnlyAppends f.old f.new) }
    {
        string::push_str(f, " ")?;
        self.fmt_listed(list, from, f)?;
        Ok(())
    }

    /// Appends what one of a format's directives prints of an operation, as [`fmt_piece`] does.
    fn fmt_part(
        self,
        op: Ptr<Operation>,
        directives: &[Directive],
        directive: &Directive,
        f: &mut String,
    ) -> Result<(), OutOfMemory>
        requires live { IsSome (operation self.ctx.now op) }
        ensures text { OnOk result (IfSome (seen_own A.IrText.written self.entry.ctx.now op) (λ o. AppendsText
            f.old
            (part_text (language_in T.IrText.own A.IrText.own self.entry.ctx.now)
            (part_of (printing_by A.AttrText.own A.eq self.entry.ctx.now) (directives_of directives.now) o
            (directive_of directive.now))) f.new)) }
        ensures appended { OnErr result (OnlyAppends f.old f.new) }
    {
        self.keeps_operands(op);
        match directive {
            Directive::Literal(word) => fmt_word(word.as_str(), f),
            Directive::Operand(index) => self.fmt_item_at(Listed::Operands(op), *index, f),
            Directive::Successor(index) => self.fmt_item_at(Listed::Successors(op), *index, f),
            Directive::ResultType(index) => self.fmt_result_type_at(op, *index, f),
            Directive::Operands => {
                self.fmt_spaced(Listed::Operands(op), count_operands(directives), f)
            }
            Directive::Successors => {
                self.fmt_spaced(Listed::Successors(op), count_successors(directives), f)
            }
            Directive::Attr(key) => fmt_keyed(op.attributes(self.ctx), key, f),
            Directive::AttrDict => DictPrinter {
                attributes: op.attributes(self.ctx),
                directives,
            }
            .fmt_dictionary(f),
            Directive::SymbolHeader => fmt_symbol(op.attributes(self.ctx), f),
            Directive::Region(_) => Ok(()),
            Directive::Regions => Ok(()),
        }
    }
}

fn writes_operand(directive: &Directive) -> bool
    ensures { result ≡ is_some (elim (directive_of directive.now) [ format.operand i ↦ Some i | _ ↦ None ]) }
{
    matches!(directive, Directive::Operand(_))
}

fn writes_successor(directive: &Directive) -> bool
    ensures { result ≡ is_some (elim (directive_of directive.now) [
      | format.successor i ↦ Some i
      | _
          ↦ None
    ]) }
{
    matches!(directive, Directive::Successor(_))
}

/// Counts the operands that have a directive of their own.
pub(crate) fn count_operands(directives: &[Directive]) -> usize
    ensures { result ≡ length (operand_places (directives_of directives.now)) }
{
    directives.iter().filter(|d| writes_operand(*d)).count()
}

/// Counts the successors that have a directive of their own.
pub(crate) fn count_successors(directives: &[Directive]) -> usize
    ensures { result ≡ length (successor_places (directives_of directives.now)) }
{
    directives.iter().filter(|d| writes_successor(*d)).count()
}

/// Appends what one of a format's directives prints of an operation, with the space before it. Nothing is appended if the directive
/// prints a region, or if what it names is absent. The error is always `Memory`.
pub fn fmt_piece<T: IrText<A>, A: AttrText<A>>(
    ctx: &Context<T, A>,
    op: Ptr<Operation>,
    directives: &[Directive],
    directive: &Directive,
    f: &mut String,
) -> Result<(), Refusal>
    requires live { IsSome (operation ctx.now op) }
    ensures text { OnOk result (IfSome (seen_own A.IrText.written ctx.now op) (λ o. AppendsText f.old
        (part_text (language_in T.IrText.own A.IrText.own ctx.now)
        (part_of (printing_by A.AttrText.own A.eq ctx.now) (directives_of directives.now) o
        (directive_of directive.now)))
        f.new)) }
    ensures refused { IfErr result (λ e. IsMemory e) }
    ensures appended { OnErr result (OnlyAppends f.old f.new) }
{
    memory_alone(Printer { ctx }.fmt_part(op, directives, directive, f))
}
