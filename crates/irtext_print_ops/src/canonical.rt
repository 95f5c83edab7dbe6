//! The canonical form, which any operation has, except for its results, its id and its regions.
ghost use Rattle.std.specs.Prelude.{◌≡◌, ◌++◌, Some, IsSome, IfSome, IfErr, OnOk, OnErr, codes};
ghost use Rattle.irtext_base.specs.Appending.{OnlyAppends};
ghost use Rattle.irtext_base.specs.Format as format;
ghost use Rattle.irtext_context.specs.Context.{operation};
ghost use Rattle.irtext_graph.specs.Graph.{IsLive};
ghost use Rattle.irtext_graph.specs.declared.object.Object.TheVariants.{TheOperation};
ghost use Rattle.irtext_grammar.specs.Contexts.Nested.{seen_own};
ghost use Rattle.irtext_grammar.specs.Graphs.Graph.{body_of};
ghost use Rattle.irtext_print.specs.Printers.Appended.{AppendsText};
ghost use Rattle.irtext_print.specs.Printers.PrintedOperation.{language_in};
ghost use Rattle.irtext_print.specs.Refusals.{IsMemory};
ghost use Rattle.irtext_print_ops.specs.Opened.{body_front};
ghost use Rattle.irtext_print_ops.specs.Listed.{list_text};
ghost use Rattle.irtext_print_ops.specs.Names.{printing_by};
ghost use Rattle.irtext_print_ops.specs.declared.lists.Listed.TheVariants.{Operands, Successors, OperandTypes, ResultTypes};

use crate::lists::Listed;
use crate::printer::Printer;
use irtext_base::text::{AttrText, IrText};
use irtext_context::base::{Operation, OperationAccess, Ptr};
use irtext_memory::{OutOfMemory, string};
use irtext_print::ir::print::pieces::DictPrinter;
use irtext_print::printable::Refusal;
use irtext_print::printable::refusal::memory_alone;

impl<'c, T: IrText<A>, A: AttrText<A>> Printer<'c, T, A> {
    /// Appends the names of the operands in parentheses and the labels of the successors in brackets, and opens the dictionary's bracket:
    /// ` (x_v1) [^a_block1v1] [`.
    fn fmt_uses(self, op: Ptr<Operation>, f: &mut String) -> Result<(), OutOfMemory>
        requires { IsLive self.ctx.now.graph (TheOperation op) }
        ensures text { OnOk result (AppendsText f.old
            (codes " (" ++ (list_text T.IrText.written self.entry.ctx.now (Operands op) 0 ++ (codes ") [" ++
            (list_text T.IrText.written self.entry.ctx.now (Successors op) 0 ++ codes "] [")))) f.new) }
        ensures appended { OnErr result (OnlyAppends f.old f.new) }
    {
        string::push_str(f, " (")?;
        self.fmt_listed(Listed::Operands(op), 0, f)?;
        self.fmt_enclosed(Listed::Successors(op), ") [", "] [", ") [] [", f)
    }

    /// Appends what follows the id in the canonical form, as [`fmt_canonical_front`](Self::fmt_canonical_front) does.
    fn fmt_canonical(self, op: Ptr<Operation>, f: &mut String) -> Result<(), OutOfMemory>
        requires live { IsSome (operation self.ctx.now op) }
        ensures text { OnOk result (IfSome (seen_own A.IrText.written self.entry.ctx.now op) (λ o.
            AppendsText f.old (body_front (language_in T.IrText.own A.IrText.own self.entry.ctx.now)
            (body_of (printing_by A.AttrText.own A.eq self.entry.ctx.now) o
            (Some format.canonical))) f.new)) }
        ensures appended { OnErr result (OnlyAppends f.old f.new) }
    {
        self.fmt_uses(op, f)?;
        DictPrinter {
            attributes: op.attributes(self.ctx),
            directives: &[],
        }
        .fmt_entries(f)?;
        string::push_str(f, "]: <(")?;
        self.fmt_listed(Listed::OperandTypes(op), 0, f)?;
        string::push_str(f, ") -> (")?;
        self.fmt_listed(Listed::ResultTypes(op), 0, f)?;
        string::push_str(f, ")>")?;
        Ok(())
    }

    /// Appends what follows the id in the canonical form, before the regions: the names of the operands, the labels of the successors, the
    /// dictionary, and the types of operands and results: ` () [] []: <() -> (test.ptr )>`. The error is always `Memory`.
    pub fn fmt_canonical_front(self, op: Ptr<Operation>, f: &mut String) -> Result<(), Refusal>
        requires live { IsSome (operation self.ctx.now op) }
        ensures text { OnOk result (IfSome (seen_own A.IrText.written self.entry.ctx.now op) (λ o.
            AppendsText f.old (body_front (language_in T.IrText.own A.IrText.own self.entry.ctx.now)
            (body_of (printing_by A.AttrText.own A.eq self.entry.ctx.now) o
            (Some format.canonical))) f.new)) }
        ensures refused { IfErr result (λ e. IsMemory e) }
        ensures appended { OnErr result (OnlyAppends f.old f.new) }
    {
        memory_alone(self.fmt_canonical(op, f))
    }
}
