//! The names of an operation's results, which come before its id.
ghost use Rattle.std.specs.Prelude.{◌≡◌, map, IsSome, IfSome, IfErr, OnOk, OnErr};
ghost use Rattle.irtext_base.specs.Appending.{OnlyAppends};
ghost use Rattle.irtext_context.specs.Context.{operation};
ghost use Rattle.irtext_graph.specs.Graph.{IsLive};
ghost use Rattle.irtext_graph.specs.declared.object.Object.TheVariants.{TheOperation};
ghost use Rattle.irtext_grammar.specs.Contexts.Held.{known_types};
ghost use Rattle.irtext_grammar.specs.Contexts.Nested.{seen_own};
ghost use Rattle.irtext_grammar.specs.Graphs.Graph.{value};
ghost use Rattle.irtext_grammar.specs.Spelling.Spell.{results};
ghost use Rattle.irtext_print.specs.Printers.Appended.{AppendsText};
ghost use Rattle.irtext_print.specs.Printers.PrintedOperation.{language_in};
ghost use Rattle.irtext_print.specs.Refusals.{IsMemory};
ghost use Rattle.irtext_print_ops.specs.Listed.{defined_text, texts_of};
ghost use Rattle.irtext_print_ops.specs.Names.{printing_by};
ghost use Rattle.irtext_print_ops.specs.declared.lists.Listed.TheVariants.{Results};

use crate::lists::Listed;
use crate::printer::Printer;
use irtext_base::text::{AttrText, IrText};
use irtext_context::base::{Operation, Ptr};
use irtext_memory::{OutOfMemory, string};
use irtext_print::printable::Refusal;
use irtext_print::printable::refusal::memory_alone;

impl<'c, T: IrText<A>, A: AttrText<A>> Printer<'c, T, A> {
    /// Appends the names of an operation's results and ` = `, or nothing if there are none.
    fn fmt_defined(self, op: Ptr<Operation>, f: &mut String) -> Result<(), OutOfMemory>
        requires { IsLive self.ctx.now.graph (TheOperation op) }
        ensures text { OnOk result (AppendsText f.old
            (defined_text (known_types (texts_of T.IrText.written self.entry.ctx.now (Results op)))) f.new) }
        ensures appended { OnErr result (OnlyAppends f.old f.new) }
    {
        let none = self.fmt_listed(Listed::Results(op), 0, f)?;
        if none {
            return Ok(());
        }
        string::push_str(f, " = ")?;
        Ok(())
    }

    /// Appends the names of an operation's results with `, ` between them, and ` = `: `x_v0, y_v1 = `. Nothing is appended if it has no
    /// result with a known type. The error is always `Memory`.
    pub fn fmt_results(self, op: Ptr<Operation>, f: &mut String) -> Result<(), Refusal>
        requires live { IsSome (operation self.ctx.now op) }
        ensures text { OnOk result (IfSome (seen_own A.IrText.written self.entry.ctx.now op) (λ o.
            AppendsText f.old (results (language_in T.IrText.own A.IrText.own self.entry.ctx.now)
            (map (λ r. value (printing_by A.AttrText.own A.eq self.entry.ctx.now) r.0) o.results)) f.new)) }
        ensures refused { IfErr result (λ e. IsMemory e) }
        ensures appended { OnErr result (OnlyAppends f.old f.new) }
    {
        memory_alone(self.fmt_defined(op, f))
    }
}
