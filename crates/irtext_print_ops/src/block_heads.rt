//! What comes before a block's operations: its label, its arguments and its dictionary.
ghost use Rattle.std.specs.Prelude.{◌≡◌, ◌++◌, IsSome, IfErr, OnOk, OnErr, codes};
ghost use Rattle.irtext_base.specs.Appending.{OnlyAppends};
ghost use Rattle.irtext_context.specs.Context as context;
ghost use Rattle.irtext_graph.specs.Graph.{IsLive};
ghost use Rattle.irtext_graph.specs.declared.object.Object.TheVariants.{TheBlock};
ghost use Rattle.irtext_grammar.specs.Contexts.Held.{entries_of};
ghost use Rattle.irtext_print.specs.Printers.Appended.{AppendsText};
ghost use Rattle.irtext_print.specs.Refusals.{IsMemory};
ghost use Rattle.irtext_print_ops.specs.Heads as heads;
ghost use Rattle.irtext_print_ops.specs.Inline.{has_inline, inline_text};
ghost use Rattle.irtext_print_ops.specs.Listed.{list_text};
ghost use Rattle.irtext_print_ops.specs.declared.lists.Listed.TheVariants.{Arguments};

use crate::lists::Listed;
use crate::names::fmt_block_label;
use crate::printer::Printer;
use irtext_base::text::{AttrText, IrText};
use irtext_context::base::{AttributeDict, BasicBlock, BlockAccess, Context, Ptr};
use irtext_memory::OutOfMemory;
use irtext_print::ir::print::pieces::{DictPrinter, is_outlined};
use irtext_print::printable::Refusal;
use irtext_print::printable::refusal::memory_alone;

/// Whether some attribute is printed in place, and not in the section.
fn has_inline<A: AttrText<A>>(attributes: &AttributeDict<A>) -> bool
    ensures { result ≡ has_inline A.outlined (entries_of attributes.now) }
{
    for (_key, attr) in attributes.iter() {
        if !is_outlined(attr) {
            return true;
        }
    }
    false
}

/// Appends the dictionary of the attributes that are not outlined, after a space, if there are such attributes.
fn fmt_inline<A: AttrText<A>>(
    attributes: &AttributeDict<A>,
    f: &mut String,
) -> Result<(), OutOfMemory>
    ensures text { OnOk result (AppendsText f.old (inline_text A.outlined A.IrText.written
        (entries_of attributes.now)) f.new) }
    ensures appended { OnErr result (OnlyAppends f.old f.new) }
{
    if has_inline(attributes) {
        DictPrinter {
            attributes,
            directives: &[],
        }
        .fmt_dictionary(f)?;
    }
    Ok(())
}

impl<'c, T: IrText<A>, A: AttrText<A>> Printer<'c, T, A> {
    /// Appends the arguments with their types, in parentheses.
    fn fmt_arguments(self, block: Ptr<BasicBlock>, f: &mut String) -> Result<(), OutOfMemory>
        requires { IsLive self.ctx.now.graph (TheBlock block) }
        ensures text { OnOk result (AppendsText f.old
            (codes "(" ++ (list_text T.IrText.written self.entry.ctx.now (Arguments block) 0 ++ codes ")"))
            f.new) }
        ensures appended { OnErr result (OnlyAppends f.old f.new) }
    {
        self.fmt_enclosed(Listed::Arguments(block), "(", ")", "()", f)
    }

    /// Appends a block's label, its arguments and its dictionary, as [`fmt_block_head`] does.
    fn fmt_head(self, block: Ptr<BasicBlock>, f: &mut String) -> Result<(), OutOfMemory>
        requires live { IsSome (context.block self.ctx.now block) }
        ensures text { OnOk result (AppendsText f.old (heads.block_head_at T.IrText.own A.IrText.own
            A.AttrText.own A.eq self.entry.ctx.now block) f.new) }
        ensures appended { OnErr result (OnlyAppends f.old f.new) }
    {
        fmt_block_label(self.ctx, block, f)?;
        self.fmt_arguments(block, f)?;
        fmt_inline(block.attributes(self.ctx), f)
    }
}

/// Appends a block's label, its arguments (those whose types are known) with their types, and, if some attribute is not outlined, its
/// dictionary: `^a_block1v1(x_v0: builtin.integer si64) [k: builtin.identifier x]`. Its mark is not appended. The error is always
/// `Memory`.
pub fn fmt_block_head<T: IrText<A>, A: AttrText<A>>(
    ctx: &Context<T, A>,
    block: Ptr<BasicBlock>,
    f: &mut String,
) -> Result<(), Refusal>
    requires live { IsSome (context.block ctx.now block) }
    ensures text { OnOk result (AppendsText f.old
        (heads.block_head_at T.IrText.own A.IrText.own A.AttrText.own A.eq ctx.now block) f.new) }
    ensures refused { IfErr result (λ e. IsMemory e) }
    ensures appended { OnErr result (OnlyAppends f.old f.new) }
{
    memory_alone(Printer { ctx }.fmt_head(block, f))
}
