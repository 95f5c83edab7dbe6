//! The names of values and the labels of blocks, as they are printed.
ghost use Rattle.std.specs.Prelude.{◌≡◌, ◌++◌, Some, IsSome, OnOk, OnErr, IfSome, option_copied, codes, decimal};
ghost use Rattle.irtext_base.specs.Appending.{OnlyAppends};
ghost use Rattle.irtext_graph.specs.Parts.{value_at, IsDefinedValue};
ghost use Rattle.irtext_context.specs.Context.{block};
ghost use Rattle.irtext_grammar.specs.Contexts.Nested.{given_to, type_of};
ghost use Rattle.irtext_grammar.specs.Spelling.PrintedNames as printed;
ghost use Rattle.irtext_print.specs.Printers.Appended.{AppendsText};
ghost use Rattle.irtext_print_ops.specs.Names.{or_nothing, operand_text, label_text};
ghost use Rattle.irtext_grammar.specs.UniqueNames.{given_name};

use irtext_base::base::Identifier;
use irtext_base::text::{AttrText, IrText};
use irtext_context::base::{BasicBlock, BlockAccess, Context, Ptr, Value};
use irtext_graph::held::HasGraph;
use irtext_memory::{OutOfMemory, string};
use irtext_print::name::given_name;
use irtext_print::printable::numbers::{fmt_led_number, fmt_number};

/// What printing finds in a context by a value's number belongs to that value: its given name, and its type. Does nothing: the contract
/// hands that out.
pub(crate) fn keeps_values<T: IrText<A>, A: AttrText<A>>(ctx: &Context<T, A>, value: Value)
    ensures given { IfSome (value_at ctx.now.graph value) (λ t. given_to ctx.now t.number ≡ given_name
        ctx.now value) }
    ensures of_type { IfSome (value_at ctx.now.graph value) (λ t. type_of ctx.now t.number ≡ t.of_type) }
{
    ctx.graph().keeps_numbers();
}

/// Appends what follows a given name in the name of a value with this number: `_v1`.
#[inline(never)]
fn fmt_suffix(number: u64, f: &mut String) -> Result<(), OutOfMemory>
    ensures text { OnOk result (AppendsText f.old (codes "_v" ++ decimal number) f.new) }
    ensures appended { OnErr result (OnlyAppends f.old f.new) }
{
    fmt_led_number("_v", number, f)
}

/// Appends the name of a value with this given name or none, and this number: `x_v1` or `v1`.
#[inline(always)]
fn fmt_numbered(given: Option<&Identifier>, number: u64, f: &mut String) -> Result<(), OutOfMemory>
    ensures text { OnOk result (AppendsText f.old (printed.value_name (option_copied given.entry) number) f.new) }
    ensures appended { OnErr result (OnlyAppends f.old f.new) }
{
    match given {
        Some(name) => {
            string::push_str(f, name.as_str())?;
            fmt_suffix(number, f)
        }
        None => fmt_led_number("v", number, f),
    }
}

/// Appends `^` and what comes before the place in the name of a block with this label or none: `^a_block` or `^block`.
#[inline(always)]
fn fmt_block_front(label: Option<&Identifier>, f: &mut String) -> Result<(), OutOfMemory>
    ensures text { OnOk result (AppendsText f.old
        (codes "^" ++ printed.prefixed (option_copied label.entry) (codes "block")) f.new) }
    ensures appended { OnErr result (OnlyAppends f.old f.new) }
{
    match label {
        Some(label) => {
            string::push_str(f, "^")?;
            string::push_str(f, label.as_str())?;
            string::push_str(f, "_block")?;
            Ok(())
        }
        None => {
            string::push_str(f, "^block")?;
            Ok(())
        }
    }
}

/// Appends `^` and the name of a block with this label or none, and this place and generation: `^a_block1v1` or `^block1v1`.
#[inline(always)]
fn fmt_placed(
    label: Option<&Identifier>,
    place: u64,
    generation: u32,
    f: &mut String,
) -> Result<(), OutOfMemory>
    ensures text { OnOk result (AppendsText f.old
        (codes "^" ++ printed.block_name (option_copied label.entry) (place, generation)) f.new) }
    ensures appended { OnErr result (OnlyAppends f.old f.new) }
{
    fmt_block_front(label, f)?;
    fmt_number(place, f)?;
    if generation == 1 {
        string::push_str(f, "v1")?;
        return Ok(());
    }
    string::push_str(f, "v")?;
    fmt_number(generation as u64, f)
}

/// Appends the name of a value: `x_v1` if it has a given name, otherwise `v1`. Fails only if out of memory.
pub fn fmt_value_name<T: IrText<A>, A: AttrText<A>>(
    ctx: &Context<T, A>,
    value: Value,
    f: &mut String,
) -> Result<(), OutOfMemory>
    requires { IsDefinedValue ctx.now.graph value }
    ensures text { OnOk result (AppendsText f.old (or_nothing (operand_text ctx.now value)) f.new) }
    ensures appended { OnErr result (OnlyAppends f.old f.new) }
{
    keeps_values(ctx, value);
    fmt_numbered(given_name(ctx, value), ctx.graph().number_of(value), f)
}

/// Appends `^` and the name of a block: `^a_block1v1` if it has a label, otherwise `^block1v1`. Fails only if out of memory.
pub fn fmt_block_label<T: IrText<A>, A: AttrText<A>>(
    ctx: &Context<T, A>,
    p: Ptr<BasicBlock>,
    f: &mut String,
) -> Result<(), OutOfMemory>
    requires { IsSome (block ctx.now p) }
    ensures text { OnOk result (AppendsText f.old (label_text ctx.now p) f.new) }
    ensures appended { OnErr result (OnlyAppends f.old f.new) }
{
    let place = ctx.graph().number_of_place(p);
    fmt_placed(p.label(ctx), place, p.generation(), f)
}
