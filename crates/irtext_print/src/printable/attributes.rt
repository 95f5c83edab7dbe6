//! The texts of attributes.
ghost use Rattle.std.specs.Prelude.{OnOk, OnErr, map};
ghost use Rattle.irtext_base.specs.Appending.{OnlyAppends};
ghost use Rattle.irtext_print.specs.Printers.Appended.{AppendsText};
ghost use Rattle.irtext_base.specs.Locations.{attr_view};
ghost use Rattle.irtext_grammar.specs.Spelling.AttrText.{attr_text};
ghost use Rattle.irtext_grammar.specs.Spelling.Spell.{joined, comma, or_question};

use irtext_base::base::{AttrObj, Identifier};
use irtext_base::text::AttrText;
use irtext_memory::{OutOfMemory, string};

/// Appends a given name, or `?` if there is none.
#[inline(always)]
fn fmt_name(name: &Option<Identifier>, f: &mut String) -> Result<(), OutOfMemory>
    ensures text { OnOk result (AppendsText f.old (or_question name.now) f.new) }
    ensures appended { OnErr result (OnlyAppends f.old f.new) }
{
    match name {
        Some(name) => string::push_str(f, name.as_str())?,
        None => string::push_str(f, "?")?,
    }
    Ok(())
}

/// Appends given names with `, ` between them.
#[inline(always)]
fn fmt_names(names: &[Option<Identifier>], f: &mut String) -> Result<(), OutOfMemory>
    ensures text { OnOk result (AppendsText f.old (joined comma (map or_question names.now)) f.new) }
    ensures appended { OnErr result (OnlyAppends f.old f.new) }
{
    let Some((first, rest)) = names.split_first() else {
        return Ok(());
    };
    fmt_name(first, f)?;
    for name in rest {
        string::push_str(f, ", ")?;
        fmt_name(name, f)?;
    }
    Ok(())
}

/// Appends the text of an attribute: `builtin.identifier b`, `builtin.given_names [x, ?]`, or the caller's text. Fails only if out of
/// memory; what was appended up to the error remains.
pub fn fmt_attr<A: AttrText<A>>(attr: &AttrObj<A>, f: &mut String) -> Result<(), OutOfMemory>
    ensures text { OnOk result (AppendsText f.old (attr_text A.IrText.written (attr_view attr.now)) f.new) }
    ensures appended { OnErr result (OnlyAppends f.old f.new) }
{
    match attr {
        AttrObj::GivenNames(names) => {
            string::push_str(f, "builtin.given_names [")?;
            fmt_names(names, f)?;
            string::push_str(f, "]")?;
            Ok(())
        }
        AttrObj::Ident(name) => {
            string::push_str(f, "builtin.identifier ")?;
            string::push_str(f, name.as_str())?;
            Ok(())
        }
        AttrObj::Own(own) => own.write_text(f),
    }
}
