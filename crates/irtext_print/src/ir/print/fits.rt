//! Which of the keys that the directives of a format name have no attribute in the operation.
ghost use Rattle.std.specs.Prelude.{◌≡◌, option_copied};
ghost use Rattle.irtext_base.specs.FormatViews.{directive_of, directives_of};
ghost use Rattle.irtext_print.specs.Printers.FitFaults as faults;
ghost use Rattle.irtext_grammar.specs.Contexts.Held.{entries_of};

use crate::ir::print::pieces::attribute_under;
use irtext_base::base::Identifier;
use irtext_base::format::Directive;
use irtext_base::text::AttrText;
use irtext_context::base::AttributeDict;

/// Returns the key that a directive names, if no attribute has it.
fn lacking_key<'d, A: AttrText<A>>(
    attributes: &AttributeDict<A>,
    directive: &'d Directive,
) -> Option<&'d Identifier>
    ensures { option_copied result ≡ faults.lacking_key (entries_of attributes.now)
        (directive_of directive.now) }
{
    let Directive::Attr(key) = directive else {
        return None;
    };
    match attribute_under(attributes, key.as_str()) {
        Some(_) => None,
        None => Some(key),
    }
}

/// Returns the first key that a directive names and no attribute has.
pub fn missing_key<'d, A: AttrText<A>>(
    attributes: &AttributeDict<A>,
    directives: &'d [Directive],
) -> Option<&'d Identifier>
    ensures { option_copied result ≡ faults.missing_key (entries_of attributes.now)
        (directives_of directives.now) }
{
    for directive in directives {
        match lacking_key(attributes, directive) {
            Some(key) => return Some(key),
            None => {}
        }
    }
    None
}
