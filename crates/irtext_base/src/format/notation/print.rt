//! Prints keys and lists of directives.
ghost use Rattle.std.specs.Prelude.{◌++◌, codes, flat_map};
ghost use Rattle.std.specs.Fmt.{WritesOnOk};
ghost use Rattle.std.specs.List.{join_by};
ghost use Rattle.std.specs.Str.{encode_utf8_all};
ghost use Rattle.irtext_base.specs.FormatViews.{directives_of};
ghost use Rattle.irtext_base.specs.Notation.{directive_text, spaced_bytes};

use crate::base::Identifier;
use crate::format::Directive;
use std::fmt;

/// Writes the key of an attribute, after a `$`.
pub(super) fn fmt_key<W: fmt::Write>(key: &Identifier, f: &mut fmt::Formatter<W>) -> fmt::Result
    ensures { WritesOnOk W.write_str_gives f.old result (encode_utf8_all (codes "$" ++ key.now)) f.new }
{
    f.write_str("$")?;
    f.write_str(key.as_str())
}

/// Writes directives, with a space before each.
fn fmt_more<W: fmt::Write>(directives: &[Directive], f: &mut fmt::Formatter<W>) -> fmt::Result
    ensures { WritesOnOk W.write_str_gives f.old result (flat_map spaced_bytes directives.now) f.new }
{
    for d in directives {
        write!(f, " {d}")?;
    }
    Ok(())
}

/// Writes directives, with a space between them.
pub(super) fn fmt_directives<W: fmt::Write>(
    directives: &[Directive],
    f: &mut fmt::Formatter<W>,
) -> fmt::Result
    ensures { WritesOnOk W.write_str_gives f.old result
        (encode_utf8_all (join_by directive_text (codes " ") (directives_of directives.now))) f.new }
{
    let Some((first, rest)) = directives.split_first() else {
        return Ok(());
    };
    write!(f, "{first}")?;
    fmt_more(rest, f)
}
