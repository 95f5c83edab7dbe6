//! The number of steps of a format.
ghost use Rattle.std.specs.Prelude.{◌≡◌, length};
ghost use Rattle.irtext_base.specs.FormatViews.{format_of};
ghost use Rattle.irtext_grammar.specs.Heads.{steps_of};

use irtext_base::format::OpFormat;

/// The number of steps of the canonical form.
const CANONICAL: usize = 18;

/// Returns the number of steps of a format: its directives, or the steps of the canonical form.
pub fn step_count(format: &OpFormat) -> usize
    ensures { result ≡ length (steps_of (format_of format.now)) }
{
    match format {
        OpFormat::Canonical => CANONICAL,
        OpFormat::Custom(directives) => directives.len(),
    }
}
