//! Which formats of operations can be parsed in one way only.
ghost use Rattle.std.specs.Prelude.{◌≡◌, MatchResult};
ghost use Rattle.irtext_base.specs.Format.{first_fault};
ghost use Rattle.irtext_base.specs.FormatViews.{format_of};
ghost use Rattle.irtext_format_check.specs.Directives.{condition_number};

mod conditions;
mod followers;
pub mod parts;
mod rules;

use irtext_base::format::{FormatFault, OpFormat};

/// Checks that the texts of a format can be parsed in one way only. `Canonical` always passes. For directives, the error is the first of
/// the conditions `C1` to `C8` that they fail. Allocates nothing.
pub fn check_format(format: &OpFormat) -> Result<(), FormatFault>
    ensures { MatchResult result (λ _. first_fault (format_of format.now) ≡ 0)
        (λ fault. first_fault (format_of format.now) ≡ condition_number fault) }
{
    match format {
        OpFormat::Canonical => Ok(()),
        OpFormat::Custom(directives) => conditions::check(directives),
    }
}
