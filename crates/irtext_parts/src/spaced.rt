//! More fixed texts between two parts: printed with spaces, they can come after every part that can end a text.
ghost use Rattle.std.specs.Prelude.{codes, ◌++◌};
ghost use Rattle.irtext_parts.specs.SpacedTexts.{equals_law, times_law, blank_law};

use irtext_syntax::fixed::{After, Between};
use irtext_syntax::part::Last;

/// `=`, printed as ` = `.
pub struct Equals;

impl Between for Equals {
    ghost text = { codes "=" };

    ghost printed = { codes " = " };

    ghost law = { equals_law };

    fn text() -> &'static str {
        "="
    }

    fn printed() -> &'static str {
        " = "
    }
}

impl<A, P: Last<A>> After<A, P> for Equals {
    ghost use Rattle.irtext_syntax.specs.ReadyTexts.{ends_spaced};

    ghost after = { λ rest. P.last.anywhere (codes " = " ++ rest) (ends_spaced (codes "= " ++ rest)) };
}

/// `x`, printed as ` x `, as in `4 x i32`.
pub struct Times;

impl Between for Times {
    ghost text = { codes "x" };

    ghost printed = { codes " x " };

    ghost law = { times_law };

    fn text() -> &'static str {
        "x"
    }

    fn printed() -> &'static str {
        " x "
    }
}

impl<A, P: Last<A>> After<A, P> for Times {
    ghost use Rattle.irtext_syntax.specs.ReadyTexts.{ends_spaced};

    ghost after = { λ rest. P.last.anywhere (codes " x " ++ rest) (ends_spaced (codes "x " ++ rest)) };
}

/// One space. When a text is parsed, other white space or none is accepted in its place.
pub struct Blank;

impl Between for Blank {
    ghost text = { codes "" };

    ghost printed = { codes " " };

    ghost law = { blank_law };

    fn text() -> &'static str {
        ""
    }

    fn printed() -> &'static str {
        " "
    }
}

impl<A, P: Last<A>> After<A, P> for Blank {
    ghost use Rattle.irtext_syntax.specs.ReadyTexts.{ends_spaced};

    ghost after = { λ rest. P.last.anywhere (codes " " ++ rest) (ends_spaced rest) };
}
