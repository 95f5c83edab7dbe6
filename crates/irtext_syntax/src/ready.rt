//! Fixed texts and brackets that are ready to be used.
ghost use Rattle.std.specs.Prelude.{codes, ◌++◌};
ghost use Rattle.irtext_syntax.specs.ListParts.{comma_in_angle, comma_in_round, comma_in_square, comma_in_curly};
ghost use Rattle.irtext_syntax.specs.ReadyTexts.{colon_law, comma_law, arrow_law, spaced_arrow_law, angle_law, round_law, square_law, curly_law, closing_colon, closing_comma};

use crate::fixed::{After, Between, Brackets};
use crate::list::Separated;
use crate::part::{Closed, Last, Part};

/// `:`, printed as `: `.
pub struct Colon;

impl Between for Colon {
    ghost text = { codes ":" };

    ghost printed = { codes ": " };

    ghost law = { colon_law };

    fn text() -> &'static str {
        ":"
    }

    fn printed() -> &'static str {
        ": "
    }
}

impl<A, P: Part<A>> After<A, P> for Colon {
    ghost after = { λ rest. P.sound.law.closed (codes ": " ++ rest) (closing_colon rest) };
}

/// `,`, printed as `, `.
pub struct Comma;

impl Between for Comma {
    ghost text = { codes "," };

    ghost printed = { codes ", " };

    ghost law = { comma_law };

    fn text() -> &'static str {
        ","
    }

    fn printed() -> &'static str {
        ", "
    }
}

impl<A, P: Part<A>> After<A, P> for Comma {
    ghost after = { λ rest. P.sound.law.closed (codes ", " ++ rest) (closing_comma rest) };
}

/// `->`, printed without spaces. It can come after a part that is complete in itself, such as one in brackets.
pub struct Arrow;

impl Between for Arrow {
    ghost text = { codes "->" };

    ghost printed = { codes "->" };

    ghost law = { arrow_law };

    fn text() -> &'static str {
        "->"
    }

    fn printed() -> &'static str {
        "->"
    }
}

impl<A, P: Closed<A>> After<A, P> for Arrow {
    ghost after = { λ rest. P.closed (codes "->" ++ rest) };
}

/// `->`, printed as ` -> `. It can come after every part that can end a text.
pub struct SpacedArrow;

impl Between for SpacedArrow {
    ghost text = { codes "->" };

    ghost printed = { codes " -> " };

    ghost law = { spaced_arrow_law };

    fn text() -> &'static str {
        "->"
    }

    fn printed() -> &'static str {
        " -> "
    }
}

impl<A, P: Last<A>> After<A, P> for SpacedArrow {
    ghost use Rattle.std.specs.Prelude.{refl};
    ghost use Rattle.irtext_syntax.specs.ReadyTexts.{ends_spaced};

    ghost after = { λ rest. P.last.anywhere (codes " -> " ++ rest) (ends_spaced (codes "-> " ++ rest)) };
}

/// `<` and `>`.
pub struct Angle;

impl Brackets for Angle {
    ghost opener = { codes "<" };

    ghost closer = { codes ">" };

    ghost opener_printed = { codes "<" };

    ghost closer_printed = { codes ">" };

    ghost law = { angle_law };

    fn opening() -> &'static str {
        "<"
    }

    fn closing() -> &'static str {
        ">"
    }

    fn printed_opening() -> &'static str {
        "<"
    }

    fn printed_closing() -> &'static str {
        ">"
    }
}

impl Separated for Angle {
    ghost separator = { 44 };

    ghost separates = { comma_in_angle };

    fn separator() -> char {
        ','
    }
}

/// `(` and `)`.
pub struct Round;

impl Brackets for Round {
    ghost opener = { codes "(" };

    ghost closer = { codes ")" };

    ghost opener_printed = { codes "(" };

    ghost closer_printed = { codes ")" };

    ghost law = { round_law };

    fn opening() -> &'static str {
        "("
    }

    fn closing() -> &'static str {
        ")"
    }

    fn printed_opening() -> &'static str {
        "("
    }

    fn printed_closing() -> &'static str {
        ")"
    }
}

impl Separated for Round {
    ghost separator = { 44 };

    ghost separates = { comma_in_round };

    fn separator() -> char {
        ','
    }
}

/// `[` and `]`.
pub struct Square;

impl Brackets for Square {
    ghost opener = { codes "[" };

    ghost closer = { codes "]" };

    ghost opener_printed = { codes "[" };

    ghost closer_printed = { codes "]" };

    ghost law = { square_law };

    fn opening() -> &'static str {
        "["
    }

    fn closing() -> &'static str {
        "]"
    }

    fn printed_opening() -> &'static str {
        "["
    }

    fn printed_closing() -> &'static str {
        "]"
    }
}

impl Separated for Square {
    ghost separator = { 44 };

    ghost separates = { comma_in_square };

    fn separator() -> char {
        ','
    }
}

/// `{` and `}`, printed with a space inside of each.
pub struct Curly;

impl Brackets for Curly {
    ghost opener = { codes "{" };

    ghost closer = { codes "}" };

    ghost opener_printed = { codes "{ " };

    ghost closer_printed = { codes " }" };

    ghost law = { curly_law };

    fn opening() -> &'static str {
        "{"
    }

    fn closing() -> &'static str {
        "}"
    }

    fn printed_opening() -> &'static str {
        "{ "
    }

    fn printed_closing() -> &'static str {
        " }"
    }
}

impl Separated for Curly {
    ghost separator = { 44 };

    ghost separates = { comma_in_curly };

    fn separator() -> char {
        ','
    }
}
