//! The brackets before holes in the texts of the dialect `llvm`: an opening bracket, and the fixed text after the part.
ghost use Rattle.std.specs.Prelude.{codes};
ghost use Rattle.irtext_llvm.specs.Brackets.{angle_comma_law};

use irtext_syntax::fixed::Brackets;

/// `<` and `,`.
pub struct AngleComma;

impl Brackets for AngleComma {
    ghost opener = { codes "<" };

    ghost closer = { codes "," };

    ghost opener_printed = { codes "<" };

    ghost closer_printed = { codes "," };

    ghost law = { angle_comma_law };

    fn opening() -> &'static str {
        "<"
    }

    fn closing() -> &'static str {
        ","
    }

    fn printed_opening() -> &'static str {
        "<"
    }

    fn printed_closing() -> &'static str {
        ","
    }
}
