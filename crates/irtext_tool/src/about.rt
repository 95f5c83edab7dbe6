//! What a program is called, and how it shows errors.
ghost use Rattle.std.specs.Prelude.{◌≡◌};
ghost use Rattle.irtext_tool.specs.Styles.{style_of};

use irtext_diagnostics::Style;

/// The name of standard input in errors.
pub const STANDARD_INPUT: &'static str = "<stdin>";

/// The name of standard output in errors.
pub const STANDARD_OUTPUT: &'static str = "<stdout>";

/// What a program says of itself.
#[derive(Clone, Copy)]
pub struct About<'a> {
    /// Its name, as it is called on a command line.
    pub name: &'a str,
    /// Its version, as `0.1.0`.
    pub version: &'a str,
    /// Whether errors are coloured where the words of the command line do not say: they go to a terminal, and `NO_COLOR` is not set.
    pub coloured: bool,
}

/// The form of errors.
#[derive(Clone, Copy)]
pub enum Form {
    /// Lines for people and for editors, in colour or not.
    Text(Style),
    /// A JSON object on a line for each error.
    Json,
}

/// Returns the style that is coloured or not.
pub fn style_of(coloured: bool) -> Style
    ensures { result ≡ style_of coloured }
{
    if coloured {
        Style::Coloured
    } else {
        Style::Plain
    }
}
