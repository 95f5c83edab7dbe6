//! A message about a text, as a terminal shows it.
ghost use Rattle.std.specs.Prelude.{◌≡◌, Some};
ghost use Rattle.irtext_diagnostics.specs.Messages.{word_of, colour_of, begin_bytes, end_bytes, without_newline, origin_bytes};
ghost use Rattle.irtext_diagnostics.specs.Messages.{excerpt_lines, heading_bytes, styled_bytes};

use irtext_excerpt::{Excerpt, Lead, Shown, ShownLines};
use std::fmt;

/// How grave a message is.
#[derive(Clone, Copy, Debug, PartialEq, Eq)]
pub enum Severity {
    /// A text is rejected, or a call failed.
    Error,
    /// A text is accepted, and something in it is perhaps not meant.
    Warning,
    /// More about the message before.
    Note,
}

impl Severity {
    /// Returns its word: `error`, `warning` or `note`.
    pub fn word(self) -> &'static str
        ensures { result.now ≡ word_of self }
    {
        match self {
            Severity::Error => "error",
            Severity::Warning => "warning",
            Severity::Note => "note",
        }
    }
}

/// Whether a message is written with the colours of a terminal. The caller decides: usually colours for a terminal, and none if the
/// environment has a variable `NO_COLOR` that is not empty.
#[derive(Clone, Copy, Debug, PartialEq, Eq)]
pub enum Style {
    /// Without colours.
    Plain,
    /// The place bold, `error:` red, `warning:` magenta, `note:` cyan, and the caret green.
    Coloured,
}

/// A message about a text.
#[derive(Clone, Copy, Debug)]
pub struct Diagnostic<'a> {
    /// How grave it is.
    pub severity: Severity,
    /// The path of the file that the text is from, or another name of it.
    pub path: &'a str,
    /// The text, and the position in it that the message is about.
    pub place: Option<Excerpt<'a>>,
    /// What is said: one line or several. One newline at its end is left out.
    pub message: &'a str,
}

impl<'a> Diagnostic<'a> {
    /// Returns the message in a style, as a `Display`.
    pub fn styled(self, style: Style) -> Styled<'a>
        ensures { result ≡ record { diagnostic = self.entry; style = style } }
    {
        Styled {
            diagnostic: self,
            style,
        }
    }
}

/// A message in a style, as a `Display`:
///
/// ```text
/// loop.ir:4:5: error: Unexpected `t`, expected `}`
///     test.use x
///     ^
/// ```
///
/// with a newline at the end. Without a place it is the first line alone, without `:4:5`. Notes are messages of their own, written after.
///
/// Characters of the path and the message that do not print are shown by their codes, as an excerpt shows them, so that a terminal takes
/// nothing in them for a command. Writing it allocates nothing, and fails only if the writer does.
#[derive(Clone, Copy, Debug)]
pub struct Styled<'a> {
    /// The message.
    pub diagnostic: Diagnostic<'a>,
    /// Its style.
    pub style: Style,
}

impl fmt::Display for Styled<'_> {
    ghost output = { λ s. Some (styled_bytes s.style s.diagnostic.severity s.diagnostic.path.now s.diagnostic.place s.diagnostic.message.now) };

    fn fmt<W: fmt::Write>(&self, f: &mut fmt::Formatter<W>) -> fmt::Result {
        let heading = Heading { styled: *self };
        let message = ShownLines {
            text: without_newline(self.diagnostic.message),
        };
        let lines = ExcerptLines {
            place: self.diagnostic.place,
            style: self.style,
        };
        write!(f, "{heading}{message}\n{lines}")
    }
}

/// A message without a newline at its end, if it has one.
pub(crate) fn without_newline(message: &str) -> &str
    ensures { result.now ≡ without_newline message.now }
{
    match message.strip_suffix('\n') {
        Some(text) => text,
        None => message,
    }
}

/// The path of a message and its position.
#[derive(Drop)]
struct Origin<'a> {
    path: &'a str,
    place: Option<Excerpt<'a>>,
}

impl fmt::Display for Origin<'_> {
    ghost output = { λ o. Some (origin_bytes o.path.now o.place) };

    fn fmt<W: fmt::Write>(&self, f: &mut fmt::Formatter<W>) -> fmt::Result {
        let path = Shown { text: self.path };
        match self.place {
            Some(excerpt) => {
                let line = excerpt.position.line;
                let column = excerpt.position.column;
                write!(f, "{path}:{line}:{column}:")
            }
            None => write!(f, "{path}:"),
        }
    }
}

/// What stands before the text of a message.
#[derive(Drop)]
struct Heading<'a> {
    styled: Styled<'a>,
}

impl fmt::Display for Heading<'_> {
    ghost output = { λ h. let d = h.styled.diagnostic in Some (heading_bytes h.styled.style d.severity d.path.now d.place) };

    fn fmt<W: fmt::Write>(&self, f: &mut fmt::Formatter<W>) -> fmt::Result {
        let Styled { diagnostic, style } = self.styled;
        let origin = Origin {
            path: diagnostic.path,
            place: diagnostic.place,
        };
        let bold = begin(style, "\x1b[1m");
        let colour = begin(style, colour_of(diagnostic.severity));
        let word = diagnostic.severity.word();
        let end = end(style);
        write!(f, "{bold}{origin}{end} ")?;
        write!(f, "{colour}{word}:{end} ")
    }
}

/// The sequence that begins the colour of a severity.
fn colour_of(severity: Severity) -> &'static str
    ensures { result.now ≡ colour_of severity }
{
    match severity {
        Severity::Error => "\x1b[1;31m",
        Severity::Warning => "\x1b[1;35m",
        Severity::Note => "\x1b[1;36m",
    }
}

/// This sequence of a terminal, if there are colours.
fn begin(style: Style, sequence: &'static str) -> &'static str
    ensures { result.now ≡ begin_bytes style sequence.now }
{
    match style {
        Style::Plain => "",
        Style::Coloured => sequence,
    }
}

/// The sequence that ends a colour, if there are colours.
fn end(style: Style) -> &'static str
    ensures { result.now ≡ end_bytes style }
{
    begin(style, "\x1b[0m")
}

/// The lines of an excerpt, if there is one.
#[derive(Drop)]
struct ExcerptLines<'a> {
    place: Option<Excerpt<'a>>,
    style: Style,
}

impl fmt::Display for ExcerptLines<'_> {
    ghost output = { λ e. Some (excerpt_lines e.style e.place) };

    fn fmt<W: fmt::Write>(&self, f: &mut fmt::Formatter<W>) -> fmt::Result {
        match self.place {
            Some(excerpt) => {
                let lead = Lead { excerpt };
                let green = begin(self.style, "\x1b[1;32m");
                let end = end(self.style);
                write!(f, "{lead}{green}^{end}\n")
            }
            None => Ok(()),
        }
    }
}
