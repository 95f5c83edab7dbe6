//! Errors as they are written: what went wrong with an input, a text or an output, as diagnostics.
//!
//! A call that writes returns whether the errors took all of it. Memory that runs out changes no error into another one: the text of an
//! error is written in pieces where there is no room for the whole, and a message that cannot be made gives way to a shorter one.
ghost use Rattle.std.specs.Prelude.{◌≡◌, ◌++◌, Some, None, [], codes, OnOk, IfOk, IfSome, string_bytes, ℕ, List};
ghost use Rattle.std.specs.Fmt.{WritesOnOk};
ghost use Rattle.std.specs.Io.KnownBytes.{Appends};
ghost use Rattle.std.specs.IoError.{error_kind};
ghost use Rattle.std.specs.declared.io.ErrorKind.TheVariants.{BrokenPipe};
ghost use Rattle.irtext_diagnostics.specs.declared.messages.Severity.TheVariants as severity;
ghost use Rattle.irtext_tool.specs.Reports.{note_bytes, notes_bytes, report_bytes, said_bytes};
ghost use Rattle.irtext_tool.specs.Told.{made_or, HasDetail, IsPlaced, Writes, IsAbout, IsMemory};
ghost use Rattle.irtext_tool.specs.Told.{TellsNotUtf8, TellsInput, TellsMisfit, TellsOutput};

use crate::about::{Form, STANDARD_OUTPUT};
use crate::hints::hint_for_key;
use irtext_base::parsable::SourcePosition;
use irtext_diagnostics::{Diagnostic, JsonLine, Severity, Style, invalid_utf8};
use irtext_excerpt::Excerpt;
use irtext_formatter::input::InputFault;
use irtext_formatter::misfit::Misfit;
use std::alloc::{AllocError, Global};
use std::fmt::Display;
use std::io::Write;
use std::{fmt, io};

/// Where errors are said to be, and how they are written.
#[derive(Clone, Copy)]
pub struct Scene<'a> {
    /// The file, as it was named.
    pub path: &'a str,
    /// The form.
    pub form: Form,
}

/// An error: the diagnostic, a word for its cause, the name that it is about, and its notes.
#[derive(Clone, Copy)]
pub struct Report<'a> {
    pub diagnostic: Diagnostic<'a>,
    pub cause: &'a str,
    pub name: Option<&'a str>,
    pub notes: &'a [Diagnostic<'a>],
}

/// Returns a diagnostic about a file as a whole, or about a place in it.
pub fn diagnostic<'a>(
    severity: Severity,
    path: &'a str,
    place: Option<Excerpt<'a>>,
    message: &'a str,
) -> Diagnostic<'a> {
    Diagnostic {
        severity,
        path,
        place,
        message,
    }
}

/// Returns the place of a position in a text, if there is one.
pub fn place_in<'a>(text: &'a str, position: Option<SourcePosition>) -> Option<Excerpt<'a>>
    ensures { IsPlaced text.now position result }
{
    match position {
        Some(position) => Some(Excerpt { text, position }),
        None => None,
    }
}

/// Returns a text that was made, if there was memory for it.
fn made(text: &Result<String, AllocError>) -> Option<&str> {
    match text {
        Ok(text) => Some(text.as_str()),
        Err(AllocError) => None,
    }
}

/// Returns a text that was made, or another one if there was no memory for it.
pub fn made_or<'a>(made: &'a Result<String, AllocError>, otherwise: &'a str) -> &'a str
    ensures { result.now ≡ made_or made.now otherwise.now }
{
    match made {
        Ok(text) => text.as_str(),
        Err(AllocError) => otherwise,
    }
}

/// An error in a form, as a `Display`.
#[derive(Clone, Copy)]
struct Written<'a> {
    form: Form,
    report: Report<'a>,
}

impl Display for Written<'_> {
    ghost output = { λ w. Some (report_bytes w.form w.report) };

    fn fmt<W: fmt::Write>(&self, f: &mut fmt::Formatter<W>) -> fmt::Result {
        let Report {
            diagnostic,
            cause,
            name,
            notes,
        } = self.report;
        match self.form {
            Form::Json => {
                let line = JsonLine {
                    diagnostic,
                    cause,
                    name,
                    notes,
                };
                write!(f, "{line}")
            }
            Form::Text(style) => {
                let first = diagnostic.styled(style);
                write!(f, "{first}")?;
                fmt_notes(style, notes, f)
            }
        }
    }
}

/// Appends notes, one after the other.
fn fmt_notes<W: fmt::Write>(
    style: Style,
    notes: &[Diagnostic<'_>],
    f: &mut fmt::Formatter<W>,
) -> fmt::Result
    ensures { WritesOnOk W.write_str_gives f.old result (notes_bytes style notes.now) f.new }
{
    for note in notes {
        fmt_note(style, note, f)?;
    }
    Ok(())
}

/// Appends a note.
fn fmt_note<W: fmt::Write>(
    style: Style,
    note: &Diagnostic<'_>,
    f: &mut fmt::Formatter<W>,
) -> fmt::Result
    ensures { WritesOnOk W.write_str_gives f.old result (note_bytes style note.now) f.new }
{
    let note = note.styled(style);
    write!(f, "{note}")
}

/// Writes an error with its notes, at once if there is memory for its text. On an error of the writer a part of it may have been written.
pub fn write_report<E: Write>(
    alloc: Global,
    errors: &mut E,
    form: Form,
    report: &Report<'_>,
) -> io::Result<()>
    ensures { OnOk result (Appends (E.contents errors.old) (E.contents errors.new) (report_bytes form report.now)) }
{
    let written = Written {
        form,
        report: *report,
    };
    match format!(in alloc; "{written}") {
        Ok(text) => errors.write_all(text.as_bytes()),
        Err(AllocError) => write!(errors, "{written}"),
    }
}

/// Writes an error about a file as a whole.
pub fn report_file<'a, E: Write>(
    alloc: Global,
    errors: &mut E,
    scene: Scene<'a>,
    cause: &'a str,
    message: &'a str,
) -> io::Result<()>
    ensures { OnOk result (Appends (E.contents errors.old) (E.contents errors.new)
        (said_bytes scene.entry.form severity.Error scene.entry.path.now None message.now cause.now None [])) }
{
    let report = Report {
        diagnostic: Diagnostic {
            severity: Severity::Error,
            path: scene.path,
            place: None,
            message,
        },
        cause,
        name: None,
        notes: &[],
    };
    write_report(alloc, errors, scene.form, &report)
}

/// Writes that memory ran out.
pub fn report_memory<E: Write>(alloc: Global, errors: &mut E, scene: Scene<'_>) -> io::Result<()>
    ensures { OnOk result (Writes (E.contents errors.old) (E.contents errors.new) (IsMemory scene.entry.form scene.entry.path.now)) }
{
    report_file(alloc, errors, scene, "memory", "out of memory")
}

/// Returns a sentence, and what it is about after a colon.
fn detailed<D: Display>(alloc: Global, sentence: &str, detail: &D) -> Result<String, AllocError>
    ensures { IfOk result (λ made. (text : List ℕ) × IfSome (D.output detail.now) (λ d. text ≡ d)
        × (string_bytes made ≡ sentence.now ++ (codes ": " ++ text))) }
{
    let detail = format!(in alloc; "{detail}")?;
    format!(in alloc; "{sentence}: {detail}")
}

/// Writes an error about a file as a whole: a sentence, and what it is about if there is memory for that.
pub fn report_detail<D: Display, E: Write>(
    alloc: Global,
    errors: &mut E,
    scene: Scene<'_>,
    cause: &str,
    sentence: &str,
    detail: &D,
) -> io::Result<()>
    ensures { OnOk result (Writes (E.contents errors.old) (E.contents errors.new)
        (IsAbout scene.entry.form scene.entry.path.now cause.now (HasDetail sentence.now (D.output detail.now)))) }
{
    let message = detailed(alloc, sentence, detail);
    report_file(alloc, errors, scene, cause, made_or(&message, sentence))
}

/// Writes that bytes are not UTF-8, and where.
fn report_bytes<E: Write>(
    alloc: Global,
    errors: &mut E,
    scene: Scene<'_>,
    bytes: &[u8],
) -> io::Result<()>
    ensures { OnOk result (Writes (E.contents errors.old) (E.contents errors.new)
        (TellsNotUtf8 scene.entry.form scene.entry.path.now bytes.now)) }
{
    let sentence = "the text is not UTF-8";
    let Some(found) = invalid_utf8(bytes) else {
        return report_file(alloc, errors, scene, "not-utf8", sentence);
    };
    let byte = found.byte;
    let message = format!(in alloc; "the text is not UTF-8: byte 0x{byte:x}");
    let place = place_in(found.valid, Some(found.position));
    let report = Report {
        diagnostic: Diagnostic {
            severity: Severity::Error,
            path: scene.path,
            place,
            message: made_or(&message, sentence),
        },
        cause: "not-utf8",
        name: None,
        notes: &[],
    };
    write_report(alloc, errors, scene.form, &report)
}

/// Writes why no text was read.
pub fn report_input<E: Write>(
    alloc: Global,
    errors: &mut E,
    scene: Scene<'_>,
    fault: &InputFault,
) -> io::Result<()>
    ensures { OnOk result (Writes (E.contents errors.old) (E.contents errors.new)
        (TellsInput scene.entry.form scene.entry.path.now fault.now)) }
{
    match fault {
        InputFault::Memory => report_memory(alloc, errors, scene),
        InputFault::Unreadable(error) => report_unreadable(alloc, errors, scene, error),
        InputFault::NotUtf8 { bytes } => report_bytes(alloc, errors, scene, bytes.as_slice()),
    }
}

/// Writes that a file cannot be read, and why.
pub fn report_unreadable<E: Write>(
    alloc: Global,
    errors: &mut E,
    scene: Scene<'_>,
    error: &io::Error,
) -> io::Result<()>
    ensures { OnOk result (Writes (E.contents errors.old) (E.contents errors.new)
        (IsAbout scene.entry.form scene.entry.path.now (codes "unreadable") (HasDetail (codes "cannot be read") None))) }
{
    report_detail(alloc, errors, scene, "unreadable", "cannot be read", error)
}

/// Writes that a file cannot be written, and why.
pub fn report_unwritable<E: Write>(
    alloc: Global,
    errors: &mut E,
    scene: Scene<'_>,
    error: &io::Error,
) -> io::Result<()>
    ensures { OnOk result (Writes (E.contents errors.old) (E.contents errors.new)
        (IsAbout scene.entry.form scene.entry.path.now (codes "unwritable") (HasDetail (codes "cannot be written") None))) }
{
    report_detail(
        alloc,
        errors,
        scene,
        "unwritable",
        "cannot be written",
        error,
    )
}

/// Writes that standard output cannot be written, and why. Of a pipe whose reader is gone nothing is said: nobody looks at the output.
pub fn report_output<E: Write>(
    alloc: Global,
    errors: &mut E,
    form: Form,
    error: &io::Error,
) -> io::Result<()>
    ensures told { OnOk result (Writes (E.contents errors.old) (E.contents errors.new) (TellsOutput form error.now)) }
    ensures silent { error_kind error.now ≡ BrokenPipe → errors.new ≡ errors.old }
{
    match error.kind() {
        io::ErrorKind::BrokenPipe => Ok(()),
        _ => {
            let scene = Scene {
                path: STANDARD_OUTPUT,
                form,
            };
            report_unwritable(alloc, errors, scene, error)
        }
    }
}

/// Writes which operation does not fit its format, where its location says that it is, and why; and, if there is memory for it, which key
/// was perhaps meant.
pub fn report_misfit<E: Write>(
    alloc: Global,
    errors: &mut E,
    scene: Scene<'_>,
    text: &str,
    misfit: &Misfit,
) -> io::Result<()>
    ensures { OnOk result (Writes (E.contents errors.old) (E.contents errors.new)
        (TellsMisfit scene.entry.form scene.entry.path.now text.now misfit.now)) }
{
    let name = format!(in alloc; "{}", misfit.id);
    let message = format!(in alloc;
        "Operation {} does not fit its format: {}",
        misfit.id, misfit.reason
    );
    let place = place_in(text, misfit.position);
    let message = made_or(&message, "an operation does not fit its format");
    let hint = misfit
        .mistaken
        .as_ref()
        .and_then(|mistaken| hint_for_key(alloc, mistaken).ok());
    let note = hint.as_ref().map(|hint| Diagnostic {
        severity: Severity::Note,
        path: scene.path,
        place: None,
        message: hint.as_str(),
    });
    let report = Report {
        diagnostic: Diagnostic {
            severity: Severity::Error,
            path: scene.path,
            place,
            message,
        },
        cause: "misfit",
        name: made(&name),
        notes: note.as_slice(),
    };
    write_report(alloc, errors, scene.form, &report)
}
