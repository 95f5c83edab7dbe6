//! All rejected roots of a text: each is reported once, and the root after it is sought.
ghost use Rattle.std.specs.Prelude.{◌≡◌, OnOk};
ghost use Rattle.irtext_formatter.specs.Stands.{IsReady};
ghost use Rattle.irtext_tool.specs.Told.{Writes, WritesMore, TellsRejection, TellsRejected};

use crate::hints::hint_for;
use crate::report::{Report, Scene, diagnostic, made_or, place_in, report_memory, write_report};
use crate::second_look::{RejectedRoot, stream_at};
use irtext_base::parsable::{
    ParseFault, ParserNameTrackerError, Place, SourcePosition, UnresolvedReference,
};
use irtext_base::result::Cause;
use irtext_base::text::{AttrText, IrText};
use irtext_context::base::Context;
use irtext_diagnostics::{Diagnostic, Severity, cause_name, cause_word, innermost};
use irtext_excerpt::Excerpt;
use irtext_formatter::roots::Roots;
use irtext_stream::class::Class;
use std::alloc::{AllocError, Global};
use std::io;
use std::io::Write;

/// How many errors are reported of a file at most.
pub const MOST_ERRORS: usize = 100;

/// What is said after them.
const LIMIT: &'static str =
    "these are the first 100 errors; the rest of the file was not looked at";

/// What is said where the next root is not found.
const UNREAD: &'static str = "the rest of the file was not looked at";

/// A root that is found to be rejected.
#[derive(Drop)]
struct Found<A> {
    /// Where it begins.
    begin: SourcePosition,
    fault: ParseFault<A>,
}

/// A root that was rejected.
#[derive_where(Clone, Copy)]
struct Rejection<'f, A> {
    /// Where it begins.
    begin: SourcePosition,
    fault: &'f ParseFault<A>,
}

/// Where the root after a rejected one begins.
#[derive(Clone, Copy)]
enum Next {
    /// Not before this position.
    From(SourcePosition),
    /// That is not known.
    Unknown,
}

/// Parses roots up to one that is rejected, and returns where that begins, and why it is rejected. Each root is erased before the next is
/// parsed.
fn rejection_of<T: IrText<A>, A: AttrText<A>>(
    roots: &mut Roots<'_, T, A>,
) -> Option<(Place, ParseFault<A>)>
    requires { IsReady roots.old }
    ensures lent { roots.new.stream.state.ctx.ghost_name ≡ roots.old.stream.state.ctx.ghost_name }
{
    for _turn in 0..u64::MAX {
        if !roots.is_left() {
            return None;
        }
        match roots.parse_root() {
            Ok(_) => roots.erase(),
            Err(fault) => return Some((roots.begin(), fault)),
        }
    }
    None
}

/// Parses the roots of a text from a position on, up to one that is rejected.
fn next_rejection<T: IrText<A>, A: AttrText<A>>(
    ctx: &mut Context<T, A>,
    text: &str,
    from: SourcePosition,
) -> Result<Option<Found<A>>, AllocError> {
    let places = stream_at(ctx.allocator(), text, from)?;
    let stream = stream_at(ctx.allocator(), text, from)?;
    let mut roots = Roots::new(ctx, stream);
    let found = rejection_of(&mut roots);
    let _ctx = roots.into_context();
    Ok(found.map(|(begin, fault)| Found {
        begin: places.locate(begin),
        fault,
    }))
}

/// Whether a text is names with commas between, as stand before the `=` of an operation.
fn are_names(text: &str) -> bool {
    text.split(',').all(|name| is_name(name.trim()))
}

/// Whether a text is an identifier.
fn is_name(text: &str) -> bool {
    text.chars().all(|c| Class::Word.has(c))
        && text.chars().take(1).any(|c| Class::Beginning.has(c))
}

/// Returns the dotted word that a text begins with.
fn first_word(text: &str) -> &str {
    match text.split_once(|c: char| !Class::Dotted.has(c)) {
        Some((word, _)) => word,
        None => text,
    }
}

/// Whether a line begins in its first column with the id of a registered operation, or with names and `=` before one.
fn begins_root<T: IrText<A>, A: AttrText<A>>(ctx: &Context<T, A>, line: &str) -> bool {
    let id = match line.split_once('=') {
        Some((names, rest)) if are_names(names) && !line.starts_with(' ') => rest.trim_start(),
        _ => line,
    };
    let Some((dialect, name)) = first_word(id).split_once('.') else {
        return false;
    };
    match ctx.dialect_named(dialect) {
        Some((_, found)) => found.op_named(dialect, name).is_some(),
        None => false,
    }
}

/// Returns the first line below this one that begins a root.
fn line_below<T: IrText<A>, A: AttrText<A>>(
    ctx: &Context<T, A>,
    text: &str,
    line: i32,
) -> Option<SourcePosition> {
    let mut number = 1i32;
    for content in text.split('\n') {
        if number > line && begins_root(ctx, content) {
            return Some(SourcePosition {
                line: number,
                column: 1,
            });
        }
        number = number.saturating_add(1);
    }
    None
}

/// The notes of an error.
#[derive(Drop)]
struct Notes {
    /// Another place of the text, and what it is.
    place: Option<(SourcePosition, &'static str)>,
    /// What helps.
    hint: Option<String>,
    /// Whether something after the error is not looked at.
    unread: bool,
}

/// Whether only white space is below a line.
fn is_blank_below(text: &str, line: i32) -> bool {
    let lines = if line < 0 { 0 } else { line as usize };
    text.split('\n')
        .skip(lines)
        .all(|content| content.trim().is_empty())
}

/// Returns where the root after a rejected one may begin: where the rejected one ends, if nothing is wrong with its syntax; otherwise the
/// next line below the error that begins a root.
fn next_after<T: IrText<A>, A: AttrText<A>>(
    ctx: &Context<T, A>,
    text: &str,
    rejection: Rejection<'_, A>,
) -> Result<Next, AllocError> {
    let begin = rejection.begin;
    if let Some(end) = (RejectedRoot { text, begin }).end(ctx)? {
        return Ok(Next::From(end));
    }
    Ok(match line_below(ctx, text, rejection.fault.pos.line) {
        Some(position) => Next::From(position),
        None => Next::Unknown,
    })
}

/// Returns the other place that an error is about: the first use of a name that is not defined, or the first definition of one that is
/// defined twice.
fn other_place<T: IrText<A>, A: AttrText<A>>(
    ctx: &Context<T, A>,
    text: &str,
    rejection: Rejection<'_, A>,
) -> Result<Option<(SourcePosition, &'static str)>, AllocError> {
    let (begin, at) = (rejection.begin, rejection.fault.pos);
    let root = RejectedRoot { text, begin };
    let (found, what) = match innermost(&rejection.fault.cause) {
        Cause::UnresolvedReference(UnresolvedReference(name)) => {
            (root.first_use(ctx, name.as_str(), at)?, "used here")
        }
        Cause::ParserNameTrackerError(ParserNameTrackerError::MultipleDefinitions(name)) => {
            (
                root.first_definition(ctx, name.as_str(), at)?,
                "first defined here",
            )
        }
        _ => (None, ""),
    };
    Ok(found.map(|position| (position, what)))
}

/// Returns the notes of an error, after which the next root begins there.
fn notes_of<T: IrText<A>, A: AttrText<A>>(
    ctx: &Context<T, A>,
    text: &str,
    rejection: Rejection<'_, A>,
    next: Next,
) -> Result<Notes, AllocError> {
    let unread = match next {
        Next::From(_) => false,
        Next::Unknown => !is_blank_below(text, rejection.fault.pos.line),
    };
    Ok(Notes {
        place: other_place(ctx, text, rejection)?,
        hint: hint_for(ctx, &rejection.fault.cause)?,
        unread,
    })
}

/// What is known of a rejected root besides its fault.
#[derive(Drop)]
struct Look {
    /// What is said after its error.
    notes: Notes,
    /// Where the next root begins.
    next: Next,
}

/// Looks at a rejected root.
fn look_at<T: IrText<A>, A: AttrText<A>>(
    ctx: &Context<T, A>,
    text: &str,
    rejection: Rejection<'_, A>,
) -> Result<Look, AllocError> {
    let next = next_after(ctx, text, rejection)?;
    let notes = notes_of(ctx, text, rejection, next)?;
    Ok(Look { notes, next })
}

/// Returns notes as they are written.
fn noted<'a>(
    alloc: Global,
    text: &'a str,
    path: &'a str,
    notes: &'a Notes,
) -> Result<Vec<Diagnostic<'a>>, AllocError> {
    let mut said = Vec::new(alloc);
    if let Some((position, what)) = notes.place {
        let place = Excerpt { text, position };
        said.push(diagnostic(Severity::Note, path, Some(place), what))?;
    }
    if let Some(hint) = &notes.hint {
        said.push(diagnostic(Severity::Note, path, None, hint.as_str()))?;
    }
    if notes.unread {
        said.push(diagnostic(Severity::Note, path, None, UNREAD))?;
    }
    Ok(said)
}

/// Returns the name of a cause, if it has one and there was memory for it.
fn name_in(made: &Result<Option<String>, AllocError>) -> Option<&str> {
    match made {
        Ok(Some(name)) => Some(name.as_str()),
        _ => None,
    }
}

/// Writes the error of a rejected root and its notes, or the error alone if there is no memory for them.
fn report_rejection<A, E: Write>(
    alloc: Global,
    errors: &mut E,
    scene: Scene<'_>,
    text: &str,
    fault: &ParseFault<A>,
    notes: Notes,
) -> io::Result<()>
    ensures { OnOk result (Writes (E.contents errors.old) (E.contents errors.new)
        (TellsRejection scene.entry.form scene.entry.path.now text.now fault.now)) }
{
    let cause = innermost(&fault.cause);
    let made = format!(in alloc; "{cause}");
    let name = cause_name(alloc, cause);
    let said = noted(alloc, text, scene.path, &notes).unwrap_or(Vec::new(alloc));
    let word = cause_word(cause);
    let message = made_or(&made, word);
    let place = place_in(text, Some(fault.pos));
    let report = Report {
        diagnostic: Diagnostic {
            severity: Severity::Error,
            path: scene.path,
            place,
            message,
        },
        cause: word,
        name: name_in(&name),
        notes: said.as_slice(),
    };
    write_report(alloc, errors, scene.form, &report)
}

/// Writes the error of a rejected root that was looked at, and returns where the next one begins.
fn report_look<A, E: Write>(
    alloc: Global,
    errors: &mut E,
    scene: Scene<'_>,
    text: &str,
    fault: &ParseFault<A>,
    look: Look,
) -> io::Result<Next>
    ensures { OnOk result (Writes (E.contents errors.old) (E.contents errors.new)
        (TellsRejection scene.entry.form scene.entry.path.now text.now fault.now)) }
{
    let Look { notes, next } = look;
    report_rejection(alloc, errors, scene, text, fault, notes)?;
    Ok(next)
}

/// Writes the error of a rejected root without notes.
pub fn report_alone<A, E: Write>(
    alloc: Global,
    errors: &mut E,
    scene: Scene<'_>,
    text: &str,
    fault: &ParseFault<A>,
) -> io::Result<()>
    ensures { OnOk result (Writes (E.contents errors.old) (E.contents errors.new)
        (TellsRejection scene.entry.form scene.entry.path.now text.now fault.now)) }
{
    let none = Notes {
        place: None,
        hint: None,
        unread: false,
    };
    report_rejection(alloc, errors, scene, text, fault, none)
}

/// Writes that there may be more errors than are reported.
fn report_limit<E: Write>(alloc: Global, errors: &mut E, scene: Scene<'_>) -> io::Result<()>
    ensures { OnOk result (WritesMore (E.contents errors.old) (E.contents errors.new)) }
{
    let report = Report {
        diagnostic: diagnostic(Severity::Note, scene.path, None, LIMIT),
        cause: "limit",
        name: None,
        notes: &[],
    };
    write_report(alloc, errors, scene.form, &report)
}

/// Finds the first rejected root of a text, which is rejected with this fault, and looks at it.
fn first_look<T: IrText<A>, A: AttrText<A>>(
    ctx: &mut Context<T, A>,
    text: &str,
    fault: &ParseFault<A>,
) -> Result<Option<Look>, AllocError> {
    let Some(found) = next_rejection(ctx, text, SourcePosition::default())? else {
        return Ok(None);
    };
    let begin = found.begin;
    Ok(Some(look_at(ctx, text, Rejection { begin, fault })?))
}

/// Finds the next rejected root of a text from a position on, and looks at it.
fn next_look<T: IrText<A>, A: AttrText<A>>(
    ctx: &mut Context<T, A>,
    text: &str,
    from: SourcePosition,
) -> Result<Option<(ParseFault<A>, Look)>, AllocError> {
    let Some(Found { begin, fault }) = next_rejection(ctx, text, from)? else {
        return Ok(None);
    };
    let look = look_at(
        ctx,
        text,
        Rejection {
            begin,
            fault: &fault,
        },
    )?;
    Ok(Some((fault, look)))
}

/// Writes the error of the next rejected root from a position on, and returns where the root after it begins. If there is none, that is
/// not known.
fn report_next<T: IrText<A>, A: AttrText<A>, E: Write>(
    ctx: &mut Context<T, A>,
    errors: &mut E,
    scene: Scene<'_>,
    text: &str,
    from: SourcePosition,
) -> io::Result<Next>
    ensures { OnOk result (WritesMore (E.contents errors.old) (E.contents errors.new)) }
{
    let alloc = ctx.allocator();
    match next_look(ctx, text, from) {
        Ok(Some((fault, look))) => report_look(alloc, errors, scene, text, &fault, look),
        Ok(None) => Ok(Next::Unknown),
        Err(AllocError) => {
            report_memory(alloc, errors, scene)?;
            Ok(Next::Unknown)
        }
    }
}

/// Writes the errors of the rejected roots after the first one, the next of which begins there.
fn report_others<T: IrText<A>, A: AttrText<A>, E: Write>(
    ctx: &mut Context<T, A>,
    errors: &mut E,
    scene: Scene<'_>,
    text: &str,
    next: Next,
) -> io::Result<()>
    ensures { OnOk result (WritesMore (E.contents errors.old) (E.contents errors.new)) }
{
    let mut next = next;
    for _turn in 1..MOST_ERRORS {
        match next {
            Next::From(position) => next = report_next(ctx, errors, scene, text, position)?,
            Next::Unknown => return Ok(()),
        }
    }
    match next {
        Next::From(_) => report_limit(ctx.allocator(), errors, scene),
        Next::Unknown => Ok(()),
    }
}

/// Writes the errors of all rejected roots of a text, one for each, with its notes. The first is rejected with this fault, which is written
/// before anything else. After a root whose syntax is right the next one begins where it ends. After an error of syntax the next one is
/// sought at the lines below the error: at the first that begins in its first column with the id of a registered operation, or with names
/// and `=` before one. If there is none, the rest of the text is not looked at, and a note says so. After 100 errors a last line says that
/// there may be more.
///
/// If memory runs out, the errors so far are written, and that it did.
pub fn report_rejections<T: IrText<A>, A: AttrText<A>, E: Write>(
    ctx: &mut Context<T, A>,
    errors: &mut E,
    scene: Scene<'_>,
    text: &str,
    fault: &ParseFault<A>,
) -> io::Result<()>
    ensures { OnOk result (Writes (E.contents errors.old) (E.contents errors.new)
        (TellsRejected scene.entry.form scene.entry.path.now text.now fault.now)) }
{
    let alloc = ctx.allocator();
    match first_look(ctx, text, fault) {
        Ok(Some(look)) => {
            let next = report_look(alloc, errors, scene, text, fault, look)?;
            report_others(ctx, errors, scene, text, next)
        }
        Ok(None) => report_alone(alloc, errors, scene, text, fault),
        Err(AllocError) => {
            report_alone(alloc, errors, scene, text, fault)?;
            report_memory(alloc, errors, scene)
        }
    }
}
