//! The printing state with its guards, the items that it gathered, why a printing fails, and the texts of attributes and of new lines.
ghost use Rattle.std.specs.Prelude.{◌≡◌, ◌≤◌, ◌-◌, [], ◌∷◌, OnOk, OnErr, ◌++◌, codes, cond, length, take, drop, replicate, string_bytes};
ghost use Rattle.std.specs.Str.{IsAscii};
ghost use Rattle.irtext_base.specs.Appending.{OnlyAppends};
ghost use Rattle.irtext_print.specs.Printers.Printing.{indent_of};
ghost use Rattle.irtext_grammar.specs.Spelling.Spell.{newline};

use irtext_memory::{OutOfMemory, string};

pub mod attributes;
pub mod gathered;
pub mod guards;
pub mod numbers;
pub mod refusal;
pub mod state;

pub use guards::{IndentGuard, RegionDepthGuard};
pub use refusal::Refusal;
pub use state::{RegionPrintDepthLimit, State};

/// As many spaces as are appended at once.
const SPACES: &str = "\
    \x20                                                                                                                               \
    \x20                                                                                                                               ";

/// A newline, and as many spaces as are appended with it.
const NEWLINE: &str = "\n\
    \x20                                                                                                                               \
    \x20                                                                                                                               ";

/// A semicolon, a newline, and as many spaces as are appended with them.
const SEMICOLON: &str = ";\n\
    \x20                                                                                                                               \
    \x20                                                                                                                               ";

/// A colon, a newline, and as many spaces as are appended with them.
const COLON: &str = ":\n\
    \x20                                                                                                                               \
    \x20                                                                                                                               ";

/// A brace, a newline, and as many spaces as are appended with them.
const BRACE: &str = "{\n\
    \x20                                                                                                                               \
    \x20                                                                                                                               ";

/// As many spaces as are appended before a brace, the brace, a newline, and as many spaces as are appended after it.
const INNER: &str = "\
    \x20                                                                                                                               \
    \x20                                                                                                                               {\n\
    \x20                                                                                                                               \
    \x20                                                                                                                               ";

/// As many spaces as are appended before a closing brace, and the brace.
const CLOSING: &str = "\
    \x20                                                                                                                               \
    \x20                                                                                                                               }";

/// A space, a brace on a line of its own, and as many spaces as are appended with it.
const OPENING: &str = " \n{\n                                                                ";

/// Appends the opening brace of a region at indentation 0, as [`fmt_opening`] does.
fn fmt_outer_opening(joins: bool, inner: u16, f: &mut String) -> Result<(), OutOfMemory>
    requires { inner ≤ 64 }
    ensures text { OnOk result (string_bytes f.new ≡ string_bytes f.old ++
        (cond joins [] (codes " ") ++ (newline 0 ++ (codes "{" ++ newline inner)))) }
    ensures appended { OnErr result (OnlyAppends f.old f.new) }
{
    let end = 4 + inner as usize;
    if joins {
        string::push_str(f, &OPENING[1..end])?;
        return Ok(());
    }
    string::push_str(f, &OPENING[..end])?;
    Ok(())
}

/// Appends so many spaces, and what `line` has after 256 spaces, up to an end.
#[inline(always)]
fn fmt_indented(indent: u16, line: &str, end: usize, f: &mut String) -> Result<(), OutOfMemory>
    requires few { indent ≤ 256 }
    requires ends { (256 ≤ end) × (end ≤ length line.now) }
    requires line { line.now ≡ replicate 256 32 ++ drop 256 line.now }
    requires ascii { IsAscii line.now }
    ensures text { OnOk result (string_bytes f.new ≡ string_bytes f.old ++ (replicate indent 32 ++ take (end - 256)
        (drop 256 line.now))) }
    ensures appended { OnErr result (OnlyAppends f.old f.new) }
{
    string::push_str(f, &line[256 - indent as usize..end])?;
    Ok(())
}

/// Appends a newline, after a space unless what follows joins what is before it.
#[inline(always)]
fn fmt_line_end(joins: bool, f: &mut String) -> Result<(), OutOfMemory>
    ensures text { OnOk result (string_bytes f.new ≡ string_bytes f.old
        ++ (cond joins [] (codes " ") ++ codes "\n")) }
    ensures appended { OnErr result (OnlyAppends f.old f.new) }
{
    if joins {
        string::push_str(f, "\n")?;
        return Ok(());
    }
    string::push_str(f, " \n")?;
    Ok(())
}

/// Appends the opening brace of a region at any indentation, as [`fmt_opening`] does.
#[cold]
fn fmt_deep_opening(joins: bool, indent: u16, inner: u16, f: &mut String) -> Result<(), OutOfMemory>
    ensures text { OnOk result (string_bytes f.new ≡ string_bytes f.old ++
        (cond joins [] (codes " ") ++ (newline indent ++ (codes "{" ++ newline inner)))) }
    ensures appended { OnErr result (OnlyAppends f.old f.new) }
{
    if !joins {
        string::push_str(f, " ")?;
    }
    fmt_newline(indent, f)?;
    fmt_brace_newline(inner, f)
}

/// Appends the opening brace of a region on a line of its own at this indentation, then a newline and the inner indentation, both in
/// spaces. A space comes first, unless the region joins what is before it. Fails only if out of memory.
pub fn fmt_opening(joins: bool, indent: u16, inner: u16, f: &mut String) -> Result<(), OutOfMemory>
    ensures text { OnOk result (string_bytes f.new ≡ string_bytes f.old ++
        (cond joins [] (codes " ") ++ (newline indent ++ (codes "{" ++ newline inner)))) }
    ensures appended { OnErr result (OnlyAppends f.old f.new) }
{
    if indent == 0 && inner <= 64 {
        return fmt_outer_opening(joins, inner, f);
    }
    if indent > 256 || inner > 256 {
        return fmt_deep_opening(joins, indent, inner, f);
    }
    fmt_line_end(joins, f)?;
    fmt_indented(indent, INNER, 258 + inner as usize, f)
}

/// Appends a newline, so many spaces and a closing brace. Fails only if out of memory.
pub fn fmt_closing(indent: u16, f: &mut String) -> Result<(), OutOfMemory>
    ensures text { OnOk result (string_bytes f.new ≡ string_bytes f.old ++ (newline indent ++ codes "}")) }
    ensures appended { OnErr result (OnlyAppends f.old f.new) }
{
    if indent > 256 {
        fmt_newline(indent, f)?;
        string::push_str(f, "}")?;
        return Ok(());
    }
    string::push_str(f, "\n")?;
    fmt_indented(indent, CLOSING, 257, f)
}

/// Appends a text, a newline and so many spaces. `line` is the same with 256 spaces, of which a slice is appended if it is long enough.
#[inline(always)]
fn fmt_line(front: &str, line: &str, indent: u16, f: &mut String) -> Result<(), OutOfMemory>
    requires line { line.now ≡ front.now ++ 10 ∷ replicate 256 32 }
    requires ascii { IsAscii line.now }
    ensures text { OnOk result (string_bytes f.new ≡ string_bytes f.old ++ (front.now ++ newline indent)) }
    ensures appended { OnErr result (OnlyAppends f.old f.new) }
{
    if indent > 256 {
        string::push_str(f, front)?;
        return fmt_newline(indent, f);
    }
    string::push_str(f, &line[..front.len() + 1 + indent as usize])?;
    Ok(())
}

/// Appends a semicolon, a newline and so many spaces. Fails only if out of memory.
pub fn fmt_semicolon_newline(indent: u16, f: &mut String) -> Result<(), OutOfMemory>
    ensures text { OnOk result (string_bytes f.new ≡ string_bytes f.old ++ (codes ";" ++ newline indent)) }
    ensures appended { OnErr result (OnlyAppends f.old f.new) }
{
    fmt_line(";", SEMICOLON, indent, f)
}

/// Appends a colon, a newline and so many spaces. Fails only if out of memory.
pub fn fmt_colon_newline(indent: u16, f: &mut String) -> Result<(), OutOfMemory>
    ensures text { OnOk result (string_bytes f.new ≡ string_bytes f.old ++ (codes ":" ++ newline indent)) }
    ensures appended { OnErr result (OnlyAppends f.old f.new) }
{
    fmt_line(":", COLON, indent, f)
}

/// Appends an opening brace, a newline and so many spaces.
fn fmt_brace_newline(indent: u16, f: &mut String) -> Result<(), OutOfMemory>
    ensures text { OnOk result (string_bytes f.new ≡ string_bytes f.old ++ (codes "{" ++ newline indent)) }
    ensures appended { OnErr result (OnlyAppends f.old f.new) }
{
    fmt_line("{", BRACE, indent, f)
}

/// Appends a newline and so many spaces. Fails only if out of memory.
pub fn fmt_newline(indent: u16, f: &mut String) -> Result<(), OutOfMemory>
    ensures text { OnOk result (string_bytes f.new ≡ string_bytes f.old ++ newline indent) }
    ensures appended { OnErr result (OnlyAppends f.old f.new) }
{
    string::push_str(f, &NEWLINE[..1 + (indent % 256) as usize])?;
    for _block in 0..indent / 256 {
        string::push_str(f, SPACES)?;
    }
    Ok(())
}

/// Appends a newline and as many spaces as the state's indentation. Fails only if out of memory.
pub fn fmt_indented_newline<U>(state: &State<U>, f: &mut String) -> Result<(), OutOfMemory>
    ensures text { OnOk result (string_bytes f.new ≡ string_bytes f.old ++ newline (indent_of state.now)) }
    ensures appended { OnErr result (OnlyAppends f.old f.new) }
{
    fmt_newline(state.current_indent(), f)
}
