//! A text is written to any writer.
ghost use Rattle.std.specs.Prelude.{◌≡◌, IsTrue, ◌↔◌, OnOk};
ghost use Rattle.std.specs.Io.KnownBytes.{Appends};
ghost use Rattle.irtext_formatter.specs.Lines.{ends_line, lined};

use std::io;
use std::io::Write;

/// Whether a text ends with a newline.
pub(crate) fn ends_line(text: &str) -> bool
    ensures { result ≡ ends_line text.now }
{
    match text.as_bytes().last() {
        Some(last) => *last == b'\n',
        None => false,
    }
}

/// Writes a text, and flushes. If it fails, a part of the text may have been written.
pub fn write_text<W: Write>(out: &mut W, text: &str) -> io::Result<()>
    ensures { OnOk result (Appends (W.contents out.old) (W.contents out.new) text.now) }
{
    out.write_all(text.as_bytes())?;
    out.flush()
}

/// Writes a text, and a newline if the text does not end with one, and flushes. If it fails, a part of the text may have been written.
pub fn write_line<W: Write>(out: &mut W, text: &str) -> io::Result<()>
    ensures { OnOk result (Appends (W.contents out.old) (W.contents out.new) (lined text.now)) }
{
    out.write_all(text.as_bytes())?;
    if !ends_line(text) {
        out.write_all(b"\n")?;
    }
    out.flush()
}
