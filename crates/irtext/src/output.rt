//! Writing of lines.
ghost use Rattle.std.specs.Prelude.{OnOk};
ghost use Rattle.std.specs.Io.KnownBytes.{Appends};
ghost use Rattle.irtext.specs.Lines.{line_of};

use std::io::{Result, Write};

/// Writes the text, and a newline if it does not end in one, and flushes the writer. On an error a part of that may have been written.
pub fn write_line<W: Write>(out: &mut W, text: &str) -> Result<()>
    ensures { OnOk result (Appends (W.contents out.old) (W.contents out.new) (line_of text.now)) }
{
    out.write_all(text.as_bytes())?;
    if !text.ends_with('\n') {
        out.write_all(b"\n")?;
    }
    out.flush()
}
