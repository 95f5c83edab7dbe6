//! Prints quoted strings.
ghost use Rattle.std.specs.Prelude.{◌≡◌, ◌<◌, ◌++◌, OnOk, OnErr, true, string_bytes};
ghost use Rattle.irtext_base.specs.Appending.{OnlyAppends};
ghost use Rattle.irtext_base.specs.Quoted.{hexadecimal, image_of, images};
ghost use Rattle.irtext_tokens.specs.QuotedBytes.{by_code, is_escaped, quoted_bytes};

use irtext_memory::{OutOfMemory, string};

/// Whether a byte is a character that is escaped in a quoted string. All these characters are ASCII.
fn is_escaped(byte: u8) -> bool
    ensures { result ≡ is_escaped byte }
{
    byte.is_ascii_control() || byte == b'"' || byte == b'\\'
}

/// The digits of hexadecimal numbers.
const DIGITS: &str = "0123456789abcdef";

/// Returns a number below 16 as one hexadecimal digit.
fn digit(number: u8) -> &'static str
    requires { number < 16 }
    ensures { result.now ≡ hexadecimal number }
{
    let from = number as usize;
    &DIGITS[from..from + 1]
}

/// Appends the code of an ASCII character in hexadecimal.
fn fmt_code(byte: u8, f: &mut String) -> Result<(), OutOfMemory>
    requires { byte < 128 }
    ensures text { OnOk result (string_bytes f.new ≡ string_bytes f.old ++ hexadecimal byte) }
    ensures appended { OnErr result (OnlyAppends f.old f.new) }
{
    if byte >= 16 {
        string::push_str(f, digit(byte / 16))?;
    }
    string::push_str(f, digit(byte % 16))?;
    Ok(())
}

/// Appends an escape by the character's code, as `\u{1f}`.
#[cold]
#[inline(never)]
fn fmt_by_code(byte: u8, f: &mut String) -> Result<(), OutOfMemory>
    requires { byte < 128 }
    ensures text { OnOk result (string_bytes f.new ≡ string_bytes f.old ++ by_code byte) }
    ensures appended { OnErr result (OnlyAppends f.old f.new) }
{
    string::push_str(f, "\\u{")?;
    fmt_code(byte, f)?;
    string::push_str(f, "}")?;
    Ok(())
}

/// Appends the escape of such a character.
fn fmt_escape(byte: u8, f: &mut String) -> Result<(), OutOfMemory>
    requires { is_escaped byte ≡ true }
    ensures text { OnOk result (string_bytes f.new ≡ string_bytes f.old ++ image_of byte) }
    ensures appended { OnErr result (OnlyAppends f.old f.new) }
{
    let escape = match byte {
        b'\0' => "\\0",
        b'\t' => "\\t",
        b'\n' => "\\n",
        b'\r' => "\\r",
        b'"' => "\\\"",
        b'\\' => "\\\\",
        _ => return fmt_by_code(byte, f),
    };
    string::push_str(f, escape)?;
    Ok(())
}

/// Appends the characters of a text, each that must be escaped as its escape. The text between two escapes is copied in one piece.
fn fmt_images(text: &str, f: &mut String) -> Result<(), OutOfMemory>
    ensures text { OnOk result (string_bytes f.new ≡ string_bytes f.old ++ images text.now) }
    ensures appended { OnErr result (OnlyAppends f.old f.new) }
{
    let bytes = text.as_bytes();
    let mut begun = 0;
    for at in 0..bytes.len() {
        if is_escaped(bytes[at]) {
            string::push_str(f, &text[begun..at])?;
            fmt_escape(bytes[at], f)?;
            begun = at + 1;
        }
    }
    string::push_str(f, &text[begun..])?;
    Ok(())
}

/// Appends the text as a quoted string, such as `"a\n"` for `a` and a newline. A NUL, tab, newline, carriage return, quotation mark and
/// backslash are printed as `\0`, `\t`, `\n`, `\r`, `\"` and `\\`, every other ASCII control character as `\u{N}` with N in lower-case
/// hexadecimal, and every other character as itself. Fails only if an allocation fails; the text that was there stands then too, and
/// what was appended up to the error remains.
pub fn fmt_quoted(text: &str, f: &mut String) -> Result<(), OutOfMemory>
    ensures text { OnOk result (string_bytes f.new ≡ string_bytes f.old ++ quoted_bytes text.now) }
    ensures appended { OnErr result (OnlyAppends f.old f.new) }
{
    string::push_str(f, "\"")?;
    fmt_images(text, f)?;
    string::push_str(f, "\"")?;
    Ok(())
}
