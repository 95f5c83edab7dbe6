//! Classes of characters.
ghost use Rattle.std.specs.Prelude.{◌≡◌, ◌<◌, MatchBool, true, false, get_or};
ghost use Rattle.irtext_stream.specs.Classes.{has, bit_of};
ghost use Rattle.irtext_stream.specs.declared.class.TheConstants.{CLASSES};

// the bits of the classes of each ASCII character, and 0 for the other bytes
const CLASSES: [u8; 256] = [
    64, 64, 64, 64, 64, 64, 64, 64, 64, 65, 65, 65, 65, 65, 64, 64, 64, 64, 64, 64, 64, 64, 64, 64,
    64, 64, 64, 64, 64, 64, 64, 64, 65, 64, 0, 64, 64, 64, 64, 64, 64, 64, 64, 64, 64, 64, 96, 64,
    118, 118, 118, 118, 118, 118, 118, 118, 118, 118, 64, 64, 64, 64, 64, 64, 64, 124, 124, 124,
    124, 124, 124, 120, 120, 120, 120, 120, 120, 120, 120, 120, 120, 120, 120, 120, 120, 120, 120,
    120, 120, 120, 120, 64, 0, 64, 64, 120, 64, 124, 124, 124, 124, 124, 124, 120, 120, 120, 120,
    120, 120, 120, 120, 120, 120, 120, 120, 120, 120, 120, 120, 120, 120, 120, 120, 64, 64, 64, 64,
    64, 0, 0, 0, 0, 0, 0, 0, 0, 0, 0, 0, 0, 0, 0, 0, 0, 0, 0, 0, 0, 0, 0, 0, 0, 0, 0, 0, 0, 0, 0,
    0, 0, 0, 0, 0, 0, 0, 0, 0, 0, 0, 0, 0, 0, 0, 0, 0, 0, 0, 0, 0, 0, 0, 0, 0, 0, 0, 0, 0, 0, 0, 0,
    0, 0, 0, 0, 0, 0, 0, 0, 0, 0, 0, 0, 0, 0, 0, 0, 0, 0, 0, 0, 0, 0, 0, 0, 0, 0, 0, 0, 0, 0, 0, 0,
    0, 0, 0, 0, 0, 0, 0, 0, 0, 0, 0, 0, 0, 0, 0, 0, 0, 0, 0, 0, 0, 0, 0, 0, 0, 0, 0, 0, 0, 0, 0, 0,
    0, 0,
];

/// Returns the bits of the classes of a byte.
#[inline(always)]
fn classes_of(b: u8) -> u8
    ensures { result ≡ get_or CLASSES b 0 }
{
    CLASSES[b as usize]
}

/// A class of characters.
#[derive(Clone, Copy)]
pub enum Class {
    /// The characters that `char::is_whitespace` accepts.
    WhiteSpace,
    /// `0` to `9`.
    Digit,
    /// `0` to `9`, `a` to `f` and `A` to `F`.
    HexadecimalDigit,
    /// The first character of a word: an ASCII letter or `_`.
    Beginning,
    /// A later character of a word: an ASCII letter, an ASCII digit or `_`.
    Word,
    /// A later character of a dotted word: one of `Word`, or `.`.
    Dotted,
    /// A character that denotes itself in a quoted text: any but `"` and `\`.
    Plain,
}

impl Class {
    /// Whether the character is of this class.
    #[inline(always)]
    pub fn has(self, c: char) -> bool
        ensures { result ≡ has self c }
    {
        if c.is_ascii() {
            return self.has_byte(c as u8);
        }
        self.has_wide(c)
    }

    /// The same without the table, for any character.
    #[cold]
    fn has_wide(self, c: char) -> bool
        ensures { result ≡ has self c }
    {
        match self {
            Class::WhiteSpace => c.is_whitespace(),
            Class::Digit => c.is_ascii_digit(),
            Class::HexadecimalDigit => c.is_ascii_hexdigit(),
            Class::Beginning => c.is_ascii_alphabetic() || c == '_',
            Class::Word => c.is_ascii_alphanumeric() || c == '_',
            Class::Dotted => c.is_ascii_alphanumeric() || c == '_' || c == '.',
            Class::Plain => c != '"' && c != '\\',
        }
    }

    /// Whether the byte is an ASCII character of this class.
    #[inline(always)]
    pub(crate) fn has_byte(self, b: u8) -> bool
        ensures { MatchBool result ((b < 128) × (has self b ≡ true)) (b < 128 → has self b ≡ false) }
    {
        classes_of(b) & self.bit() != 0
    }

    /// Returns the bit of the class in the table.
    #[inline(always)]
    fn bit(self) -> u8
        ensures { result ≡ bit_of self }
    {
        match self {
            Class::WhiteSpace => 1,
            Class::Digit => 2,
            Class::HexadecimalDigit => 4,
            Class::Beginning => 8,
            Class::Word => 16,
            Class::Dotted => 32,
            Class::Plain => 64,
        }
    }
}
