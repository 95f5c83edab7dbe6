//! Quoted texts, such as `"a\n"`.
ghost use Rattle.std.specs.Prelude.{true};
ghost use Rattle.irtext_syntax.specs.QuotedParts.{characters_at, characters_text};
ghost use Rattle.irtext_syntax.specs.QuotedLaws.{characters_law, characters_decides, characters_misses, characters_last};

use crate::characters::Characters;
use crate::part::{Closed, Item, Last, Part, TryClone};
use irtext_base::parsable::{ParseResult, TextStream};
use irtext_memory::OutOfMemory;
use irtext_tokens::irfmt::parsers::quoted_string_parse;
use irtext_tokens::printable::fmt_quoted;
use std::alloc::AllocError;

/// A quoted text: its characters between quotation marks, with escapes, as `quoted_string_parse` and `fmt_quoted` have them. Fails with
/// `Unexpected`, uncommitted, if no quotation mark comes next. Every other error is committed.
impl<A> Part<A> for Characters {
    ghost text = { record { reading = characters_at; written = characters_text; ends = λ rest. true } };

    ghost sound = { record { law = characters_law; decides = characters_decides } };

    fn read(stream: &mut TextStream) -> ParseResult<Characters, A> {
        let text = quoted_string_parse(stream)?;
        Ok(Characters::new(text))
    }

    fn write_text(&self, f: &mut String) -> Result<(), OutOfMemory> {
        fmt_quoted(self.as_str(), f)
    }
}

impl TryClone for Characters {
    fn try_clone(&self) -> Result<Characters, AllocError> {
        Characters::try_clone(self)
    }
}

impl<A> Item<A> for Characters {
    ghost misses = { characters_misses };
}

impl<A> Last<A> for Characters {
    ghost last = { characters_last };
}

impl<A> Closed<A> for Characters {
    ghost use Rattle.std.specs.Prelude.{refl};

    ghost closed = { λ rest. refl };
}
