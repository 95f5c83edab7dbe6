//! Texts of a class of characters that pass a test, kept as they are spelled.
ghost use Rattle.std.specs.Prelude.{◌≡◌, true};
ghost use Rattle.irtext_parts.specs.Spellings.{is_spelled};

use crate::spelling::{Spelling, begins_here, is_spelled, misspelled, skip_spelled};
use irtext_base::parsable::{CharStream, ParseResult, TextStream};
use irtext_base::result::Cause;
use irtext_memory::{OutOfMemory, string};
use irtext_syntax::Characters;
use irtext_syntax::part::{Item, Last, Part, TryClone};
use irtext_tokens::irfmt::faults::{out_of_memory, refuse, unexpected};
use std::alloc::AllocError;
use std::marker::PhantomData;

/// A text that is kept as it is spelled, such as `1.50`. Two are equal if they are spelled alike: `1.5` and `1.50` differ. As many of its
/// characters are parsed as come next. If none begins there, parsing fails with what is expected, uncommitted. If these characters are no
/// such text, it fails at their beginning with an `OwnText` that has them, committed.
#[derive(Drop)]
#[derive_where(PartialEq, Eq, Hash, Debug)]
pub struct Spelled<K: Spelling> {
    text: Characters,
    #[derive_where(skip)]
    kind: PhantomData<K>,
    ghost spelled: { is_spelled K.rules text.characters ≡ true },
}

impl<K: Spelling> Spelled<K> {
    ghost use Rattle.std.specs.Prelude.{IfOk, string_bytes};
    ghost use Rattle.irtext_parts.specs.SpelledOf.{spelled_of};

    /// Returns the part of the text, or `None` if it is not spelled by the rules.
    pub fn new(text: Characters) -> Option<Spelled<K>>
        ensures { result ≡ spelled_of K.Spelling.own text }
    {
        if !is_spelled::<K>(text.as_str()) {
            return None;
        }
        Some(Spelled {
            text,
            kind: PhantomData,
        })
    }

    /// Returns the part of a text that is spelled by the rules.
    pub(crate) fn kept(text: String) -> Spelled<K>
        requires { is_spelled K.rules (string_bytes text) ≡ true }
        ensures { result.text.characters ≡ string_bytes text }
    {
        Spelled {
            text: Characters::new(text),
            kind: PhantomData,
        }
    }

    /// Returns the text.
    pub fn as_str(&self) -> &str
        ensures { result.now ≡ self.now.text.characters }
    {
        self.text.as_str()
    }
}

impl<K: Spelling> TryClone for Spelled<K> {
    fn try_clone(&self) -> Result<Spelled<K>, AllocError> {
        let text = self.text.try_clone()?;
        Ok(Spelled {
            text,
            kind: PhantomData,
        })
    }
}

impl<A, K: Spelling> Part<A> for Spelled<K> {
    ghost use Rattle.irtext_syntax.specs.QuotedLaws.{characters_decides};
    ghost use Rattle.irtext_parts.specs.Spellings.{ends_spelled};
    ghost use Rattle.irtext_parts.specs.SpelledOf.{spelled_at};
    ghost use Rattle.irtext_parts.specs.SpelledLaws.{spelled_law, spelled_decides};
    ghost use Rattle.std.specs.Str.{bytes_eq, encode_utf8_all};

    ghost text = { record {
      reading = spelled_at K.Spelling.own;
      written = λ x. x.text.characters;
      ends = ends_spelled K.rules;
    } };

    ghost sound = { record {
      law = spelled_law K.Spelling.own K.law;
      decides = spelled_decides K.Spelling.own (λ s t. bytes_eq (encode_utf8_all s.characters)
          (encode_utf8_all t.characters)) characters_decides;
    } };

    fn read(stream: &mut TextStream) -> ParseResult<Spelled<K>, A> {
        if stream.has_failed() {
            return Err(refuse(stream, Cause::StreamFailed));
        }
        if !begins_here::<K>(stream) {
            return Err(unexpected(stream, K::expected()));
        }
        let place = stream.position();
        skip_spelled::<K>(stream);
        let found = stream.text_since(place);
        if !K::accepts(found) {
            return Err(misspelled::<K, A>(stream, place));
        }
        match String::from_str(stream.allocator(), stream.text_since(place)) {
            Ok(text) => Ok(Spelled::kept(text)),
            Err(_) => Err(out_of_memory(stream)),
        }
    }

    fn write_text(&self, f: &mut String) -> Result<(), OutOfMemory> {
        string::push_str(f, self.as_str())?;
        Ok(())
    }
}

impl<A, K: Spelling> Item<A> for Spelled<K> {
    ghost use Rattle.irtext_parts.specs.SpelledLaws.{spelled_misses};

    ghost misses = { spelled_misses K.Spelling.own K.law };
}

impl<A, K: Spelling> Last<A> for Spelled<K> {
    ghost use Rattle.irtext_parts.specs.SpelledLaws.{spelled_last};

    ghost last = { spelled_last K.rules K.law };
}
