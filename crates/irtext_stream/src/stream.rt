//! A text as a stream: its bytes, the offset up to which they were consumed, and the index by which lines and columns are found.
ghost use Rattle.std.specs.Prelude.{◌≡◌, [], IfOk, MatchBool, false, string_bytes};
ghost use Rattle.std.specs.Str.{chars, encode_utf8_all};
ghost use Rattle.irtext_stream.specs.Text.{BeginsOtherwise};
ghost use Rattle.irtext_stream.specs.Classes.{after_front, after_spaces};
ghost use Rattle.irtext_stream.specs.Stream.{StreamView, IsAt, first_of, advanced, after_failure, Comes, moved};
ghost use Rattle.irtext_stream.specs.Places.{IsPlaceAfter, IsPlaceOf, AtPlace, SincePlace, HasPassed};

use crate::class::Class;
use crate::index::TextIndex;
use crate::position::{Place, SourcePosition};
use crate::scan::{comes_at, decode, end_of};
use irtext_memory::{OutOfMemory, string};
use std::alloc::Global;
use std::marker::Model;

/// A stream of the characters of a text, which it owns; and whether it was marked as failed.
pub struct TextStream {
    alloc: Global,
    text: String,
    index: TextIndex,
    // in bytes
    offset: usize,
    failed: bool,
}

impl Drop for TextStream {
    #[inline(always)]
    fn drop(self) {
        let TextStream {
            alloc: _,
            text: _text,
            index: _index,
            offset: _,
            failed: _,
        } = self;
    }
}

impl Model for TextStream {
    ghost use Rattle.std.specs.Prelude.{◌≤◌, take, drop, length, string_bytes};
    ghost use Rattle.std.specs.Str.{chars, IsUtf8};
    ghost use Rattle.irtext_stream.specs.Stream.{StreamView};
    ghost use Rattle.irtext_stream.specs.Index.{Indexes};

    ghost Value = { StreamView };

    ghost view = { λ s. record {
      passed = chars (take s.offset (string_bytes s.text));
      rest = chars (drop s.offset (string_bytes s.text));
      failed = s.failed;
    } };

    ghost invariant = { λ s. (s.offset ≤ length (string_bytes s.text)) × IsUtf8 (take s.offset (string_bytes s.text))
        × IsUtf8 (drop s.offset (string_bytes s.text)) × Indexes (string_bytes s.text) s.index };
}

impl TextStream {
    /// Returns a stream at the beginning of a text, which is copied. Fails only if an allocation fails.
    pub fn new(alloc: Global, text: &str) -> Result<TextStream, OutOfMemory>
        ensures { IfOk result (λ s. s ≡ record { passed = []; rest = chars text.now; failed = false }) }
    {
        let text = string::from_str(alloc, text)?;
        TextStream::from_string(alloc, text)
    }

    /// Returns a stream at the beginning of a text, which becomes its own without a copy. Fails only if an allocation fails; the text is
    /// then dropped.
    pub fn from_string(alloc: Global, text: String) -> Result<TextStream, OutOfMemory>
        ensures { IfOk result (λ s. s ≡ record {
          passed = [];
          rest = chars (string_bytes text);
          failed = false;
        }) }
    {
        let index = TextIndex::new(alloc, text.as_str())?;
        Ok(TextStream {
            alloc,
            text,
            index,
            offset: 0,
            failed: false,
        })
    }

    /// Returns the next character without consuming it, or `None` at the end of the text.
    #[inline(always)]
    pub fn peek(&self) -> Option<char>
        ensures { result ≡ first_of self.now.rest }
    {
        match self.text.as_bytes().get(self.offset) {
            Some(b) if *b < 0x80 => Some(*b as char),
            Some(_) => decode(self.text.as_str(), self.offset),
            None => None,
        }
    }

    /// Consumes and returns the next character. At the end of the text, returns `None` and leaves the stream unchanged.
    #[inline(always)]
    pub fn take(&mut self) -> Option<char>
        ensures value { result ≡ first_of self.old.rest }
        ensures after { self.new ≡ advanced self.old }
    {
        match self.text.as_bytes().get(self.offset) {
            Some(b) if *b < 0x80 => {
                let c = *b as char;
                self.offset += 1;
                Some(c)
            }
            _ => self.take_wide(),
        }
    }

    /// The same for a character that is not ASCII, and for the end of the text.
    #[cold]
    fn take_wide(&mut self) -> Option<char>
        ensures value { result ≡ first_of self.old.rest }
        ensures after { self.new ≡ advanced self.old }
    {
        let c = self.peek()?;
        self.offset += c.len_utf8();
        Some(c)
    }

    /// Consumes the longest run of characters of the class that comes next.
    #[inline(always)]
    pub fn skip(&mut self, class: Class)
        ensures { self.new ≡ after_front class self.old }
    {
        self.offset = end_of(self.text.as_str(), self.offset, class);
    }

    /// If `text` comes next, consumes it and returns true. Otherwise returns false and leaves the stream unchanged.
    #[inline(always)]
    pub fn accept(&mut self, text: &str) -> bool
        ensures { MatchBool result
            (Comes (chars text.now) self.old (λ v. self.new ≡ v))
            (BeginsOtherwise (chars text.now) self.old.rest × (self.new ≡ self.old)) }
    {
        if !comes_at(self.text.as_str(), self.offset, text) {
            return false;
        }
        self.offset += text.len();
        true
    }

    /// If `text` comes next, after any white space, consumes the white space and `text`, and returns true. Otherwise returns false and
    /// leaves the stream unchanged, in front of the white space.
    #[inline(always)]
    pub fn accept_spaced(&mut self, text: &str) -> bool
        ensures { MatchBool result
            (Comes (chars text.now) (after_spaces self.old) (λ v. self.new ≡ v))
            (BeginsOtherwise (chars text.now) (after_spaces self.old).rest × (self.new ≡ self.old)) }
    {
        let from = end_of(self.text.as_str(), self.offset, Class::WhiteSpace);
        if !comes_at(self.text.as_str(), from, text) {
            return false;
        }
        self.offset = from + text.len();
        true
    }

    /// Returns the position of the next character, or of the end of the text.
    #[inline(always)]
    pub fn position(&self) -> Place
        ensures { IsPlaceAfter result self.now.passed }
    {
        Place {
            offset: self.offset,
        }
    }

    /// Returns the line and the column of a position that `position` returned on this stream.
    pub fn locate(&self, place: Place) -> SourcePosition
        ensures { AtPlace place self.now (λ passed rest. IsAt result.line result.column passed) }
    {
        let offset = place.offset.min(self.text.len());
        self.index.position(self.text.as_str(), offset)
    }

    /// Moves the stream to a position that `position` returned on this stream. A failed stream stays failed.
    pub fn reset(&mut self, place: Place)
        requires { IsPlaceOf place self.old }
        ensures { AtPlace place self.old (λ passed rest. self.new ≡ moved self.old passed rest) }
    {
        self.offset = place.offset;
    }

    /// Marks the stream as failed: from now on every parser fails on it.
    pub fn fail(&mut self)
        ensures { self.new ≡ after_failure self.old }
    {
        self.failed = true;
    }

    /// Whether the stream has failed.
    pub fn has_failed(&self) -> bool
        ensures { result ≡ self.now.failed }
    {
        self.failed
    }

    /// Returns the text from an earlier position up to the current one.
    pub fn text_since(&self, place: Place) -> &str
        requires { HasPassed place self.now }
        ensures { SincePlace place self.now (λ passed taken. result.now ≡ encode_utf8_all taken) }
    {
        &self.text.as_str()[place.offset..self.offset]
    }

    /// Returns the allocator for the values that parsers return.
    pub fn allocator(&self) -> Global {
        self.alloc
    }
}
