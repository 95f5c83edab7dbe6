//! The trait of character streams: what parsers call to read a text.
ghost use Rattle.std.specs.Prelude.{◌≡◌, MatchBool, refl};
ghost use Rattle.std.specs.Str.{chars, encode_utf8_all};
ghost use Rattle.irtext_stream.specs.Text.{BeginsOtherwise};
ghost use Rattle.irtext_stream.specs.Classes.{after_front, after_spaces};
ghost use Rattle.irtext_stream.specs.Stream.{StreamView, IsAt, first_of, advanced, after_failure, Comes, moved};
ghost use Rattle.irtext_stream.specs.Places.{IsPlaceAfter, IsPlaceOf, AtPlace, SincePlace, HasPassed};

use crate::class::Class;
use crate::position::{Place, SourcePosition};
use crate::stream::TextStream;
use std::alloc::Global;

/// A stream of characters for parsers. An implementor may hold more than the stream; these calls leave that unchanged.
pub trait CharStream {
    // the stream as the contracts see it
    ghost view: { Self → StreamView };
    // the implementor with its stream replaced
    ghost at: { Self → StreamView → Self };

    /// Returns the next character without consuming it, or `None` at the end of the text.
    fn peek(&self) -> Option<char>
        ensures { result ≡ first_of (view self.now).rest };

    /// Consumes and returns the next character. At the end of the text, returns `None` and leaves the stream unchanged.
    fn take(&mut self) -> Option<char>
        ensures value { result ≡ first_of (view self.old).rest }
        ensures after { self.new ≡ at self.old (advanced (view self.old)) };

    /// Consumes the longest run of characters of the class that comes next.
    fn skip(&mut self, class: Class)
        ensures { self.new ≡ at self.old (after_front class (view self.old)) };

    /// If `text` comes next, consumes it and returns true. Otherwise returns false and leaves the stream unchanged.
    fn accept(&mut self, text: &str) -> bool
        ensures { MatchBool result
            (Comes (chars text.now) (view self.old) (λ v. self.new ≡ at self.old v))
            (BeginsOtherwise (chars text.now) (view self.old).rest × (self.new ≡ self.old)) };

    /// If `text` comes next, after any white space, consumes the white space and `text`, and returns true. Otherwise returns false and
    /// leaves the stream unchanged, in front of the white space.
    fn accept_spaced(&mut self, text: &str) -> bool
        ensures { MatchBool result
            (Comes (chars text.now) (after_spaces (view self.old)) (λ v. self.new ≡ at self.old v))
            (BeginsOtherwise (chars text.now) (after_spaces (view self.old)).rest × (self.new ≡ self.old)) };

    /// Returns the position of the next character, or of the end of the text.
    fn position(&self) -> Place
        ensures { IsPlaceAfter result (view self.now).passed };

    /// Returns the line and the column of a position that `position` returned on this stream.
    fn locate(&self, place: Place) -> SourcePosition
        ensures { AtPlace place (view self.now) (λ passed rest. IsAt result.line result.column passed) };

    /// Moves the stream to a position that `position` returned on this stream. A failed stream stays failed.
    fn reset(&mut self, place: Place)
        requires { IsPlaceOf place (view self.old) }
        ensures { AtPlace place (view self.old) (λ passed rest. self.new ≡ at self.old (moved (view self.old)
            passed rest)) };

    /// Marks the stream as failed: from now on every parser fails on it.
    fn fail(&mut self)
        ensures { self.new ≡ at self.old (after_failure (view self.old)) };

    /// Whether the stream has failed.
    fn has_failed(&self) -> bool
        ensures { result ≡ (view self.now).failed };

    /// Returns the text from an earlier position up to the current one.
    fn text_since(&self, place: Place) -> &str
        requires { HasPassed place (view self.now) }
        ensures { SincePlace place (view self.now) (λ passed taken. result.now ≡ encode_utf8_all taken) };

    /// Returns the allocator for the values that parsers return.
    fn allocator(&self) -> Global;

    ghost view_at: { (s : Self) (v : StreamView) → view (at s v) ≡ v };

    ghost at_view: { (s : Self) → at s (view s) ≡ s };

    ghost at_at: { (s : Self) (v w : StreamView) → at (at s v) w ≡ at s w };
}

impl CharStream for TextStream {
    ghost view = { λ s. s };

    ghost at = { λ s v. v };

    ghost view_at = { λ s v. refl };

    ghost at_view = { λ s. refl };

    ghost at_at = { λ s v w. refl };

    #[inline(always)]
    fn peek(&self) -> Option<char> {
        self.peek()
    }

    #[inline(always)]
    fn take(&mut self) -> Option<char> {
        self.take()
    }

    #[inline(always)]
    fn skip(&mut self, class: Class) {
        self.skip(class)
    }

    #[inline(always)]
    fn accept(&mut self, text: &str) -> bool {
        self.accept(text)
    }

    #[inline(always)]
    fn accept_spaced(&mut self, text: &str) -> bool {
        self.accept_spaced(text)
    }

    #[inline(always)]
    fn position(&self) -> Place {
        self.position()
    }

    fn locate(&self, place: Place) -> SourcePosition {
        self.locate(place)
    }

    fn reset(&mut self, place: Place) {
        self.reset(place)
    }

    fn fail(&mut self) {
        self.fail()
    }

    fn has_failed(&self) -> bool {
        self.has_failed()
    }

    fn text_since(&self, place: Place) -> &str {
        self.text_since(place)
    }

    fn allocator(&self) -> Global {
        self.allocator()
    }
}
