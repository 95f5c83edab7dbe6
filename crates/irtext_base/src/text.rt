//! The traits of the caller's types and attributes: how their texts are parsed and printed, and the laws of these.
ghost use Rattle.std.specs.Prelude.{◌≡◌, ℕ, List, [], ◌++◌, ◌↔◌, Bool, IsTrue, MatchResult, IfOk, OnErr, string_bytes};
ghost use Rattle.std.specs.Str.{encode_utf8_all};
ghost use Rattle.irtext_base.specs.Appending.{OnlyAppends};
ghost use Rattle.irtext_base.specs.Answers.{Outcome, Answers, unless_failed};
ghost use Rattle.irtext_base.specs.Own.{Lawful, Sincere, Unreserved, texts_of};
ghost use Rattle.irtext_base.specs.Families.{BeginsWithWord, AreApart, is_one_of};

use crate::parsable::{ParseResult, TextStream};
use irtext_memory::OutOfMemory;
use std::alloc::AllocError;
use std::hash::Hash;

/// A type or an attribute of the caller, with its texts. Each impl proves the laws of these: how a text begins, and that a printed text is
/// parsed back (`lawful`); that what the parser says about a text is about that text (`sincere`); and that `==` is equality of values
/// (`decides`).
pub trait IrText<A>: Sized + Drop + Eq {
    // what `read` makes of a text that is next in the stream
    ghost reading: { List ℕ → Outcome Self };
    // the characters that `write_text` appends
    ghost written: { Self → List ℕ };

    /// Parses a value. If none begins at the stream's position, the error is not committed and the stream is unchanged. If the text is bad
    /// further on, if an allocation fails, or if the stream had failed, the error is committed and the stream has failed.
    fn read(stream: &mut TextStream) -> ParseResult<Self, A>
        ensures { Answers (λ s. s) (λ s v. v) (λ x. x)
            (unless_failed stream.old.failed (reading stream.old.rest)) stream.old result stream.new };

    /// Appends the text of the value. Fails only when out of memory. The text that was there before stands then too, and what was appended
    /// up to the error remains.
    fn write_text(&self, f: &mut String) -> Result<(), OutOfMemory>
        ensures text { IfOk result (λ _. string_bytes f.new ≡ string_bytes f.old
            ++ encode_utf8_all (written self.now)) }
        ensures appended { OnErr result (OnlyAppends f.old f.new) };

    ghost lawful: { Lawful Self (texts_of reading written) };

    ghost sincere: { Sincere reading };

    ghost decides: { (x y : Self) → IsTrue (Self.eq x y) ↔ (x ≡ y) };
}

/// An attribute of the caller, in a context whose attributes are `B`: either `B` is the attribute's own type, or a sum of several families
/// of attributes, of which this is one.
pub trait AttrText<B>: IrText<B> + Hash {
    // whether it is an outlined attribute: it is printed in the section after the root
    ghost outlined: { Self → Bool };
    // whether it is a print-once attribute: the section prints it once, and refers to it by its index
    ghost print_once: { Self → Bool };

    /// Whether this is an outlined attribute, which is printed in the section after the root.
    fn is_outlined(&self) -> bool
        ensures { result ≡ outlined self.now };

    /// Whether this is a print-once attribute, which the section prints once and refers to by its index.
    fn is_print_once(&self) -> bool
        ensures { result ≡ print_once self.now };

    /// Returns a copy that equals the attribute.
    fn try_clone(&self) -> Result<Self, AllocError>
        ensures { IfOk result (λ copy. copy ≡ self.now) };

    ghost unreserved: { Unreserved Self (texts_of Self.reading Self.written) };
}

/// The dotted words, as `builtin.integer`, with which the texts of a family of types or of attributes begin.
pub trait Worded {
    // the words
    ghost words: { List (List ℕ) };

    /// Whether `word` is one of these words.
    fn has_word(word: &str) -> bool
        ensures { result ≡ is_one_of words word.now };
}

/// A family of types or of attributes that can be in one context with others, as a part of `Either`: the text of each value begins with one
/// of the family's words. The attributes of the whole context are `B`.
pub trait Family<B>: IrText<B> + Worded {
    ghost led: { BeginsWithWord Self.words Self.written };
}

/// Says that two families have no word in common, so that the first word of a text tells which family it is of. `Self` is a type without
/// values, of the crate that puts the two families together; that crate needs to own neither of them. The law is computed:
/// `ghost apart = { refl }`. If they have a word in common the checker's error shows it.
pub trait Apart<L: Worded, R: Worded> {
    ghost apart: { AreApart L.words R.words };
}
