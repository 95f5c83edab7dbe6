//! Words that are fixed: required ones, and ones that are there or not.
ghost use Rattle.std.specs.Prelude.{◌≡◌, ◌++◌, [], true, false, refl, OnOk, OnErr, string_bytes};
ghost use Rattle.std.specs.Bool.{beq, MatchBool};
ghost use Rattle.std.specs.Cmp.{on_equiv, on_per, partial_equiv_from_equiv, bool_eq_equiv, booleans_Decides};
ghost use Rattle.std.specs.Hash as fed;
ghost use Rattle.std.specs.Str.{bytes_eq, encode_utf8_all};
ghost use Rattle.std.proofs.Common.{ap};
ghost use Rattle.irtext_base.specs.Appending.{OnlyAppends};
ghost use Rattle.irtext_base.specs.Text.{front, in_word};
ghost use Rattle.irtext_tokens.specs.MustRead.{MayRead};
ghost use Rattle.irtext_tokens.specs.Reads.{TakesFront};
ghost use Rattle.irtext_syntax.specs.KeywordTexts.{unit_equiv, keyword_at, flag_at};
ghost use Rattle.irtext_syntax.specs.NameTexts.{WordText, ends_word};

use crate::part::{Item, Last, Part, TryClone};
use irtext_base::parsable::{CharStream, ParseResult, TextStream};
use irtext_base::result::Cause;
use irtext_memory::{OutOfMemory, string};
use irtext_tokens::irfmt::faults::{out_of_memory, refuse, unexpected};
use irtext_tokens::irfmt::parsers::{Class, held, skip_class};
use std::alloc::AllocError;
use std::fmt;
use std::hash::{Hash, Hasher};
use std::marker::{Model, PhantomData};

/// A fixed word: a letter or `_`, then letters, digits and `_`. That it is one is computed: `ghost word = { fixed_word (codes "to") refl }`.
pub trait Word {
    // the word
    ghost word: { WordText };

    /// Returns the word.
    fn word() -> &'static str
        ensures { result.now ≡ word.characters };
}

/// A word that is always there, as a part without a value, such as `to`. If the longest word that comes next is another one, parsing fails
/// with `Unexpected`, uncommitted, and the stream is unchanged.
#[derive(Drop)]
pub struct Keyword<W> {
    word: PhantomData<W>,
}

impl<W> Model for Keyword<W> {
    ghost Value = { Unit {0} };

    ghost view = { λ k. tt };
}

/// A word that is there or not, such as `mut`, as a part whose value says which. If the longest word that comes next is another one, the
/// word is not there, and nothing is consumed.
#[derive(Drop)]
pub struct Flag<W> {
    is_set: bool,
    word: PhantomData<W>,
}

impl<W> Model for Flag<W> {
    ghost use Rattle.std.specs.Prelude.{Bool};

    ghost Value = { Bool };

    ghost view = { λ f. f.is_set };
}

impl<W> Keyword<W> {
    /// Returns the part.
    pub fn new() -> Keyword<W> {
        Keyword { word: PhantomData }
    }
}

impl<W> Flag<W> {
    /// Returns a part with the word, or one without it.
    pub fn new(is_set: bool) -> Flag<W>
        ensures { result ≡ is_set }
    {
        Flag {
            is_set,
            word: PhantomData,
        }
    }

    /// Whether the word is there.
    pub fn is_set(&self) -> bool
        ensures { result ≡ self.now }
    {
        self.is_set
    }
}

impl<W> TryClone for Keyword<W> {
    fn try_clone(&self) -> Result<Keyword<W>, AllocError> {
        Ok(Keyword::new())
    }
}

impl<W> TryClone for Flag<W> {
    fn try_clone(&self) -> Result<Flag<W>, AllocError> {
        Ok(Flag::new(self.is_set()))
    }
}

impl<W> fmt::Debug for Keyword<W> {
    fn fmt<F: fmt::Write>(&self, f: &mut fmt::Formatter<F>) -> fmt::Result {
        f.write_str("Keyword")
    }
}

impl<W> fmt::Debug for Flag<W> {
    fn fmt<F: fmt::Write>(&self, f: &mut fmt::Formatter<F>) -> fmt::Result {
        fmt::Debug::fmt(&self.is_set(), f)
    }
}

impl<W> PartialEq for Keyword<W> {
    ghost eq = { λ x y. true };

    ghost laws = { on_per (λ x. tt) (partial_equiv_from_equiv unit_equiv) };

    fn eq(&self, _: &Self) -> bool {
        true
    }
}

impl<W> Eq for Keyword<W> {
    ghost laws = { on_equiv (λ x. tt) unit_equiv };
}

impl<W> PartialEq for Flag<W> {
    ghost eq = { λ x y. beq x y };

    ghost laws = { on_per (λ f. f) (partial_equiv_from_equiv bool_eq_equiv) };

    fn eq(&self, other: &Self) -> bool {
        self.is_set() == other.is_set()
    }
}

impl<W> Eq for Flag<W> {
    ghost laws = { on_equiv (λ f. f) bool_eq_equiv };
}

impl<W> Hash for Keyword<W> {
    ghost hash_input = { λ k. [] };

    ghost respects_eq = { λ x y e. refl };

    fn hash<H: Hasher>(&self, _: &mut H) {}
}

impl<W> Hash for Flag<W> {
    ghost hash_input = { λ f. fed.bool f };

    ghost respects_eq = { λ x y e. ap fed.bool ((booleans_Decides x y).0 e) };

    fn hash<H: Hasher>(&self, state: &mut H) {
        self.is_set().hash(state);
    }
}

/// Consumes the word that comes next, if it is this one. Otherwise the stream is unchanged.
fn take_word(stream: &mut TextStream, word: &str) -> bool
    ensures { MatchBool result
        ((bytes_eq (front in_word stream.old.rest) word.now ≡ true)
        × TakesFront (λ s. s) (λ s v. v) in_word stream.old stream.new)
        ((bytes_eq (front in_word stream.old.rest) word.now ≡ false) × (stream.new ≡ stream.old)) }
{
    let place = stream.position();
    skip_class(stream, Class::Word);
    if stream.text_since(place) == word {
        return true;
    }
    stream.reset(place);
    false
}

/// Parses the word. If it does not come next, fails with `Unexpected`, uncommitted, and the stream is unchanged.
fn word_parse<W: Word, A>(stream: &mut TextStream) -> ParseResult<(), A>
    ensures { MayRead (λ s. s) (λ s v. v) (λ u. u) (keyword_at W.word.characters) stream.old
        result stream.new }
{
    if stream.has_failed() {
        return Err(refuse(stream, Cause::StreamFailed));
    }
    if take_word(stream, W::word()) {
        return Ok(());
    }
    match held(stream.allocator(), W::word()) {
        Ok(expected) => Err(unexpected(stream, expected)),
        Err(_) => Err(out_of_memory(stream)),
    }
}

/// Parses the word, if it comes next, and returns whether it does.
fn flag_parse<W: Word, A>(stream: &mut TextStream) -> ParseResult<bool, A>
    ensures { MayRead (λ s. s) (λ s v. v) (λ b. b) (flag_at W.word.characters) stream.old result stream.new }
{
    if stream.has_failed() {
        return Err(refuse(stream, Cause::StreamFailed));
    }
    Ok(take_word(stream, W::word()))
}

/// Appends the word.
fn write_word<W: Word>(f: &mut String) -> Result<(), OutOfMemory>
    ensures text { OnOk result (string_bytes f.new ≡ string_bytes f.old ++ encode_utf8_all W.word.characters) }
    ensures appended { OnErr result (OnlyAppends f.old f.new) }
{
    string::push_str(f, W::word())?;
    Ok(())
}

impl<A, W: Word> Part<A> for Keyword<W> {
    ghost use Rattle.irtext_syntax.specs.KeywordLaws.{keyword_law, keyword_decides};

    ghost text = { record { reading = keyword_at W.word.characters; written = λ k. W.word.characters; ends = ends_word } };

    ghost sound = { record { law = keyword_law W.word.characters W.word.passes; decides = keyword_decides } };

    fn read(stream: &mut TextStream) -> ParseResult<Keyword<W>, A> {
        match word_parse::<W, A>(stream) {
            Ok(()) => Ok(Keyword::new()),
            Err(fault) => Err(fault),
        }
    }

    fn write_text(&self, f: &mut String) -> Result<(), OutOfMemory> {
        write_word::<W>(f)
    }
}

impl<A, W: Word> Item<A> for Keyword<W> {
    ghost use Rattle.irtext_syntax.specs.KeywordLaws.{keyword_misses};

    ghost misses = { keyword_misses W.word.characters W.word.passes };
}

impl<A, W: Word> Last<A> for Keyword<W> {
    ghost use Rattle.irtext_syntax.specs.NameLaws.{word_last};

    ghost last = { word_last };
}

impl<A, W: Word> Part<A> for Flag<W> {
    ghost use Rattle.irtext_syntax.specs.KeywordTexts.{flag_text, ends_flag};
    ghost use Rattle.irtext_syntax.specs.KeywordLaws.{flag_law};

    ghost text = { record { reading = flag_at W.word.characters; written = flag_text W.word.characters; ends = ends_flag W.word.characters } };

    ghost sound = { record { law = flag_law W.word.characters W.word.passes; decides = booleans_Decides } };

    fn read(stream: &mut TextStream) -> ParseResult<Flag<W>, A> {
        match flag_parse::<W, A>(stream) {
            Ok(is_set) => Ok(Flag::new(is_set)),
            Err(fault) => Err(fault),
        }
    }

    fn write_text(&self, f: &mut String) -> Result<(), OutOfMemory> {
        if self.is_set() {
            return write_word::<W>(f);
        }
        Ok(())
    }
}
