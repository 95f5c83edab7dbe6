//! How the heads of trees are parsed and printed.
ghost use Rattle.std.specs.Prelude.{◌≡◌, ◌++◌, ◌↔◌, ℕ, Bool, List, IsTrue, IfOk, OnErr, string_bytes};
ghost use Rattle.std.specs.Str.{encode_utf8_all};
ghost use Rattle.irtext_base.specs.Answers.{Outcome};
ghost use Rattle.irtext_base.specs.Appending.{OnlyAppends};
ghost use Rattle.irtext_tokens.specs.MustRead.{MayRead};
ghost use Rattle.irtext_tree.specs.Growths.{Growth};
ghost use Rattle.irtext_tree.specs.GrammarLaws.{GrammarLaw};
ghost use Rattle.irtext_tree.specs.Words.{HeadsLed, HeadsUnreserved};

use crate::waits::Waits;
use irtext_base::parsable::{ParseResult, TextStream};
use irtext_base::text::Worded;
use irtext_memory::OutOfMemory;
use std::alloc::AllocError;

/// The places of a grammar, at each of which one of several heads `H` can come. `Self` is the place: most impls are on an enum, as one of a
/// type, of `>`, and of `, ` or `>`.
pub trait Grows<H>: Copy + Drop {
    // the place at which a tree begins, the place of each head, and what comes after it
    ghost growth: { Growth Self H };

    /// Returns the place at which a tree begins.
    fn start() -> Self
        ensures { result ≡ growth.start };

    /// Whether a tree begins at this place.
    fn is_start(self) -> bool
        ensures { result ≡ growth.same growth.start self };

    /// Whether this is the place of the head.
    fn takes(self, head: &H) -> bool
        ensures { result ≡ growth.same self (growth.place head.now) };

    /// Returns what comes after the text of the head.
    fn waits(head: &H) -> Waits<Self>
        ensures { result ≡ growth.waits head.now };
}

/// The texts of the heads at each place. Errors are those of a context whose attributes are `A`.
pub trait Grammar<H: Eq, A>: Grows<H> {
    // what is parsed at a place, and what is printed for a head
    ghost reading: { Self → List ℕ → Outcome H };

    ghost written: { H → List ℕ };

    /// Parses a head at this place. If none begins at the stream's position, the error is not committed and the stream is unchanged. If the
    /// text is bad further on, if an allocation fails, or if the stream had failed, the error is committed and the stream has failed.
    fn read(self, stream: &mut TextStream) -> ParseResult<H, A>
        ensures { MayRead (λ s. s) (λ s v. v) (λ x. x) (reading self) stream.old result stream.new };

    /// Appends the text of the head. Fails only when out of memory. The text that was there before stands then too, and what was appended up
    /// to the error remains.
    fn write_head(head: &H, f: &mut String) -> Result<(), OutOfMemory>
        ensures text { IfOk result (λ _. string_bytes f.new ≡ string_bytes f.old
            ++ encode_utf8_all (written head.now)) }
        ensures appended { OnErr result (OnlyAppends f.old f.new) };

    ghost same: { (g h : H) → IsTrue (H.eq g h) ↔ (g ≡ h) };

    ghost sound: { GrammarLaw Self.growth reading written };
}

/// A grammar whose trees can be in one context with those of others, and can hold those and be held by them (`Places`): the text of each
/// head with which a tree can begin begins with one of the words of the heads.
pub trait LedGrammar<H: Eq + Worded, A>: Grammar<H, A> {
    ghost led: { HeadsLed Self.Grows.growth H.words Self.Grammar.written };
}

/// A grammar whose trees are attributes. Whether one is outlined and whether it is print-once is said by the head with which it begins.
pub trait AttrGrammar<H: Eq, A>: Grammar<H, A> {
    // whether an attribute that begins with the head is outlined: it is printed in the section after the root
    ghost outlined: { H → Bool };
    // whether it is print-once: the section prints it once, and refers to it by its index
    ghost print_once: { H → Bool };

    /// Whether an attribute that begins with the head is outlined, so that it is printed in the section after the root.
    fn is_outlined(head: &H) -> bool
        ensures { result ≡ outlined head.now };

    /// Whether an attribute that begins with the head is print-once, so that the section prints it once and refers to it by its index.
    fn is_print_once(head: &H) -> bool
        ensures { result ≡ print_once head.now };

    /// Returns an equal copy of the head. Fails only if an allocation fails.
    fn clone_head(head: &H) -> Result<H, AllocError>
        ensures { IfOk result (λ copy. copy ≡ head.now) };

    ghost unreserved: { HeadsUnreserved Self.Grows.growth Self.Grammar.written };
}
