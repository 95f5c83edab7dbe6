//! Laws of attributes, locations and the notation of formats. Each function does nothing: its contract is what is proved.
ghost use Rattle.std.specs.Prelude.{◌≡◌, ◌↔◌, ℕ, true, List, [], IsTrue, length};
ghost use Rattle.irtext_base.specs.Format.{Format};
ghost use Rattle.irtext_base.specs.Locations.{LocationView, attr_view, location_view};
ghost use Rattle.irtext_base.specs.Notation.{has_notation, notation_at, notation_text};
ghost use Rattle.irtext_base.specs.Paths.{path_of, is_known, are_known, written_with};
ghost use Rattle.irtext_base.specs.StableHash.{source_writes, location_writes};
ghost use Rattle.irtext_base.specs.declared.base.attributes.AttrObj.{AttrObj};
ghost use Rattle.irtext_base.specs.declared.location.Location.{Location};
ghost use Rattle.irtext_base.specs.declared.location.Source.{Source};
ghost use Rattle.irtext_stream.specs.NotationPieces.{means};

use irtext_base::base::AttrObj;
use irtext_base::location::{Location, Source};
use irtext_base::text::AttrText;
use std::hash::Hash;

/// Two attributes are equal exactly if `attr_view` gives the same for both, and two locations exactly if `location_view` does.
pub fn equal_where_alike<A: AttrText<A>>()
    ensures attributes { (x y : AttrObj A) → (⟦<AttrObj<A> as PartialEq>⟧.eq x y ≡ true)
        ↔ (attr_view x ≡ attr_view y) }
    ensures locations { (k l : Location A) → (⟦<Location<A> as PartialEq>⟧.eq k l ≡ true)
        ↔ (location_view k ≡ location_view l) }
{}

/// Two sources, attributes or locations that are equal feed the same to a hasher.
pub fn equal_ones_hash_alike<A: AttrText<A>>()
    ensures sources { (s t : Source) → ⟦<Source as PartialEq>⟧.eq s t ≡ true →
        ⟦<Source as Hash>⟧.hash_input s ≡ ⟦<Source as Hash>⟧.hash_input t }
    ensures attributes { (x y : AttrObj A) → ⟦<AttrObj<A> as PartialEq>⟧.eq x y ≡ true →
        ⟦<AttrObj<A> as Hash>⟧.hash_input x ≡ ⟦<AttrObj<A> as Hash>⟧.hash_input y }
    ensures locations { (k l : Location A) → ⟦<Location<A> as PartialEq>⟧.eq k l ≡ true →
        ⟦<Location<A> as Hash>⟧.hash_input k ≡ ⟦<Location<A> as Hash>⟧.hash_input l }
{}

/// The stable hash of a source or a location, which is made from the texts of paths, is the same in any two contexts that have these paths.
pub fn stable_hashes_agree<A: AttrText<A>>()
    ensures sources { (paths others : List (List ℕ)) (s t : Source) →
        IsTrue (is_known (length paths) s) → IsTrue (is_known (length others) t) →
        path_of paths s ≡ path_of others t → source_writes paths s ≡ source_writes others t }
    ensures locations { (paths others : List (List ℕ)) (k l : LocationView A) →
        IsTrue (are_known (length paths) k) → IsTrue (are_known (length others) l) →
        written_with paths k ≡ written_with others l →
        location_writes A.hash_input paths k ≡ location_writes A.hash_input others l }
{}

/// The notation of a format denotes that format and no other, if the format has a notation: its literals are printable ASCII, its keys are
/// identifiers, and its indices are less than 2^64. Each format that a text denotes has one, and nothing is left of the text.
pub fn notations_come_back()
    ensures back { (format : Format) → has_notation format ≡ true
        → notation_at (notation_text format) ≡ means format [] }
    ensures whole { (text rest : List ℕ) (format : Format) → notation_at text ≡ means format rest →
        (has_notation format ≡ true) × (rest ≡ []) }
{}
