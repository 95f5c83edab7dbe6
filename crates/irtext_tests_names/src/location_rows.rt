//! What the definitions give for worked locations. Each function does nothing: its contract is a row that is computed.
ghost use Rattle.std.specs.Prelude.{◌≡◌, [], ◌∷◌, ◌++◌, codes, None, Some};
ghost use Rattle.irtext_base.specs.Answers.{Bad, Missing, Read};
ghost use Rattle.irtext_base.specs.Faults.{ALocation, Unexpected, Word};
ghost use Rattle.irtext_base.specs.Locations.{all_noted, call_site, fused, location, no_location, own, unknown};
ghost use Rattle.irtext_base.specs.Moves.{all_kept, all_under};
ghost use Rattle.irtext_base.specs.declared.location.Source.TheVariants.{File};
ghost use Rattle.irtext_tests_names.specs.LocationRows.{name_alone, nested, note_at, note_text, place, Says, two_as_one};
ghost use Rattle.irtext_grammar.specs.Readers.Locations.{location_at};
ghost use Rattle.irtext_grammar.specs.Promises.LocationsBack.{AllFit, AllRead};

/// Locations of each kind: the printed text of each, and that the whole text parses as it.
pub fn texts_of_locations()
    ensures file { Says (place (Some (codes "foo.mlir")) 42 7) (codes "\"foo.mlir\": line: 42, column: 7") }
    ensures escaped_file { Says (place (Some (codes "a\"b\\c.mlir")) 1 1)
        (codes "\"a\\\"b\\\\c.mlir\": line: 1, column: 1") }
    ensures memory { Says (place None 1 2) (codes "<in-memory>: line: 1, column: 2") }
    ensures name { Says (name_alone (codes "foo")) (codes "name: \"foo\", loc: (?)") }
    ensures escaped_name { Says (name_alone (codes "a\"b\\c\nd\te" ++ 127 ∷ []))
        (codes "name: \"a\\\"b\\\\c\\nd\\te\\u{7f}\", loc: (?)") }
    ensures several { Says (two_as_one None) (codes "fused[<in-memory>: line: 3, column: 4, ?]") }
    ensures with_metadata { Says (fused (Some (own tt)) no_location) (codes "fused<note>[]") }
    ensures call { Says (call_site unknown unknown) (codes "callsite(? at ?)") }
    ensures inside { Says nested (codes
        "callsite(name: \"f\", loc: (callsite(? at ?)) at fused<note>[<in-memory>: line: 3, column: 4, ?])") }
    ensures none { Says unknown (codes "?") }
{}

/// Where white space is allowed in a location, and where it is not: between `>` and `[`, and inside the parentheses of a name.
pub fn space_in_locations()
    ensures several { location_at note_at (codes "fused < note >[ ? , ? ] x")
        ≡ Read (fused (Some (own tt)) (location unknown (location unknown no_location)))
        (codes "fused < note >[ ? , ? ]") (codes " x") }
    ensures before_bracket { location_at note_at (codes "fused<note> [?]")
        ≡ Bad (Unexpected (Some 32) (Word (codes "["))) (codes "fused<note>") }
    ensures call { location_at note_at (codes "callsite ( ?  at  ? ) x")
        ≡ Read (call_site unknown unknown) (codes "callsite ( ?  at  ? ) ") (codes "x") }
    ensures in_parentheses { location_at note_at (codes "name: \"a\", loc: ( ?)")
        ≡ Bad (Unexpected (Some 32) ALocation) (codes "name: \"a\", loc: (") }
    ensures none { location_at note_at (codes "x") ≡ Missing (Unexpected (Some 120) ALocation) }
{}

/// A location with metadata that meets every premise of the law that it is parsed back.
pub fn premises_of_a_location()
    ensures { AllRead note_at note_text nested × AllFit nested }
{}

/// A location in a context that keeps one of its two paths: the other comes last, and each file is under its key there.
pub fn a_location_in_another_context()
    ensures paths { all_kept (codes "b" ∷ [])
        (call_site (place (Some (codes "a")) 1 2) (place (Some (codes "b")) 3 4)) ≡ codes "b"
        ∷ codes "a" ∷ [] }
    ensures keys { all_noted [] (all_under (codes "b" ∷ [])
        (call_site (place (Some (codes "a")) 1 2) (place (Some (codes "b")) 3 4)))
        ≡ File (record { index = 1 }) ∷ File (record { index = 0 }) ∷ [] }
{}
