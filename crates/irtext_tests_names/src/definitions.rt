//! What the definitions give for worked texts, trees, graphs and formats. Each function does nothing: its contract is a row that
//! is computed.
ghost use Rattle.std.specs.Prelude.{◌≡◌, ℕ, List, [], ◌∷◌, ◌++◌, codes, length, pos, Some, None, true};
ghost use Rattle.irtext_base.specs.Format as format;
ghost use Rattle.irtext_base.specs.Locations.{location, src_pos};
ghost use Rattle.irtext_base.specs.Text.{after_space, column_after, line_after};
ghost use Rattle.irtext_base.specs.declared.location.Source.TheVariants.{InMemory};
ghost use Rattle.irtext_tests_names.specs.Demo.{counted_demo, demo, inline_printing, isolated, labelled_printing, plain_printing};
ghost use Rattle.irtext_tests_names.specs.Formats.{Breaks, Kept};
ghost use Rattle.irtext_tests_names.specs.Graphs.{global_pointer, one_note_twice, two_branches, use_before_definition};
ghost use Rattle.irtext_tests_names.specs.Located.{note_on_line_one, text_locations, up_to_bracket};
ghost use Rattle.irtext_tests_names.specs.LocationRows.{place};
ghost use Rattle.irtext_tests_names.specs.Sections.{dictionary_after, early_and_marked, early_built, for_item, note_and_location, note_nine, wrong_after, wrong_names};
ghost use Rattle.irtext_tests_names.specs.Trees as trees;
ghost use Rattle.irtext_tests_names.specs.Trees.{empty_block, failure, marked, only_modules, wrong};
ghost use Rattle.irtext_grammar.specs.Grammar.Reads.{reads};
ghost use Rattle.irtext_grammar.specs.Grammar.Section.{of_once};
ghost use Rattle.irtext_grammar.specs.Grammar.Tree.{Tree, own};
ghost use Rattle.irtext_grammar.specs.Graphs.Build.{build, put_all};
ghost use Rattle.irtext_grammar.specs.Graphs.Closed.{Closed, Fit};
ghost use Rattle.irtext_grammar.specs.Graphs.Graph.{written};
ghost use Rattle.irtext_grammar.specs.Graphs.Identifiers.{HasIdentifiers};
ghost use Rattle.irtext_grammar.specs.Graphs.Links.{Linked, links};
ghost use Rattle.irtext_grammar.specs.Graphs.ReservedKeys.{GraphKeepsKeys};
ghost use Rattle.irtext_grammar.specs.Names.Script.{DuplicateIndex, MultipleDefinitions, NoActiveScope, NotIsolated, ReservedKey, ResultCount, UnknownIndex, UnknownPrintOnce, UnresolvedReference};
ghost use Rattle.irtext_grammar.specs.Graphs.RoundTrip.{GraphHeld};
ghost use Rattle.irtext_grammar.specs.Graphs.Same.{SmallGraph};
ghost use Rattle.irtext_grammar.specs.Names.Acts.{failures_of};
ghost use Rattle.irtext_grammar.specs.Spelling.Section.{text};
ghost use Rattle.irtext_grammar.specs.Names.Script as script;
ghost use Rattle.irtext_grammar.specs.Spelling.SectionEntries.{SmallSection};
ghost use Rattle.irtext_grammar.specs.Spelling.Spell.{spelled};
ghost use Rattle.irtext_grammar.specs.Promises.Root.{location_of};

/// A module with an empty block: its printed text, and that this text parses as it.
pub fn an_empty_block()
    ensures is_written { spelled only_modules 2 0 empty_block
        ≡ codes "builtin.module @bar \n{\n  ^block1v1():\n    \n}" }
    ensures is_read { (rest : List ℕ) × reads only_modules empty_block
        (codes "builtin.module @bar \n{\n  ^block1v1():\n    \n}" ++ []) rest × (after_space rest ≡ []) }
{}

/// An empty text is no operation.
pub fn an_empty_text()
    ensures { (t : Tree ℕ ⊥ ⊥) (rest : List ℕ) → reads only_modules t [] rest → ⊥ }
{}

/// Two blocks that branch to one another, each item with its location: marks are numbered through the root, and a region that is
/// not shown has none.
pub fn two_blocks_with_locations()
    ensures whole { text demo labelled_printing two_branches 0 2 None
        ≡ codes "builtin.module @m \n{\n  ^a_block1v1() !0:\n    test.br ^b_block3v1 !1\n\n  ^b_block3v1() !2:\n    test.br ^a_block1v1 !3\n} !4\n\noutlined_attributes:\n!0 = @[<in-memory>: line: 1, column: 21], [builtin_block_label = builtin.identifier a]\n!1 = @[<in-memory>: line: 1, column: 27], []\n!2 = @[<in-memory>: line: 1, column: 38], [builtin_block_label = builtin.identifier b]\n!3 = @[<in-memory>: line: 1, column: 44], []\n!4 = @[<in-memory>: line: 1, column: 1], []\n" }
    ensures no_region { text demo labelled_printing two_branches 0 2 (Some 0)
        ≡ codes "builtin.module @m {..} !0\n\noutlined_attributes:\n!0 = @[<in-memory>: line: 1, column: 1], []\n" }
{}

/// Two operations with the same debug note: the section has the note once, with the next number after the entries.
pub fn a_shared_note()
    ensures { text demo plain_printing one_note_twice 0 2 None
        ≡ codes "builtin.module @m \n{\n  ^block1v1():\n    test.nop !0;\n    test.nop !1\n}\n\noutlined_attributes:\n!0 = [dbg = !2]\n!1 = [dbg = !2]\n!2 = test.dbg \"s\"\n" }
{}

/// An operation in the canonical form, which has a result and two attributes.
pub fn the_canonical_text()
    ensures { spelled demo 2 0 (written inline_printing None global_pointer)
        ≡ codes "v1 = test.global () [] [builtin_sym_name: builtin.identifier global_0, test_global_op_const_val: builtin.integer <0: si64>]: <() -> (test.ptr )>" }
{}

/// Formats that are rejected, by the condition that they break first.
pub fn refused_formats()
    ensures words { Breaks 1 (format.word [] ∷ []) × Breaks 1 (format.word (codes "a b") ∷ [])
        × Breaks 1 (format.operand 1 ∷ format.word (codes "a b") ∷ []) }
    ensures operands { Breaks 2 (format.operand 1 ∷ []) × Breaks 2 (format.operand 0 ∷ format.operand 0 ∷ [])
        × Breaks 2 (format.operands ∷ format.operands ∷ []) }
    ensures successors { Breaks 3 (format.successor 1 ∷ []) }
    ensures types { Breaks 4 (format.result_type 1 ∷ [])
        × Breaks 4 (format.result_type 0 ∷ format.word (codes ":") ∷ format.result_type 0 ∷ []) }
    ensures regions { Breaks 5 (format.region 1 ∷ format.region 0 ∷ [])
        × Breaks 5 (format.regions ∷ format.region 0 ∷ []) × Breaks 5 (format.regions ∷ format.regions ∷ []) }
    ensures keys { Breaks 6 (format.attribute (codes "k") ∷ format.attribute (codes "k") ∷ [])
        × Breaks 6 (format.attribute (codes "builtin_given_names") ∷ [])
        × Breaks 6 (format.dictionary ∷ format.dictionary ∷ [])
        × Breaks 6 (format.header ∷ format.attribute (codes "builtin_sym_name") ∷ []) }
    ensures after_regions { Breaks 7 (format.region 0 ∷ format.operand 0 ∷ [])
        × Breaks 7 (format.region 0 ∷ format.operands ∷ [])
        × Breaks 7 (format.region 0 ∷ format.result_type 0 ∷ []) }
    ensures after_lists { Breaks 8 (format.successors ∷ [])
        × Breaks 8 (format.operands ∷ format.word (codes "to") ∷ [])
        × Breaks 8 (format.operands ∷ format.attribute (codes "k") ∷ [])
        × Breaks 8 (format.operands ∷ format.operand 0 ∷ [])
        × Breaks 8 (format.operands ∷ format.word (codes ",") ∷ format.operand 0 ∷ [])
        × Breaks 8 (format.successors ∷ format.operands ∷ [])
        × Breaks 8 (format.operands ∷ format.successors ∷ [])
        × Breaks 8 (format.operands ∷ format.successors ∷ format.word (codes "x") ∷ [])
        × Breaks 8 (format.regions ∷ format.word (codes "{") ∷ []) }
{}

/// Formats that are accepted, similar to the rejected ones.
pub fn accepted_formats()
    ensures words { Kept [] × Kept (format.word (codes "a") ∷ format.word (codes "b") ∷ []) }
    ensures operands { Kept (format.operand 1 ∷ format.word (codes ",") ∷ format.operand 0 ∷ [])
        × Kept (format.operand 0 ∷ format.word (codes ",") ∷ format.operands ∷ []) }
    ensures successors { Kept (format.successor 1 ∷ format.successor 0 ∷ []) }
    ensures types { Kept (format.result_type 0 ∷ []) }
    ensures regions { Kept (format.region 0 ∷ format.region 1 ∷ [])
        × Kept (format.region 0 ∷ format.regions ∷ []) × Kept (format.operands ∷ format.region 0 ∷ [])
        × Kept (format.region 0 ∷ format.attribute (codes "k") ∷ []) }
    ensures keys { Kept (format.attribute (codes "builtin_sym_name") ∷ [])
        × Kept (format.header ∷ format.dictionary ∷ []) }
    ensures after_lists { Kept (format.operands ∷ format.word (codes "->") ∷ [])
        × Kept (format.operands ∷ format.dictionary ∷ []) × Kept (format.operands ∷ format.header ∷ [])
        × Kept (format.successors ∷ format.operand 0 ∷ [])
        × Kept (format.operands ∷ format.successors ∷ format.word (codes ":") ∷ [])
        × Kept (format.regions ∷ format.word (codes ":") ∷ []) }
{}

/// Names without a definition are reported where their region begins, values before labels, each in order of first mention.
pub fn unknown_names()
    ensures values { wrong trees.two_unknown ≡ failure (UnresolvedReference (codes "y")) 19
        ∷ failure (UnresolvedReference (codes "x")) 19 ∷ [] }
    ensures label { wrong trees.unknown_label_and_value ≡ failure (UnresolvedReference (codes "x")) 19
        ∷ failure (UnresolvedReference (codes "b")) 19 ∷ [] }
    ensures outward { wrong trees.branch_outward ≡ failure (UnresolvedReference (codes "a")) 38 ∷ [] }
{}

/// A name that its scope defines twice. Regions that are not isolated share one scope of values.
pub fn names_defined_twice()
    ensures labels { wrong trees.label_twice ≡ failure (MultipleDefinitions (codes "a")) 27 ∷ [] }
    ensures arguments { wrong trees.argument_twice ≡ failure (MultipleDefinitions (codes "x")) 49 ∷ [] }
    ensures regions { wrong trees.defined_in_both ≡ failure (MultipleDefinitions (codes "x")) 104 ∷ [] }
{}

/// A use before its definition, and a use of what a nested region defines, are allowed.
pub fn names_defined_late()
    ensures early { wrong trees.used_early ≡ [] }
    ensures inside { wrong trees.defined_inside ≡ [] }
{}

/// An operation has as many names as results.
pub fn result_counts()
    ensures more { wrong trees.too_many_names ≡ failure (ResultCount 1 2) 27 ∷ [] }
    ensures fewer { wrong trees.too_few_names ≡ failure (ResultCount 1 0) 27 ∷ [] }
{}

/// A root has no results, and is isolated if it has regions.
pub fn wrong_roots()
    ensures result { wrong trees.root_with_result ≡ failure (NoActiveScope (codes "x")) 1 ∷ [] }
    ensures no_results { wrong trees.root_without_results ≡ [] }
    ensures not_isolated { wrong trees.root_not_isolated ≡ record { cause = NotIsolated; at = None } ∷ [] }
{}

/// A label that a root uses is outside of every region. The error is at its name, one character after the `^`.
pub fn a_label_of_no_region()
    ensures is_read { reads counted_demo trees.branch_of_root (codes "test.br ^a") [] }
    ensures is_refused { wrong trees.branch_of_root
        ≡ failure (NoActiveScope (codes "a")) (length (codes "a")) ∷ [] }
{}

/// One index marks two items.
pub fn marks_of_one_index()
    ensures { wrong trees.one_index_twice ≡ failure (DuplicateIndex 0) 39 ∷ [] }
{}

/// Entries after `builtin.module @m {} !3`.
pub fn entries_of_a_section()
    ensures accepted { wrong_after (for_item 60 3 (note_nine ∷ [])
        ∷ of_once (marked 40 9) (own (codes "s")) ∷ []) ≡ [] }
    ensures without_entry { wrong_after [] ≡ [] }
    ensures unknown_attribute { wrong_after (for_item 60 3 (note_nine ∷ []) ∷ [])
        ≡ failure (UnknownPrintOnce 9) 48 ∷ [] }
    ensures second_entry { wrong_after (for_item 60 3 [] ∷ for_item 50 3 [] ∷ [])
        ≡ failure (UnknownIndex 3) 50 ∷ [] }
    ensures no_item { wrong_after (for_item 60 4 [] ∷ []) ≡ failure (UnknownIndex 4) 60 ∷ [] }
    ensures reserved_key { wrong_after (for_item 60 3 (wrong_names 50 ∷ []) ∷ [])
        ≡ failure (ReservedKey (codes "builtin_given_names")) 50 ∷ [] }
{}

/// Entries and keys are reported in the order of the text, references after the last entry, and a dictionary after the region before it.
pub fn order_of_reports()
    ensures section { wrong_after (for_item 60 3 (note_nine ∷ []) ∷ for_item 45 7 (wrong_names 44 ∷ []) ∷ [])
        ≡ failure (UnknownIndex 7) 45 ∷ failure (ReservedKey (codes "builtin_given_names")) 44
        ∷ failure (UnknownPrintOnce 9) 48 ∷ [] }
    ensures dictionary { wrong dictionary_after ≡ failure (MultipleDefinitions (codes "x")) 72
        ∷ failure (ReservedKey (codes "builtin_given_names")) 60 ∷ [] }
{}

/// What is built from a use before its definition, with an entry for the definition's mark.
pub fn a_built_root()
    ensures resolves { failures_of isolated early_and_marked note_and_location ≡ [] }
    ensures graph { (build isolated (λ (place : ℕ). codes "first") note_and_location early_and_marked).regions
        ≡ early_built }
    ensures uses { links (build isolated (λ (place : ℕ). codes "first") note_and_location early_and_marked)
        ≡ (script.operand (0 ∷ 0 ∷ 0 ∷ []) 0, script.result (1 ∷ 0 ∷ 0 ∷ []) 0) ∷ [] }
    ensures none_missing { Linked (build isolated (λ (place : ℕ). codes "first") note_and_location
        early_and_marked) }
{}

/// A key that occurs twice keeps its first place and takes the later value.
pub fn a_key_twice()
    ensures { put_all {V = ℕ} [] ((codes "a", 1) ∷ (codes "b", 2) ∷ (codes "a", 3) ∷ []) ≡ (codes "a", 3)
        ∷ (codes "b", 2) ∷ [] }
{}

/// A root that meets every premise of the round trip.
pub fn premises_of_the_round_trip()
    ensures { HasIdentifiers plain_printing use_before_definition
        × Fit plain_printing isolated use_before_definition
        × SmallGraph plain_printing isolated use_before_definition
        × GraphKeepsKeys use_before_definition × Closed plain_printing isolated use_before_definition }
{}

/// A root whose section has a location, and a note that two items share: its printed text, and that it meets every premise of the
/// round trip with a section.
pub fn premises_of_a_section()
    ensures is_written { text demo plain_printing note_on_line_one 0 2 None
        ≡ codes "builtin.module @m \n{\n  ^block1v1():\n    test.nop !0;\n    test.nop !1\n}\n\noutlined_attributes:\n!0 = @[<in-memory>: line: 1, column: 27], [dbg = !2]\n!1 = [dbg = !2]\n!2 = test.dbg \"s\"\n" }
    ensures premises { HasIdentifiers plain_printing note_on_line_one
        × Fit plain_printing isolated note_on_line_one × SmallGraph plain_printing isolated note_on_line_one
        × GraphKeepsKeys note_on_line_one
        × GraphHeld up_to_bracket text_locations note_on_line_one
        × Closed plain_printing isolated note_on_line_one × SmallSection plain_printing note_on_line_one }
    ensures equality { ((a b : List ℕ) → plain_printing.same_own a b ≡ true → a ≡ b)
        × ((a : List ℕ) → plain_printing.same_own a a ≡ true) }
{}

/// The position of a place after a text, in lines and characters.
pub fn lines_and_columns()
    ensures beginning { (line_after [] ≡ 1) × (column_after [] ≡ 1) }
    ensures second_line { (line_after (codes "ab\nc") ≡ 2) × (column_after (codes "ab\nc") ≡ 2) }
{}

/// The place one character before the end of two lines is in the second.
pub fn where_a_place_is()
    ensures { location_of {A = ⊥} [] InMemory (codes "ab\ncd") 1
        ≡ src_pos None (record { line = pos 2; column = pos 2 }) }
{}
