//! What the definitions give for the labels of blocks. Each function does nothing: its contract is a row that is computed.
ghost use Rattle.std.specs.Prelude.{◌≡◌, ℕ, List, [], ◌∷◌, codes, None, Some};
ghost use Rattle.irtext_tests_names.specs.Labels.Demo.{demo, isolated};
ghost use Rattle.irtext_tests_names.specs.Located.{text_locations, up_to_bracket};
ghost use Rattle.irtext_tests_names.specs.Graphs.{two_branches};
ghost use Rattle.irtext_tests_names.specs.Labels.Graphs.{a_and_b, b_and_x, block_with_x, block_z, entry_and_c0, function_with_entry, z_alone};
ghost use Rattle.irtext_tests_names.specs.Labels.Trees.{block_a, branches_as_read, built, built_block, label_is, label_refused, marked_block, marked_nop};
ghost use Rattle.irtext_tests_names.specs.Sections.{for_item};
ghost use Rattle.irtext_tests_names.specs.Trees.{at, marked};
ghost use Rattle.irtext_grammar.specs.Grammar.Forest.{no_operations};
ghost use Rattle.irtext_grammar.specs.Grammar.Section.{direct, of_once, reference};
ghost use Rattle.irtext_grammar.specs.Grammar.Tree.{ident, own};
ghost use Rattle.irtext_grammar.specs.Graphs.Build.{build};
ghost use Rattle.irtext_grammar.specs.Graphs.Closed.{Closed, Fit};
ghost use Rattle.irtext_grammar.specs.Graphs.Identifiers.{HasIdentifiers};
ghost use Rattle.irtext_grammar.specs.Graphs.Regained.{Named};
ghost use Rattle.irtext_grammar.specs.Graphs.ReservedKeys.{GraphKeepsKeys};
ghost use Rattle.irtext_grammar.specs.Graphs.RoundTrip.{GraphHeld};
ghost use Rattle.irtext_grammar.specs.Graphs.Same.{SmallGraph, resolved_root};
ghost use Rattle.irtext_grammar.specs.Graphs.Represents.{Distinct, Represents};
ghost use Rattle.irtext_grammar.specs.Names.Acts.{failures_of};
ghost use Rattle.irtext_grammar.specs.Spelling.Section.{text};
ghost use Rattle.irtext_grammar.specs.Spelling.SectionEntries.{SmallSection};

/// A labelled block is marked, also if its location is unknown and no attribute is outlined; one without a label is not.
pub fn a_labelled_entry()
    ensures { text demo entry_and_c0 function_with_entry 0 2 None
        ≡ codes "builtin.module @bar \n{\n  ^block1v1():\n    builtin.func @foo: builtin.function <()->(builtin.integer si64)> \n    {\n      ^entry_block2v1() !0:\n        c0_v0 = test.constant builtin.integer <0: si64>: builtin.integer si64 !1;\n        test.return c0_v0\n    }\n}\n\noutlined_attributes:\n!0 = [builtin_block_label = builtin.identifier entry]\n!1 = [builtin_given_names = builtin.given_names [c0]]\n" }
{}

/// Two labelled blocks with locations.
pub fn two_labels()
    ensures { text demo a_and_b two_branches 0 2 None
        ≡ codes "builtin.module @m \n{\n  ^a_block1v1() !0:\n    test.br ^b_block3v1 !1\n\n  ^b_block3v1() !2:\n    test.br ^a_block1v1 !3\n} !4\n\noutlined_attributes:\n!0 = @[<in-memory>: line: 1, column: 21], [builtin_block_label = builtin.identifier a]\n!1 = @[<in-memory>: line: 1, column: 27], []\n!2 = @[<in-memory>: line: 1, column: 38], [builtin_block_label = builtin.identifier b]\n!3 = @[<in-memory>: line: 1, column: 44], []\n!4 = @[<in-memory>: line: 1, column: 1], []\n" }
{}

/// A label comes before the outlined attributes.
pub fn a_label_first()
    ensures { text demo b_and_x block_with_x 0 2 None
        ≡ codes "builtin.module @m \n{\n  ^b_block1v1(x_v0: builtin.integer si64) !0:\n    test.use x_v0 !1\n} !2\n\noutlined_attributes:\n!0 = @[<in-memory>: line: 1, column: 21], [builtin_block_label = builtin.identifier b, builtin_given_names = builtin.given_names [x]]\n!1 = @[<in-memory>: line: 1, column: 50], []\n!2 = @[<in-memory>: line: 1, column: 1], []\n" }
{}

/// An entry's label replaces the parsed one, and is printed. Without an entry the parsed one stays.
pub fn a_label_of_an_entry()
    ensures resolves { failures_of isolated marked_block
        (for_item 56 0 (label_is 62 (direct (ident (codes "z"))) ∷ []) ∷ []) ≡ [] }
    ensures label { built marked_block (for_item 56 0 (label_is 62 (direct (ident (codes "z"))) ∷ []) ∷ [])
        ≡ built_block (codes "z") [] [] }
    ensures without_entry { built marked_block [] ≡ built_block (codes "a") [] [] }
    ensures is_printed { text demo z_alone block_z 0 2 None
        ≡ codes "builtin.module @m \n{\n  ^z_block1v1() !0:\n    test.nop !1\n} !2\n\noutlined_attributes:\n!0 = @[<in-memory>: line: 1, column: 21], [builtin_block_label = builtin.identifier z]\n!1 = @[<in-memory>: line: 1, column: 30], []\n!2 = @[<in-memory>: line: 1, column: 1], []\n" }
{}

/// A label is given by a reference too; the later of two counts; other attributes are stored, and the label is not.
pub fn labels_of_entries()
    ensures by_reference { built marked_block
        (for_item 56 0 (label_is 62 (reference (marked 84 7)) ∷ [])
        ∷ of_once (marked 90 7) (ident (codes "z")) ∷ []) ≡ built_block (codes "z") [] [] }
    ensures later { built marked_block (for_item 56 0
        (label_is 62 (direct (ident (codes "y"))) ∷ (at 70 (codes "k"), direct (own (codes "s")))
        ∷ label_is 75 (direct (ident (codes "z"))) ∷ []) ∷ [])
        ≡ built_block (codes "z") ((codes "k", own (codes "s")) ∷ []) [] }
    ensures of_an_operation { built marked_nop
        (for_item 56 0 (label_is 62 (direct (own (codes "s"))) ∷ []) ∷ [])
        ≡ built_block (codes "a") [] ((codes "builtin_block_label", own (codes "s")) ∷ []) }
    ensures is_ordinary_there { failures_of isolated marked_nop
        (for_item 56 0 (label_is 62 (direct (own (codes "s"))) ∷ []) ∷ []) ≡ [] }
{}

/// In a block's entry a label that is no identifier is an error at its key, also by a reference; in its dictionary any label is an error.
pub fn refused_labels()
    ensures in_an_entry { failures_of isolated (block_a None (Some (marked 26 0)) no_operations)
        (for_item 53 0 (label_is 59 (direct (own (codes "s"))) ∷ []) ∷ []) ≡ label_refused 59 }
    ensures by_reference { failures_of isolated marked_block
        (for_item 56 0 (label_is 62 (reference (marked 84 7)) ∷ []) ∷ of_once (marked 90 7) (own (codes "s"))
        ∷ []) ≡ label_refused 62 }
    ensures in_a_dictionary { failures_of {X = List ℕ} isolated
        (block_a (Some ((at 27 (codes "builtin_block_label"), ident (codes "z")) ∷ [])) None no_operations) []
        ≡ label_refused 27 }
{}

/// A root that meets every premise of the law that names and labels are parsed back, and that corresponds to what its text builds.
pub fn premises_of_labels()
    ensures premises { HasIdentifiers a_and_b two_branches × Fit a_and_b isolated two_branches
        × SmallGraph a_and_b isolated two_branches × GraphKeepsKeys two_branches
        × GraphHeld up_to_bracket text_locations two_branches × Closed a_and_b isolated two_branches
        × SmallSection a_and_b two_branches × Named a_and_b two_branches }
    ensures represented { (failures_of {X = List ℕ} isolated branches_as_read [] ≡ [])
        × Represents (resolved_root a_and_b isolated two_branches)
        (build {X = List ℕ} isolated (λ (place : ℕ). codes "first") [] branches_as_read)
        × Distinct a_and_b isolated two_branches }
{}
