//! Laws of the places of labels: the place of a used label and of a block's label in the text that they were parsed from, and the place
//! of their errors. A place is the number of characters from there to the end of the text.
ghost use Rattle.std.specs.Prelude.{◌≡◌, ℕ, suc, Bool, List, ◌++◌, codes, length, None, Option, Some, true};
ghost use Rattle.irtext_base.specs.Format.{Format, Id};
ghost use Rattle.irtext_base.specs.Own.{language, Texts};
ghost use Rattle.irtext_base.specs.Reading.{the};
ghost use Rattle.irtext_base.specs.Text.{begins, front, in_word};
ghost use Rattle.irtext_grammar.specs.Names.Acts.{word_of};
ghost use Rattle.irtext_grammar.specs.Grammar.Forest.{Blocks};
ghost use Rattle.irtext_grammar.specs.Names.LabelPlaces.{Fails, IsDefined, Passes};
ghost use Rattle.irtext_grammar.specs.Names.Placeholders.{In};
ghost use Rattle.irtext_grammar.specs.Grammar.Reads.{block_readings, label, region_read, target};
ghost use Rattle.irtext_grammar.specs.Names.Scopes.{uses};
ghost use Rattle.irtext_grammar.specs.Names.Script.{define_label, use_label, within, MultipleDefinitions};
ghost use Rattle.irtext_grammar.specs.Names.Script.{NoActiveScope, Place, UnresolvedReference, User};
ghost use Rattle.irtext_grammar.specs.Names.TextScopes.{facts, failures, left_open, Fact, Failure, Scopes, Script};
ghost use Rattle.irtext_grammar.specs.Grammar.Tree.{shown, Brace, Head, Name, Op};

/// The place of a used label is after its `^`, where its name begins. Outside of every region the use fails, with that place. Inside a
/// region the use itself never fails.
pub fn used_labels<T, A>()
    ensures at_name { (types : Texts T) (owns : Texts A) (formats : Id → Option Format) (n : Name ℕ)
        (text rest : List ℕ) →
        target (language types owns formats) n text rest →
        (name : List ℕ) × (text ≡ codes "^" ++ name) × (n.place ≡ length name)
        × (n.text ≡ front in_word name) }
    ensures no_scope { (types : Texts T) (owns : Texts A) (formats : Id → Option Format) (n : Name ℕ)
        (name rest : List ℕ) (scopes : Scopes) (user : User) →
        target (language types owns formats) n (codes "^" ++ name) rest → scopes.labels ≡ None →
        Fails scopes (use_label (word_of n) user)
        (record { cause = NoActiveScope n.text; at = Some (length name) }) }
    ensures in_scope { (n : Name ℕ) (scopes : Scopes) (user : User) (scope : List Fact) →
        scopes.labels ≡ Some scope → Passes scopes (use_label (word_of n) user) }
{}

/// If a label is used in a region and no block of the region defines it, the error is at the region's `{`, not at the use. All other
/// names that are unresolved at the end of the region have their error at the same place.
pub fn labels_left_open<T, A>()
    ensures at_brace { (types : Texts T) (owns : Texts A) (formats : Id → Option Format) (place : ℕ)
        (blocks : Blocks (Op ℕ T A) (Head ℕ T A) (Brace ℕ)) (text rest : List ℕ) →
        let l = language types owns formats in
        region_read l (shown place) (block_readings l blocks) text rest → (begins (the 123) text ≡ true)
        × (place ≡ length text) }
    ensures reported { (place : ℕ) (scopes : Scopes) (isolated : Bool) (body following : Script)
        (name : List ℕ)
        (user : User) →
        In (uses name user) (facts body).labels → (IsDefined name (facts body).labels → ⊥) →
        In (record { cause = UnresolvedReference name; at = Some place })
        (failures scopes (within isolated place body following)) }
    ensures nowhere_else { (place : ℕ) (isolated : Bool) (body : Script) (failure : Failure) →
        In failure (left_open place isolated (facts body)) → failure.at ≡ Some place }
{}

/// The place of a block's label is its `^`. If its scope has a label of that name already, the definition fails, with that place.
/// Otherwise it does not fail.
pub fn block_labels<T, A>()
    ensures at_caret { (types : Texts T) (owns : Texts A) (formats : Id → Option Format) (n : Name ℕ)
        (text rest : List ℕ) →
        label (language types owns formats) n text rest → (begins (the 94) text ≡ true)
        × (n.place ≡ length text) }
    ensures again { (types : Texts T) (owns : Texts A) (formats : Id → Option Format) (n : Name ℕ)
        (text rest : List ℕ) (scopes : Scopes) (place : Place) (scope : List Fact) →
        label (language types owns formats) n text rest → scopes.labels ≡ Some scope
        → IsDefined n.text scope →
        Fails scopes (define_label (word_of n) place)
        (record { cause = MultipleDefinitions n.text; at = Some (length text) }) }
    ensures first { (n : Name ℕ) (scopes : Scopes) (place : Place) (scope : List Fact) →
        scopes.labels ≡ Some scope → (IsDefined n.text scope → ⊥) →
        Passes scopes (define_label (word_of n) place) }
{}

/// If one text is parsed as a block's label and also as a used label, both have the same name, and the place of the block's label is
/// one character before the place of the used label.
pub fn one_character_apart<T, A>()
    ensures { (types : Texts T) (owns : Texts A) (formats : Id → Option Format) (block used : Name ℕ)
        (text t u : List ℕ) →
        let l = language types owns formats in
        label l block text t → target l used text u → (block.text ≡ used.text)
        × (block.place ≡ suc used.place) }
{}
