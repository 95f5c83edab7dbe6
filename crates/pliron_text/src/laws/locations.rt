//! Laws of the text of locations. The printed text of a location parses back to that location. A bound on the nesting depth that is at
//! least the length of the text does not change the result.
ghost use Rattle.std.specs.Prelude.{◌≡◌, ◌≤◌, ℕ, List, ◌++◌, false, length};
ghost use Rattle.std.specs.Char.{is_whitespace};
ghost use Rattle.irtext_base.specs.Answers.{Outcome};
ghost use Rattle.irtext_base.specs.Locations.{AttrView};
ghost use Rattle.irtext_base.specs.Paths.{Written};
ghost use Rattle.irtext_base.specs.Text.{after_space, begins};
ghost use Rattle.irtext_grammar.specs.Readers.RestLengths.{LeavesNoMore};
ghost use Rattle.irtext_grammar.specs.Readers.Locations.{location_at, location_within, more_within};
ghost use Rattle.irtext_grammar.specs.Spelling.Locations.{written_text};
ghost use Rattle.irtext_grammar.specs.Promises.LocationsBack.{AllFit, AllRead, EndsLocation, GivesBack, left_after};

/// The printed text of a location of any kind parses back to that location, if no digit follows it, its metadata parses back, and its
/// paths, names, lines and columns fit: paths and names are UTF-8, lines and columns fit their type. `within` says the same under each
/// bound on the nesting that is at least the length of the text. A call site also takes the white space that follows it; every other
/// location takes nothing of what follows.
pub fn location_comes_back<A>()
    ensures reads { (attr : List ℕ → Outcome (AttrView A)) (text_of : A → List ℕ) (l : Written A)
        (rest : List ℕ) → AllRead attr text_of l → AllFit l → EndsLocation rest →
        let text = written_text text_of l ++ rest in GivesBack (location_at attr text) l text
        (left_after l rest) }
    ensures within { (attr : List ℕ → Outcome (AttrView A)) (text_of : A → List ℕ) (l : Written A)
        (rest : List ℕ) (n : ℕ) → AllRead attr text_of l → AllFit l → EndsLocation rest →
        let text = written_text text_of l ++ rest in length text ≤ n
        → GivesBack (location_within attr n text) l text (left_after l rest) }
    ensures leaves { (l : Written A) (rest : List ℕ) → after_space (left_after l rest) ≡ after_space rest }
    ensures leaves_all { (l : Written A) (rest : List ℕ) → begins is_whitespace rest ≡ false
        → left_after l rest ≡ rest }
{}

/// Two locations with the same text are the same location, if the text of each parses back.
pub fn location_texts_differ<A>()
    ensures { (attr : List ℕ → Outcome (AttrView A)) (text_of : A → List ℕ) (l k : Written A) →
        AllRead attr text_of l → AllFit l → AllRead attr text_of k → AllFit k →
        written_text text_of l ≡ written_text text_of k → l ≡ k }
{}

/// Assumes that the parser of attributes never leaves more text than it was given. Then two bounds on the nesting that are both at
/// least the length of the text give the same result for that text, and the parser of locations never leaves more text than it was
/// given.
pub fn bound_is_enough<A>()
    ensures locations { (attr : List ℕ → Outcome (AttrView A)) (m n : ℕ) (text : List ℕ) →
        LeavesNoMore attr → length text ≤ m → length text ≤ n →
        location_within attr m text ≡ location_within attr n text }
    ensures rows { (attr : List ℕ → Outcome (AttrView A)) (m n : ℕ) (text : List ℕ) → LeavesNoMore attr →
        length text ≤ m → length text ≤ n → more_within attr m text ≡ more_within attr n text }
    ensures leaves_no_more { (attr : List ℕ → Outcome (AttrView A)) → LeavesNoMore attr
        → LeavesNoMore (location_at attr) }
{}
