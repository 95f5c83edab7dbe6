//! Laws of quoted strings.
ghost use Rattle.std.specs.Prelude.{◌≡◌, ℕ, List, [], ◌∷◌, ◌++◌, false};
ghost use Rattle.irtext_base.specs.Text.{begins};
ghost use Rattle.irtext_base.specs.Reading.{the};
ghost use Rattle.irtext_base.specs.Answers.{Read, followed, mapped};
ghost use Rattle.irtext_base.specs.Quoted.{quoted};
ghost use Rattle.irtext_tokens.specs.QuotedTexts.{quoted_at, unit_at, units_at};

/// Characters that were printed as a quoted string are parsed back as the same characters, whatever comes after the string.
pub fn quoted_comes_back()
    ensures { (cs after : List ℕ) → quoted_at (quoted cs ++ after) ≡ Read cs (quoted cs) after }
{}

/// If the text does not begin with a quotation mark, its units denote the character of the first unit, and then what the units after it
/// denote.
pub fn unit_by_unit()
    ensures { (text : List ℕ) → begins (the 34) text ≡ false →
        units_at [] text ≡ followed (unit_at text) (λ c rest. mapped (λ cs. c ∷ cs) (units_at [] rest)) }
{}
