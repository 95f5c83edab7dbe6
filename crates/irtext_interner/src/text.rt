//! Texts of which a short one is stored in place, without an allocation.
ghost use Rattle.std.specs.Prelude.{◌≡◌, IfOk, nat_eq};
ghost use Rattle.std.specs.Cmp.{on_equiv, on_per, partial_equiv_from_equiv};
ghost use Rattle.std.specs.Cmp.Lexicographic.{pointwise, bytes_decides, nat_list_eq_equiv};
ghost use Rattle.std.specs.Cmp.Rules.{hashing};
ghost use Rattle.std.specs.Hash as fed;
ghost use Rattle.std.specs.Str.{bytes_eq};
ghost use Rattle.std.proofs.Common.{rules, ap};

use arrayvec::ArrayString;
use indexmap::Equivalent;
use irtext_memory::{OutOfMemory, string};
use std::alloc::Global;
use std::hash::{Hash, Hasher};
use std::marker::Model;

/// How a text is stored: in place if it has up to 24 bytes, or in a string.
#[derive(Drop)]
enum Kept {
    Short(ArrayString<24>),
    Long(String),
}

/// A text.
#[derive(Drop)]
pub(crate) struct ShortText {
    kept: Kept,
}

impl Model for ShortText {
    ghost use Rattle.std.specs.Prelude.{ℕ, List};
    ghost use Rattle.irtext_interner.specs.Texts.{kept_bytes};

    ghost Value = { List ℕ };

    ghost view = { λ t. kept_bytes t.kept };
}

impl Kept {
    ghost use Rattle.irtext_interner.specs.Texts.{kept_bytes};

    /// Copies a text. Only a text of more than 24 bytes is allocated. Fails only if that allocation fails.
    fn of(alloc: Global, text: &str) -> Result<Kept, OutOfMemory>
        ensures { IfOk result (λ kept. kept_bytes kept ≡ text.now) }
    {
        if let Ok(short) = ArrayString::from(text) {
            return Ok(Kept::Short(short));
        }
        let long = string::from_str(alloc, text)?;
        Ok(Kept::Long(long))
    }

    fn as_str(&self) -> &str
        ensures { result.now ≡ kept_bytes self.now }
    {
        match self {
            Kept::Short(text) => text.as_str(),
            Kept::Long(text) => text.as_str(),
        }
    }
}

impl ShortText {
    /// Copies a text. Only a text of more than 24 bytes is allocated. Fails only if that allocation fails.
    pub(crate) fn of(alloc: Global, text: &str) -> Result<ShortText, OutOfMemory>
        ensures { IfOk result (λ t. t ≡ text.now) }
    {
        let kept = Kept::of(alloc, text)?;
        Ok(ShortText { kept })
    }

    /// Returns the text.
    pub(crate) fn as_str(&self) -> &str
        ensures { result.now ≡ self.now }
    {
        self.kept.as_str()
    }
}

impl PartialEq for ShortText {
    ghost eq = { λ x y. pointwise nat_eq x y };

    ghost laws = { on_per (λ s. s) (partial_equiv_from_equiv nat_list_eq_equiv) };

    fn eq(&self, other: &Self) -> bool {
        self.as_str() == other.as_str()
    }
}

impl Eq for ShortText {
    ghost laws = { on_equiv (λ s. s) nat_list_eq_equiv };
}

impl Hash for ShortText {
    ghost hash_input = { λ s. fed.str s };

    ghost respects_eq = { Prim.search (hashing, rules) };

    fn hash<H: Hasher>(&self, state: &mut H) {
        self.as_str().hash(state);
    }
}

impl Equivalent<ShortText> for &str {
    ghost equivalent = { λ q k. bytes_eq q.now k };

    ghost respects_hash = { λ q k h. ap fed.str ((bytes_decides q.now k).0 h) };

    ghost respects_eq = { λ q x y. nat_list_eq_equiv.congr q.now x y };

    fn equivalent(&self, key: &ShortText) -> bool {
        *self == key.as_str()
    }
}
