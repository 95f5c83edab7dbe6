//! The fixed words and the ranges of numbers in the texts of the dialect `arith`.
ghost use Rattle.std.specs.Prelude.{codes, refl};
ghost use Rattle.irtext_syntax.specs.KeywordTexts.{fixed_word};
ghost use Rattle.irtext_syntax.specs.Ranges.{from_to};

use irtext_syntax::keyword::Word;
use irtext_syntax::range::Range;

/// The word `nsw`.
pub struct NoSignedWrap;

impl Word for NoSignedWrap {
    ghost word = { fixed_word (codes "nsw") refl };

    fn word() -> &'static str {
        "nsw"
    }
}

/// The word `nuw`.
pub struct NoUnsignedWrap;

impl Word for NoUnsignedWrap {
    ghost word = { fixed_word (codes "nuw") refl };

    fn word() -> &'static str {
        "nuw"
    }
}

/// The numbers from 1 to 4096.
pub struct Bytes;

impl Range for Bytes {
    ghost bounds = { from_to 1 4096 refl };

    fn bounds() -> (u64, u64) {
        (1, 4_096)
    }
}
