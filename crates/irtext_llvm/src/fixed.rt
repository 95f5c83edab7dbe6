//! The ranges of numbers in the texts of the dialect `llvm`.
ghost use Rattle.std.specs.Prelude.{refl};
ghost use Rattle.irtext_syntax.specs.Ranges.{from_to};

use irtext_syntax::range::Range;

/// The numbers from 1 to 8388607.
pub struct Bits;

impl Range for Bits {
    ghost bounds = { from_to 1 8388607 refl };

    fn bounds() -> (u64, u64) {
        (1, 8_388_607)
    }
}

/// The numbers from 1 to 4294967296.
pub struct Bytes;

impl Range for Bytes {
    ghost bounds = { from_to 1 4294967296 refl };

    fn bounds() -> (u64, u64) {
        (1, 4_294_967_296)
    }
}
