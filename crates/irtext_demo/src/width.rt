//! The widths of integer types.
ghost use Rattle.std.specs.Prelude.{◌≡◌, true};
ghost use Rattle.irtext_demo.specs.Widths.{is_width};

/// The number of bits of an integer type: from 1 to 65,535.
#[derive(Clone, Copy, PartialEq, Eq, Hash, Debug)]
pub struct Width {
    bits: u16,
    ghost in_range: { is_width bits ≡ true },
}

impl Width {
    ghost use Rattle.irtext_demo.specs.WidthOf.{width_of};

    /// Returns the width with this number of bits, or `None` if it is not from 1 to 65,535.
    pub fn new(bits: usize) -> Option<Width>
        ensures { result ≡ width_of bits }
    {
        if bits == 0 || bits > 65535 {
            return None;
        }
        Some(Width { bits: bits as u16 })
    }

    /// Returns the number of bits.
    pub fn bits(self) -> u16
        ensures { result ≡ self.bits }
    {
        self.bits
    }
}
