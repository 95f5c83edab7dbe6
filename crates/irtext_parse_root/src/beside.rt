//! Values that end beside a result. A value that is passed on so has no exit at which its caller ends it.
ghost use Rattle.std.specs.Prelude.{◌≡◌};

/// Ends a value, and returns what was made with it.
#[inline(always)]
pub(crate) fn ended<X: Drop, Y>(answer: Y, _value: X) -> Y
    ensures { result ≡ answer }
{
    answer
}
