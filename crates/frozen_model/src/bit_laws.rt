//! The laws of binary digits, each a function whose contract is the law.

ghost use Rattle.frozen_model.specs.BitLaws.{FieldIsBits, BitsAreInjective, UnsignedNeedIsLeast, SignedNeedIsLeast};
ghost use Rattle.frozen_model.specs.BitLaws.{OnlyZeroNeedsNone, ComplementIsInverse, SignedIsInverse};

/// The number in a field is written by the bits that stand there.
pub fn field_is_bits()
    ensures { FieldIsBits }
{}

/// Numbers of one width with the same binary digits are one number.
pub fn bits_are_injective()
    ensures { BitsAreInjective }
{}

/// A width holds an unsigned number exactly where it is at least the number's need.
pub fn unsigned_need_is_least()
    ensures { UnsignedNeedIsLeast }
{}

/// A width of 1 or more holds a signed number exactly where it is at least the number's need.
pub fn signed_need_is_least()
    ensures { SignedNeedIsLeast }
{}

/// Width 0 holds the number 0 alone.
pub fn only_zero_needs_none()
    ensures { OnlyZeroNeedsNone }
{}

/// Two's complement of a width loses no signed number that the width holds.
pub fn complement_is_inverse()
    ensures { ComplementIsInverse }
{}

/// Each number of a width is the two's complement of one signed number that the width holds.
pub fn signed_is_inverse()
    ensures { SignedIsInverse }
{}
