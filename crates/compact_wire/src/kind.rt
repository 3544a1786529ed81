//! Type codes and what they stand for.

ghost use Rattle.std.specs.Prelude.{◌≡◌};
ghost use Rattle.compact_wire.specs.Codes.{kind_of as kind_for, code_of as code_for};
ghost use Rattle.compact_wire.specs.Reads.{fits as fits_at};

/// What a type code stands for.
#[derive(Clone, Copy, Debug)]
pub enum Kind {
    Flag,
    I8,
    I16,
    I32,
    I64,
    Double,
    Binary,
    List,
    Set,
    Map,
    Struct,
}

/// The kind of a type code.
#[tactic(auto, unfolding(crate::specs::Codes::kind_of))]
#[inline]
pub fn kind_of(code: u8) -> Option<Kind>
    ensures { result ≡ kind_for code }
{
    match code {
        1 | 2 => Some(Kind::Flag),
        3 => Some(Kind::I8),
        4 => Some(Kind::I16),
        5 => Some(Kind::I32),
        6 => Some(Kind::I64),
        7 => Some(Kind::Double),
        8 => Some(Kind::Binary),
        9 => Some(Kind::List),
        10 => Some(Kind::Set),
        11 => Some(Kind::Map),
        12 => Some(Kind::Struct),
        _ => None,
    }
}

/// The type code of a kind.
#[inline]
pub fn code_of(kind: Kind) -> u8
    ensures { result ≡ code_for kind }
{
    match kind {
        Kind::Flag => 1,
        Kind::I8 => 3,
        Kind::I16 => 4,
        Kind::I32 => 5,
        Kind::I64 => 6,
        Kind::Double => 7,
        Kind::Binary => 8,
        Kind::List => 9,
        Kind::Set => 10,
        Kind::Map => 11,
        Kind::Struct => 12,
    }
}

/// Whether a value of the kind may stand where so many levels may still open.
#[inline]
pub fn fits(levels: u32, kind: Kind) -> bool
    ensures { result ≡ fits_at levels kind }
{
    match kind {
        Kind::List | Kind::Set | Kind::Map | Kind::Struct => levels > 0,
        _ => true,
    }
}
