//! Trees of values that are no containers, and sets and maps of trees whose keys differ.

ghost use Rattle.std.specs.Prelude.{◌≡◌, ◌≢◌, ◌≤◌, ◌*◌, ◌++◌, ◌∷◌, [], Ok, IfOk, OnOk, AllPairs, length, map};
ghost use Rattle.exact_reading.specs.Reading.{seen};
ghost use Rattle.compact_wire.specs.Reads.{scalar};
ghost use Rattle.idl_profile.specs.Types.{kind_of};
ghost use Rattle.idl_profile.specs.declared.kinds.TypeKind.{TypeKind};
ghost use Rattle.idl_parse.specs.Refs.{type_of_ref};
ghost use Rattle.frozen_model.specs.Trees.{ASet, AMap};
ghost use Rattle.frozen_model.specs.Values.{Items, key_of};
ghost use Rattle.key_order.specs.Keys.{value_of, AreOneKind};
ghost use Rattle.key_order.specs.InOrder.{row, in_order};
ghost use Rattle.typed_tree.specs.Parts.{IsText, pairs};
ghost use Rattle.typed_tree.specs.Trees.{trees, last, but_last};
ghost use Rattle.compact_codec.specs.Building.{IsClean, with_value};

use compact_wire::Kind;
use key_order::Key;
use std::alloc::AllocError;
use std::str;
use thrift_idl::{TypeKind, TypeRef};
use typed_reading::read_key;
use typed_tree::{Builder, TableFault};

/// Puts a flag, a number, or bytes, which of a text's type are a text.
#[inline(always)]
fn push_key(ty: TypeRef<'_>, key: Key<'_>, builder: &mut Builder) -> Result<(), AllocError>
    requires { kind_of (type_of_ref ty) ≡ TypeKind.Text → IsText (value_of key) }
    ensures { OnOk result (trees builder.new ≡ trees builder.old ++ value_of key.entry ∷ []) }
{
    match key {
        Key::Flag(x) => builder.flag(x),
        Key::Number(x) => builder.int(x),
        Key::Bytes(x) => match ty.kind() {
            TypeKind::Text => builder.text(unsafe { str::from_utf8_unchecked(x) }),
            _ => builder.bytes(x),
        },
    }
}

/// A value of a kind that is no container.
#[inline(always)]
pub fn build_leaf<'a>(
    ty: TypeRef<'_>,
    kind: Kind,
    bytes: &'a [u8],
    builder: &mut Builder,
) -> Result<&'a [u8], AllocError>
    requires { IsClean (type_of_ref ty) (scalar kind bytes.now) }
    ensures { IfOk result (λ rest.
        seen (with_value (type_of_ref ty.entry) (trees builder.old)) (scalar kind bytes.now)
        ≡ Ok (trees builder.new, rest.now)) }
{
    let Ok((key, rest)) = read_key(kind, bytes) else {
        unreachable!()
    };
    push_key(ty, key, builder)?;
    Ok(rest)
}

/// Joins the last `n` trees, keys of one kind that differ, into a set.
///
/// # Errors
///
/// `AllocError` where memory runs out, and nowhere else.
pub fn join_set(builder: &mut Builder, n: u64) -> Result<(), AllocError>
    requires there { n ≤ length (trees builder.old) }
    requires kind { AreOneKind (last n (trees builder.old)) }
    requires differ { AllPairs (λ k l. k ≢ l) (last n (trees builder.old)) }
    ensures { OnOk result (trees builder.new
        ≡ but_last n (trees builder.old) ++ Items ASet (row (in_order (last n (trees builder.old)))) ∷ []) }
{
    match builder.set(n) {
        Ok(()) => Ok(()),
        Err(TableFault::NoMemory) => Err(AllocError),
        Err(TableFault::RepeatedKey { .. }) => unreachable!(),
    }
}

/// Joins the last `2 * n` trees, keys and values by turns, into a map; the keys are of one kind and differ.
///
/// # Errors
///
/// `AllocError` where memory runs out, and nowhere else.
pub fn join_map(builder: &mut Builder, n: u64) -> Result<(), AllocError>
    requires there { 2 * n ≤ length (trees builder.old) }
    requires kind { AreOneKind (map key_of (pairs (last (2 * n) (trees builder.old)))) }
    requires differ { AllPairs (λ k l. k ≢ l) (map key_of (pairs (last (2 * n) (trees builder.old)))) }
    ensures { OnOk result (trees builder.new
        ≡ but_last (2 * n) (trees builder.old)
        ++ Items AMap (row (in_order (pairs (last (2 * n) (trees builder.old))))) ∷ []) }
{
    match builder.map(n) {
        Ok(()) => Ok(()),
        Err(TableFault::NoMemory) => Err(AllocError),
        Err(TableFault::RepeatedKey { .. }) => unreachable!(),
    }
}
