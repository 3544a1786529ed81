//! Words that are told apart.
use idl_profile::{BaseType, Need, TypeKind};

#[test]
fn kinds_are_told_apart(rt: HostRuntime) {
    assert!(rt; TypeKind::Text != TypeKind::Bytes);
    assert!(rt; BaseType::I8 == BaseType::I8);
    assert!(rt; Need::Plain != Need::Required);
}
