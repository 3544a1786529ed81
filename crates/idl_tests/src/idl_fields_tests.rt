//! The type list<i32> as two nodes.
use idl_fields::TypeNodes;
use idl_fields::draft::TypeNode;
use idl_profile::BaseType;
use std::test::Fail;

#[test]
fn types_are_nodes(rt: HostRuntime) -> Result<(), Fail> {
    let mut types = TypeNodes::new(rt.alloc());
    let item = types.push(TypeNode::Base(BaseType::I32))?;
    let list = TypeNode::List(item);
    assert!(rt; types.has_parts(list));
    let place = types.push(list)?;
    assert!(rt; matches!(types.at(place), TypeNode::List(_)));
    assert!(rt; matches!(types.at(item), TypeNode::Base(BaseType::I32)));
    assert!(rt; !types.has_parts(TypeNode::Map(item, 7)));
    Ok(())
}
