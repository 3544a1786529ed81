//! Demos of one user and of three.

use demo_table::{demo, demo_line};
use std::test::Fail;

#[test]
fn small_demos(rt: HostRuntime) -> Result<(), Fail> {
    let one = demo_line(rt.alloc(), &demo(rt.alloc(), 1)?)?;
    assert_eq!(rt;
        one.as_str(),
        "demo rows=1 cells=45 nodes=30 content=27 found=1 most=1\n"
    );
    let three = demo_line(rt.alloc(), &demo(rt.alloc(), 3)?)?;
    assert_eq!(rt;
        three.as_str(),
        "demo rows=3 cells=151 nodes=30 content=107 found=3 most=2\n"
    );
    Ok(())
}
