//! Faults as they are printed.

use idl_grammar::{Fault, LineFault};
use std::test::Fail;

#[test]
fn fault_of_a_line(rt: HostRuntime) -> Result<(), Fail> {
    let fault = LineFault {
        fault: Fault::UnknownType,
        line: 3,
    };
    let printed = format!(in rt.alloc(); "{fault}")?;
    assert_eq!(rt; printed.as_str(), "line 3: no type has the name");
    Ok(())
}
