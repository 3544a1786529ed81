//! Worked files.

use file_check::{OpenFault, compose, header, open_frozen, opened_composes};
use std::test::Fail;

// A struct of two i32 fields with the values 5 and -1, in version 1.
const TWO_FIELDS: [u8; 73] = *b"FZ2P\x40\0\0\0\x12\x1B\x03\x4C\
    \x00\x15\x00\x14\x0A\x1B\x02\x4C\x02\x14\x02\x14\x00\x00\x04\x14\x04\x14\x07\x00\x18\x06struct\x00\
    \x02\x15\x00\x14\x08\x1B\x00\x18\x03i32\x00\
    \x04\x15\x00\x14\x02\x1B\x00\x18\x03i32\x00\
    \x14\x00\x15\x02\x00\x15";

// The same in version 2, where each number is its own base, so that the content is empty.
const FROM_BASES: [u8; 78] = *b"FZ2P\x46\0\0\0\x11\x1B\x03\x4C\
    \x00\x15\x00\x14\x00\x1B\x02\x4C\x02\x14\x02\x14\x00\x00\x04\x14\x04\x14\x00\x00\
    \x18\x06struct\x16\x00\x00\
    \x02\x15\x00\x14\x00\x1B\x00\x18\x03i32\x16\x0A\x00\
    \x04\x15\x00\x14\x00\x1B\x00\x18\x03i32\x16\x01\x00\
    \x14\x00\x15\x04\x00";

#[test]
fn header_of_a_file(rt: HostRuntime) -> Result<(), Fail> {
    assert_eq!(rt; header(64).as_slice(), &TWO_FIELDS[..8]);
    Ok(())
}

#[test]
fn opened_and_composed_again(rt: HostRuntime) -> Result<(), Fail> {
    let opened = open_frozen(rt.alloc(), &TWO_FIELDS)?;
    assert_eq!(rt; opened.layouts.version(), 1);
    assert_eq!(rt; opened.content, [21].as_slice());
    opened_composes(&opened);
    let content = opened.content.to_vec(rt.alloc())?;
    let file = compose(rt.alloc(), &opened.layouts, content)?;
    assert_eq!(rt; file.as_slice(), TWO_FIELDS.as_slice());
    Ok(())
}

#[test]
fn second_version(rt: HostRuntime) -> Result<(), Fail> {
    let opened = open_frozen(rt.alloc(), &FROM_BASES)?;
    assert_eq!(rt; opened.layouts.version(), 2);
    assert_eq!(rt; opened.content.len(), 0);
    Ok(())
}

#[test]
fn damaged_files(rt: HostRuntime) -> Result<(), Fail> {
    let alloc = rt.alloc();
    assert!(rt;
        matches!(
            open_frozen(alloc, &TWO_FIELDS[..7]),
            Err(OpenFault::NotFrozen)
        )
    );
    assert!(rt;
        matches!(
            open_frozen(alloc, &TWO_FIELDS[1..]),
            Err(OpenFault::NotFrozen)
        )
    );
    assert!(rt; matches!(open_frozen(alloc, &TWO_FIELDS[..71]), Err(OpenFault::Short)));
    assert!(rt; matches!(open_frozen(alloc, &TWO_FIELDS[..72]), Err(OpenFault::Short)));
    let mut dirty = TWO_FIELDS;
    dirty[72] = 0x35;
    assert!(rt; matches!(open_frozen(alloc, &dirty), Err(OpenFault::Dirty(5))));
    let mut schema = TWO_FIELDS;
    schema[8] = 0x1D;
    assert!(rt; matches!(open_frozen(alloc, &schema), Err(OpenFault::Schema(_))));
    Ok(())
}
