//! Blocks of small regions.

use block_region::Region;
use std::test::Fail;

#[test]
fn blocks_stand_end_to_end(rt: HostRuntime) -> Result<(), Fail> {
    let mut region = Region::reserve(rt.alloc(), 3)?;
    let first = region.take(2).ok_or("two of three bytes")?;
    let second = region.take(1).ok_or("the last byte")?;
    assert!(rt; region.take(1).is_none());
    region.copy(&second, &[7]);
    region.lend(&first)[1] = 5;
    assert_eq!(rt; region.bytes(&first), [0, 5].as_slice());
    assert_eq!(rt; region.finish().as_slice(), [0, 5, 7].as_slice());
    Ok(())
}

#[test]
fn blocks_keep_their_places_in_a_greater_region(rt: HostRuntime) -> Result<(), Fail> {
    let mut small = Region::reserve(rt.alloc(), 2)?;
    assert!(rt; small.take(3).is_none());
    let block = small.take(2).ok_or("two bytes")?;
    small.copy(&block, b"ab");
    let great = small.grown(rt.alloc(), 5)?;
    assert_eq!(rt; great.left(), 3);
    assert_eq!(rt; great.bytes(&block), b"ab".as_slice());
    Ok(())
}

#[test]
fn bytes_are_appended_while_there_is_room(rt: HostRuntime) -> Result<(), Fail> {
    let mut region = Region::reserve(rt.alloc(), 3)?;
    let first = region.append(b"ab").ok_or("two of three bytes")?;
    assert!(rt; region.append(b"cd").is_none());
    assert_eq!(rt; region.bytes(&first), b"ab".as_slice());
    assert_eq!(rt; region.finish().as_slice(), b"ab\0".as_slice());
    Ok(())
}
