//! A reader of one item, and how its stop is handed on.

ghost use Rattle.std.specs.Prelude.{nat_lt, if◌then◌else◌, Some, None};
ghost use Rattle.exact_reading.specs.Reading.{Meets, one};

use exact_reading::Stop;
use std::test::Fail;

#[test]
fn small_numbers(rt: HostRuntime) -> Result<(), Fail> {
    /// A byte below 10, and the bytes after it.
    fn read_small(bytes: &[u8]) -> Result<(u8, &[u8]), Stop>
        ensures { Meets (λ x. (x.0, x.1.now)) result (one (λ b. if nat_lt b 10 then Some b else None) bytes.now) }
    {
        let Some((first, rest)) = bytes.split_first() else {
            return Err(Stop::Ended);
        };
        if *first < 10 {
            Ok((*first, rest))
        } else {
            Err(Stop::Refused(bytes.len()))
        }
    }

    let (seven, rest) = read_small(&[7, 200, 9])?;
    assert_eq!(rt; seven, 7);
    // Byte 200 can't stand there, and two bytes are left from it to the end.
    match read_small(rest) {
        Err(Stop::Refused(left)) => assert_eq!(rt; left, 2),
        _ => assert!(rt; false),
    }
    Ok(())
}
