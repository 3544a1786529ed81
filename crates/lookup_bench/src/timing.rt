//! The time that something took.

use std::io;
use std::rt::Clock;
use std::time::Instant;

/// How often each measurement is taken; the least time counts.
pub(crate) const ROUNDS: u32 = 9;

/// Nanoseconds since an instant.
pub(crate) fn nanoseconds(rt: &impl Clock, start: Instant) -> io::Result<u64> {
    let spent = start.elapsed(rt)?;
    Ok(
        spent
            .as_secs()
            .wrapping_mul(1_000_000_000)
            .wrapping_add(u64::from(spent.subsec_nanos())),
    )
}

/// Megabytes a second, where so many bytes took so many nanoseconds.
pub(crate) fn speed(bytes: usize, nanoseconds: u64) -> u64 {
    (bytes as u64).wrapping_mul(1000) / nanoseconds.max(1)
}
