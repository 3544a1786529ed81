//! Measures reads and writes of bit fields: prints a checksum, and given the word `time` the time of each.
#![tactic(auto)]

ghost use Rattle.std.specs.Prelude.{◌≡◌, ◌+◌, ◌*◌, ◌<◌, ◌≤◌, IfOk, length, vec_len};

use bit_field::{read_bits, read_signed, write_bits};
use std::alloc::{AllocError, Global};
use std::rt::Clock;
use std::time::Instant;
use std::{env, io};

/// How many numbers each measurement reads or writes.
const COUNT: u32 = 10_000_000;

/// The buffer's length in bytes.
const LENGTH: usize = 1_048_576;

/// How often each measurement is taken; the least time counts.
const ROUNDS: u32 = 9;

/// Where a number stands: places follow one another up to the last 64 bits of the buffer, and widths
/// go from 1 to `most` in turn.
#[derive(Drop)]
struct Place {
    bit: u64,
    width: u32,
    most: u32,
    last: u64,
    ghost inside: { bit ≤ last },
    ghost some: { 1 ≤ width },
    ghost narrow: { width ≤ 64 },
    ghost limit: { most ≤ 64 },
    ghost short: { last ≤ 8388608 },
}

impl Place {
    #[inline(always)]
    fn first(most: u32, last: u64) -> Place
        requires limit { most ≤ 64 }
        requires short { last ≤ 8388608 }
        ensures { result.last ≡ last }
    {
        Place {
            bit: 0,
            width: 1,
            most,
            last,
        }
    }

    #[inline(always)]
    fn advance(&mut self)
        ensures { self.new.last ≡ self.old.last }
    {
        let past = self.bit + u64::from(self.width);
        self.bit = if past <= self.last { past } else { 0 };
        self.width = if self.width < self.most {
            self.width + 1
        } else {
            1
        };
    }
}

/// The sum of all numbers that are read, unsigned.
#[inline(never)]
fn sum_unsigned(bytes: &[u8], most: u32) -> u64
    requires limit { most ≤ 64 }
    requires length { length bytes.now ≡ LENGTH }
{
    let mut sum = 0u64;
    let mut place = Place::first(most, 8 * LENGTH as u64 - 64);
    for _ in 0..COUNT {
        sum = sum.wrapping_add(read_bits(bytes, place.bit, place.width));
        place.advance();
    }
    sum
}

/// The sum of all numbers that are read, in two's complement.
#[inline(never)]
fn sum_signed(bytes: &[u8], most: u32) -> i64
    requires limit { most ≤ 64 }
    requires length { length bytes.now ≡ LENGTH }
{
    let mut sum = 0i64;
    let mut place = Place::first(most, 8 * LENGTH as u64 - 64);
    for _ in 0..COUNT {
        sum = sum.wrapping_add(read_signed(bytes, place.bit, place.width));
        place.advance();
    }
    sum
}

/// Writes numbers one after the other.
#[inline(never)]
fn write_all(bytes: &mut [u8], most: u32)
    requires limit { most ≤ 64 }
    requires length { length bytes.old ≡ LENGTH }
{
    let mut number = 88172645463325252u64;
    let mut place = Place::first(most, 8 * LENGTH as u64 - 64);
    for _ in 0..COUNT {
        number = number
            .wrapping_mul(6364136223846793005)
            .wrapping_add(1442695040888963407);
        write_bits(bytes, place.bit, place.width, number >> (64 - place.width));
        place.advance();
    }
}

/// A buffer of numbers that look random.
fn filled(alloc: Global) -> Result<Vec<u8>, AllocError>
    ensures { IfOk result (λ v. vec_len v ≡ LENGTH) }
{
    let mut bytes = Vec::with_capacity(alloc, LENGTH)?;
    let mut number = 88172645463325252u64;
    while bytes.len() < LENGTH {
        number ^= number << 13;
        number ^= number >> 7;
        number ^= number << 17;
        bytes.push((number & 255) as u8)?;
    }
    Ok(bytes)
}

/// Picoseconds for each of the numbers, since an instant.
fn picoseconds(rt: &impl Clock, start: Instant) -> io::Result<u64> {
    let spent = start.elapsed(rt)?;
    let nanoseconds = spent
        .as_secs()
        .wrapping_mul(1_000_000_000)
        .wrapping_add(u64::from(spent.subsec_nanos()));
    Ok(nanoseconds / (COUNT as u64 / 1000))
}

/// Prints the least time of a read and of a write at widths from 1 to `most`.
fn measure(rt: &HostRuntime, most: u32) -> io::Result<()>
    requires { most ≤ 64 }
{
    let mut buffer = filled(rt.alloc())?;
    let bytes = buffer.as_mut_slice();
    let (mut unsigned, mut signed, mut written) = (u64::MAX, u64::MAX, u64::MAX);
    let mut sum = 0u64;
    for _ in 0..ROUNDS {
        let start = Instant::now(rt)?;
        sum = sum.wrapping_add(sum_unsigned(bytes, most));
        unsigned = unsigned.min(picoseconds(rt, start)?);
        let start = Instant::now(rt)?;
        sum = sum.wrapping_add(sum_signed(bytes, most).cast_unsigned());
        signed = signed.min(picoseconds(rt, start)?);
        let start = Instant::now(rt)?;
        write_all(bytes, most);
        written = written.min(picoseconds(rt, start)?);
    }
    println!(rt;
        "proved, widths 1 to {most}: read_bits {unsigned} ps, read_signed {signed} ps, write_bits {written} ps, sum {sum}"
    )
}

fn main(rt: HostRuntime) -> io::Result<()> {
    let mut timed = false;
    for word in env::args(&rt)? {
        timed = timed || word.as_str() == "time";
    }
    if timed {
        measure(&rt, 32)?;
        return measure(&rt, 64);
    }
    let mut buffer = filled(rt.alloc())?;
    let bytes = buffer.as_mut_slice();
    let unsigned = sum_unsigned(bytes, 64);
    let signed = sum_signed(bytes, 64);
    write_all(bytes, 64);
    let written = sum_unsigned(bytes, 57);
    println!(rt; "unsigned {unsigned} signed {signed} written {written}")
}
