// A file that is copied, reads and writes that fail in the middle, the machine's own files, and the counter.
ghost use Rattle.std.specs.Prelude.{◌≡◌};

use fz_base::*;
use std::alloc::{AllocError, Global};
use std::fs::{self, Permissions};
use std::marker::Brand;
use std::os::unix::fs::PermissionsExt;
use std::sync::ledger::{Blank, Ledger};
use std::test::Fail;

fn one_file(alloc: Global, name: &str, bytes: &[u8]) -> Result<Vec<(String, Vec<u8>)>, AllocError> {
    let mut files = Vec::new(alloc);
    files.push((String::from_str(alloc, name)?, bytes.to_vec(alloc)?))?;
    Ok(files)
}

#[test]
fn a_file_is_copied(rt: HostRuntime) -> Result<(), Fail> {
    let alloc = rt.alloc();
    let mut files = SureFiles::new(one_file(alloc, "greeting", b"hello")?);
    let mut out = SureSink::new(alloc, 5)?;
    let bytes = read_whole(alloc, &mut files, "greeting", 100)?;
    write_whole(&mut out, &bytes)?;
    assert_eq!(rt; out.bytes(), b"hello".as_slice());
    assert!(rt; read_whole(alloc, &mut files, "absent", 100).is_err());
    Ok(())
}

// Each row: the limit, the number of the call that fails, and the answer.
#[test]
fn a_file_is_read_to_its_end_or_refused(rt: HostRuntime) -> Result<(), Fail> {
    let alloc = rt.alloc();
    let rows = [
        (5, 0, "5 bytes"),
        (4, 0, "Err(TooLarge)"),
        (5, 1, "Err(Failed)"),
        (5, 2, "Err(Failed)"),
        (5, 3, "Err(Failed)"),
        (5, 4, "Err(Failed)"),
        (5, 5, "5 bytes"),
    ];
    for (limit, call, want) in rows {
        let files = one_file(alloc, "a", b"hello")?;
        let mut files = MemFiles::new(files, 2, vec![in alloc; call]?);
        let got = match read_whole(alloc, &mut files, "a", limit) {
            Ok(bytes) => {
                assert_eq!(rt; bytes.as_slice(), b"hello".as_slice());
                format!(in alloc; "{} bytes", bytes.len())?
            }
            Err(fault) => format!(in alloc; "Err({fault:?})")?,
        };
        assert_eq!(rt; got.as_str(), want, "at limit {limit} and call {call}");
    }
    Ok(())
}

// Each row: the room, the number of the call that fails, what is written, and whether that is all.
#[test]
fn a_sink_takes_all_or_a_part(rt: HostRuntime) -> Result<(), Fail> {
    let alloc = rt.alloc();
    let rows = [
        (9, 0, "hello", true),
        (5, 0, "hello", true),
        (4, 0, "hell", false),
        (0, 0, "", false),
        (9, 1, "", false),
        (9, 2, "he", false),
        (9, 3, "hell", false),
        (9, 4, "hello", true),
    ];
    for (room, call, want, done) in rows {
        let mut sink = MemSink::new(alloc, room, 2, vec![in alloc; call]?)?;
        let answer = write_whole(&mut sink, b"hello");
        assert_eq!(rt; answer.is_ok(), done, "room {room} and call {call}");
        assert_eq!(rt;
            sink.bytes(),
            want.as_bytes(),
            "room {room} and call {call}"
        );
    }
    let mut sink = SureSink::new(alloc, 3)?;
    assert!(rt; write_whole(&mut sink, b"hello").is_err());
    assert_eq!(rt; sink.bytes(), b"hel".as_slice());
    Ok(())
}

// Bytes of which a file takes more than one piece.
fn long_bytes(alloc: Global) -> Result<Vec<u8>, AllocError> {
    let mut bytes = Vec::new(alloc);
    for i in 0..70_000u32 {
        bytes.push((i % 251) as u8)?;
    }
    Ok(bytes)
}

#[test]
fn a_file_of_the_machine_is_read(rt: HostRuntime) -> Result<(), Fail> {
    let alloc = rt.alloc();
    let bytes = long_bytes(alloc)?;
    fs::write(&rt, "long", bytes.as_slice())?;
    let mut files = OsFiles::new(&rt);
    let rows = [
        ("long", 70_000, "70000 bytes"),
        ("long", 69_999, "Err(TooLarge)"),
        ("absent", 70_000, "Err(Missing)"),
        (".", 70_000, "Err(Failed)"),
        ("long/absent", 70_000, "Err(Failed)"),
    ];
    for (name, limit, want) in rows {
        let got = match read_whole(alloc, &mut files, name, limit) {
            Ok(read) => {
                assert!(rt; read.as_slice() == bytes.as_slice());
                format!(in alloc; "{} bytes", read.len())?
            }
            Err(fault) => format!(in alloc; "Err({fault:?})")?,
        };
        assert_eq!(rt; got.as_str(), want, "{name} at limit {limit}");
    }
    Ok(())
}

// No rights are no absence. Whoever may read every file, as root, reads this one too.
#[test]
fn a_file_without_rights_is_not_missing(rt: HostRuntime) -> Result<(), Fail> {
    fs::write(&rt, "locked", b"hello".as_slice())?;
    fs::set_permissions(&rt, "locked", Permissions::from_mode(0))?;
    let want = match fs::open(&rt, "locked") {
        Ok(_) => Ok(5),
        Err(_) => Err(FileFault::Failed),
    };
    let answer = OsFiles::new(&rt).read_at("locked", 0, &mut [0; 5]);
    assert!(rt; answer == want, "{answer:?}");
    Ok(())
}

#[test]
fn a_file_that_shrinks_ends_sooner(rt: HostRuntime) -> Result<(), Fail> {
    fs::write(&rt, "shrinking", b"hello".as_slice())?;
    let mut files = OsFiles::new(&rt);
    let first = files.read_at("shrinking", 0, &mut [0; 3]);
    assert!(rt; first == Ok(3), "{first:?}");
    fs::write(&rt, "shrinking", b"he".as_slice())?;
    let second = files.read_at("shrinking", 3, &mut [0; 3]);
    assert!(rt; second == Ok(0), "{second:?}");
    Ok(())
}

#[test]
fn a_stream_of_the_machine_is_written(rt: HostRuntime) -> Result<(), Fail> {
    let alloc = rt.alloc();
    let bytes = long_bytes(alloc)?;
    let mut sink = OsSink::new(fs::create(&rt, "stream")?);
    assert!(rt; write_whole(&mut sink, &bytes).is_ok());
    let mut files = OsFiles::new(&rt);
    let written = read_whole(alloc, &mut files, "stream", 70_000);
    assert!(rt; matches!(&written, Ok(all) if all.as_slice() == bytes.as_slice()));
    // a stream that was opened for reading takes nothing
    let mut sink = OsSink::new(fs::open(&rt, "stream")?);
    assert!(rt; write_whole(&mut sink, b"more").is_err());
    Ok(())
}

fn twice<L: Ledger>(steps: &mut Steps<L>) {
    steps.tick();
    steps.tick();
}

fn counted_from<L: Ledger>(blank: Blank) -> u64
    requires name { blank.name ≡ L.name }
    requires parts { blank.parts ≡ L.parts }
{
    let mut steps = Steps::<L>::new(blank);
    twice(&mut steps);
    steps.count()
}

#[test]
fn ticks_are_counted(rt: HostRuntime) {
    assert_eq!(rt; counted_from::<Brand>(Blank::new(1)), 2);
}
