// Runs that read and write one byte at a time, in which a read or a write fails, for each of them in turn.
use super::{DEF, FILE, FIRST, Faults, LIST, LIST_DEF, MAP, MAP_DEF, NO_FAULTS, VALUE, run_line};
use std::test::Fail;

// A run by bytes.
const BY_BYTES: Faults = Faults {
    read: 0,
    write: 0,
    line: 0,
    room: 200,
    by_bytes: true,
};

// The files that a run reads, in order: the role of each, and its bytes.
const DEFINITION: &[(&str, &[u8])] = &[("definition", DEF)];

const FILE_ALONE: &[(&str, &[u8])] = &[("file", FIRST)];

const AND_VALUE: &[(&str, &[u8])] = &[("definition", DEF), ("value", VALUE)];

const AND_FILE: &[(&str, &[u8])] = &[("definition", DEF), ("file", FILE)];

const AND_LIST: &[(&str, &[u8])] = &[("definition", LIST_DEF), ("file", LIST)];

const AND_MAP: &[(&str, &[u8])] = &[("definition", MAP_DEF), ("file", MAP)];

// A command that is answered, with the files that it reads.
const ANSWERED: [(&str, &[(&str, &[u8])]); 10] = [
    ("freeze def value", AND_VALUE),
    ("get def file .y", AND_FILE),
    ("get map map_file .m{5}", AND_MAP),
    ("scan list list_file .x", AND_LIST),
    ("thaw def file", AND_FILE),
    ("check def file", AND_FILE),
    ("layout first", FILE_ALONE),
    ("upgrade first", FILE_ALONE),
    ("print def", DEFINITION),
    ("demo 1", &[]),
];

// A command that is refused, once for each.
const REFUSED: [&str; 9] = [
    "freeze def twice",
    "get map map_file .m{0}",
    "scan def file .x",
    "thaw gone file",
    "check def list_file",
    "layout cut",
    "upgrade dirty",
    "print enum",
    "demo 0",
];

#[test]
fn each_read_that_fails_is_told(rt: HostRuntime) -> Result<(), Fail> {
    let alloc = rt.alloc();
    for (line, files) in ANSWERED {
        let mut read = 0u64;
        for (role, bytes) in files {
            let wanted = format!(in alloc; "{role} unreadable\n")?;
            // a read for each byte, and one that finds the end
            for _ in 0..=bytes.len() {
                read = read.saturating_add(1);
                let ran = run_line(alloc, line, Faults { read, ..BY_BYTES })?;
                assert_eq!(rt; ran.status, 4, "{line} {read}");
                assert!(rt; ran.out.bytes().is_empty(), "{line} {read}");
                assert_eq!(rt; ran.err.bytes(), wanted.as_bytes(), "{line} {read}");
            }
        }
        // there is no read after these
        read = read.saturating_add(1);
        let ran = run_line(alloc, line, Faults { read, ..BY_BYTES })?;
        assert_eq!(rt; ran.status, 0, "{line} {read}");
    }
    Ok(())
}

#[test]
fn each_write_that_fails_is_told(rt: HostRuntime) -> Result<(), Fail> {
    let alloc = rt.alloc();
    for (line, _) in ANSWERED {
        let whole = run_line(alloc, line, NO_FAULTS)?;
        assert_eq!(rt; whole.status, 0, "{line}");
        let writes = whole.out.bytes().len();
        for write in 1..writes + 1 {
            let faults = Faults {
                write: write as u64,
                ..BY_BYTES
            };
            let ran = run_line(alloc, line, faults)?;
            assert_eq!(rt; ran.status, 5, "{line} {write}");
            assert!(rt; ran.out.bytes().len() == write - 1, "{line} {write}");
            assert!(rt;
                whole.out.bytes().starts_with(ran.out.bytes()),
                "{line} {write}"
            );
            assert_eq!(rt;
                ran.err.bytes(),
                b"write failed\n".as_slice(),
                "{line} {write}"
            );
        }
        // there is no write after these
        let faults = Faults {
            write: writes as u64 + 1,
            ..BY_BYTES
        };
        let ran = run_line(alloc, line, faults)?;
        assert_eq!(rt; ran.status, 0, "{line}");
    }
    Ok(())
}

#[test]
fn each_write_of_a_line_that_fails_is_told(rt: HostRuntime) -> Result<(), Fail> {
    let alloc = rt.alloc();
    for line in REFUSED {
        let whole = run_line(alloc, line, NO_FAULTS)?;
        let writes = whole.err.bytes().len();
        assert!(rt; writes > 0, "{line}");
        for write in 1..writes + 1 {
            let faults = Faults {
                line: write as u64,
                ..BY_BYTES
            };
            let ran = run_line(alloc, line, faults)?;
            assert_eq!(rt; ran.status, 5, "{line} {write}");
            assert!(rt; ran.out.bytes().is_empty(), "{line} {write}");
            assert!(rt; ran.err.bytes().len() == write - 1, "{line} {write}");
            assert!(rt;
                whole.err.bytes().starts_with(ran.err.bytes()),
                "{line} {write}"
            );
        }
    }
    Ok(())
}

// A full out: what has room is written.
#[test]
fn a_full_output_is_told(rt: HostRuntime) -> Result<(), Fail> {
    let alloc = rt.alloc();
    let faults = Faults {
        room: 10,
        ..NO_FAULTS
    };
    let ran = run_line(alloc, "freeze def value", faults)?;
    assert_eq!(rt; ran.status, 5);
    assert_eq!(rt; ran.out.bytes(), &FILE[..10]);
    assert_eq!(rt; ran.err.bytes(), b"write failed\n".as_slice());
    Ok(())
}
