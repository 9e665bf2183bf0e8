//! Each call of a source or a sink failing in turn.
use ix_outside::{
    MOST_BYTES, MOST_CERTIFICATE, MemSink, MemSource, ReadError, WriteError, read_file, write_all,
};
use ix_text::{List, Text};
use std::alloc::{AllocError, AllocFailed, Global};
use std::test::Fail;

/// The call of that number alone.
fn only(alloc: Global, call: u64) -> Result<List<u64>, AllocFailed<u64>> {
    let mut fails = List::new(alloc);
    fails.push(call)?;
    Ok(fails)
}

/// A file of that name with those bytes. The one error is want of memory.
pub fn file(alloc: Global, name: &str, bytes: &[u8]) -> Result<(Text, List<u8>), AllocError> {
    let mut list = List::new(alloc);
    for byte in bytes {
        list.push(*byte)?;
    }
    Ok((Text::from_str(alloc, name)?, list))
}

/// Two files, of which the call of that number fails.
fn two_files(alloc: Global, call: u64) -> Result<MemSource, Fail> {
    let mut files = List::new(alloc);
    files.push(file(alloc, "A.java", b"class A { }")?)?;
    files.push(file(alloc, "A.cert", b"end\n")?)?;
    Ok(MemSource::new(files, only(alloc, call)?))
}

// Each file is opened, read, and found at its end; a seventh call isn't made.
#[test]
fn of_two_files(rt: HostRuntime) -> Result<(), Fail> {
    let alloc = rt.alloc();
    for call in 0..7 {
        let mut files = two_files(alloc, call)?;
        let first = read_file(alloc, &mut files, "A.java", MOST_BYTES);
        if call < 3 {
            assert!(rt; matches!(first, Err(ReadError::Failed)));
        } else {
            assert_eq!(rt; first?.as_slice(), b"class A { }".as_slice());
            let second = read_file(alloc, &mut files, "A.cert", MOST_CERTIFICATE);
            if call < 6 {
                assert!(rt; matches!(second, Err(ReadError::Failed)));
            } else {
                assert_eq!(rt; second?.as_slice(), b"end\n".as_slice());
            }
        }
    }
    Ok(())
}

#[test]
fn of_a_file_that_is_not_there(rt: HostRuntime) -> Result<(), Fail> {
    let alloc = rt.alloc();
    let mut files = two_files(alloc, 9)?;
    let missing = read_file(alloc, &mut files, "B.java", MOST_BYTES);
    assert!(rt; matches!(missing, Err(ReadError::Failed)));
    Ok(())
}

// A text is written by one call, which fails, or a later one would.
#[test]
fn of_a_sink(rt: HostRuntime) -> Result<(), Fail> {
    let alloc = rt.alloc();
    let mut full = MemSink::new(alloc, only(alloc, 0)?);
    assert!(rt; write_all(&mut full, b"text") == Err(WriteError::Failed));
    assert!(rt; full.taken().is_empty());
    let mut sink = MemSink::new(alloc, only(alloc, 1)?);
    assert!(rt; write_all(&mut sink, b"text") == Ok(()));
    assert_eq!(rt; sink.taken(), b"text".as_slice());
    Ok(())
}
