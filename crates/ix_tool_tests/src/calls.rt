//! Calls of the tool over files and sinks in memory, of which stated calls fail.
use ix_outside::{MemSink, MemSource};
use ix_text::{List, Text};
use ix_tool::{Status, run_tool};
use std::alloc::{AllocError, Global};

/// The number of a call that nothing makes.
pub const NEVER: u64 = 99;

/// A call of the tool: its words, its source `A.java` and its certificate `A.cert`; what `err` takes where that call of the source fails, one text for each; what it writes to `out`, text by text.
/// Its status where none fails is `Done`.
#[derive(Clone, Copy)]
pub struct Call<'a> {
    pub words: &'a [&'a str],
    pub source: &'a str,
    pub cert: &'a str,
    pub unread: &'a [&'a str],
    pub writes: &'a [&'a str],
}

/// The numbers of the calls that fail: of the source, of `out`, of `err`.
#[derive(Clone, Copy)]
pub struct Faults {
    pub source: u64,
    pub out: u64,
    pub err: u64,
}

/// How a call ends: its status, how many of its texts `out` took, and what `err` took.
#[derive(Clone, Copy)]
pub struct Ending<'a> {
    pub status: Status,
    pub texts: usize,
    pub err: &'a str,
}

/// The words of a call. The one error is want of memory, as it is of all here.
pub fn words_of(alloc: Global, words: &[&str]) -> Result<Vec<String>, AllocError> {
    let mut list = Vec::new(alloc);
    for word in words {
        list.push(String::from_str(alloc, word)?)?;
    }
    Ok(list)
}

/// A file of that name with that text.
pub fn file(alloc: Global, name: &str, text: &str) -> Result<(Text, List<u8>), AllocError> {
    let mut list = List::new(alloc);
    for byte in text.as_bytes() {
        list.push(*byte)?;
    }
    Ok((Text::from_str(alloc, name)?, list))
}

/// The call of that number alone.
fn only(alloc: Global, call: u64) -> Result<List<u64>, AllocError> {
    let mut fails = List::new(alloc);
    fails.push(call)?;
    Ok(fails)
}

/// The files of a call, of which the call of that number fails.
fn files_of(alloc: Global, call: &Call<'_>, fails: u64) -> Result<MemSource, AllocError> {
    let mut files = List::new(alloc);
    files.push(file(alloc, "A.java", call.source)?)?;
    files.push(file(alloc, "A.cert", call.cert)?)?;
    Ok(MemSource::new(files, only(alloc, fails)?))
}

/// Whether the bytes are the first texts, so many of them.
fn are_first(bytes: &[u8], texts: &[&str], count: usize) -> bool {
    let mut rest = bytes;
    for number in 0..count {
        let Some(text) = texts.get(number) else {
            return false;
        };
        let Some(behind) = rest.strip_prefix(text.as_bytes()) else {
            return false;
        };
        rest = behind;
    }
    rest.is_empty()
}

/// Whether a call ends so where these calls fail.
pub fn ends(
    alloc: Global,
    call: &Call<'_>,
    faults: Faults,
    ending: Ending<'_>,
) -> Result<bool, AllocError> {
    let words = words_of(alloc, call.words)?;
    let mut files = files_of(alloc, call, faults.source)?;
    let mut out = MemSink::new(alloc, only(alloc, faults.out)?);
    let mut err = MemSink::new(alloc, only(alloc, faults.err)?);
    let status = run_tool(alloc, &words, &mut files, &mut out, &mut err);
    Ok(
        status == ending.status
            && are_first(out.taken(), call.writes, ending.texts)
            && err.taken() == ending.err.as_bytes(),
    )
}
