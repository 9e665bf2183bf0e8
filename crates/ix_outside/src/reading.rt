//! Reading a file of a source.
ghost use Rattle.std.specs.Prelude.{◌≡◌, ◌≢◌, ℕ, ◌+◌, ◌<◌, ◌≤◌, ◌⊎◌, Option, Some, List, [], ◌∷◌, ◌++◌, length, take, IfOk, OnOk, IsErrOf};
ghost use Rattle.ix_outside.specs.Outside.{Files, bytes_under, Rose, add_last, first_given};
ghost use Rattle.ix_outside.specs.Reading.{IsAllOrPast, IsFront, most_turns};

use crate::source::{OpenError, Source};
use std::alloc::Global;

/// How many bytes a source may have. Reading stops once one more was read.
pub const MOST_BYTES: usize = 1_048_576;

/// How many bytes a certificate may have. Reading stops once one more was read.
pub const MOST_CERTIFICATE: usize = 16_777_216;

/// How many bytes are asked for at once.
const BUFFER: usize = 4096;

/// Why a file was not read: a fault of the source, or want of memory.
#[derive(Clone, Copy, Debug, PartialEq, Eq)]
pub enum ReadError {
    Failed,
    Memory,
}

/// Reads the opened file to its end, or past the most bytes. Each turn takes one byte at least until the end, so there is at most one more than these.
fn read_rest<S: Source>(alloc: Global, files: &mut S, most: usize) -> Result<Vec<u8>, ReadError>
    requires opened { S.IsOpened files.old }
    ensures bytes { IfOk result (λ read. (all : List ℕ) → S.left files.old ≡ Some all → IsAllOrPast most all read.items) }
    ensures given { IfOk result (λ read. S.given files.new ≡ add_last read.items (S.given files.old)) }
    ensures front { (bytes : List ℕ) × (S.given files.new ≡ add_last bytes (S.given files.old)) × ((all : List ℕ) → S.left files.old ≡ Some all → IsFront all bytes) }
    ensures names { S.names files.new ≡ S.names files.old }
    ensures files { S.files files.new ≡ S.files files.old }
    ensures keeps_sure { (other : List ℕ) → S.IsSure files.old other → S.IsSure files.new other }
    ensures never { S.IsOpenedSure files.old → result ≢ Err ReadError.Failed }
    ensures falls { S.faults files.old ≤ S.faults files.new }
    ensures rose { IsErrOf result ReadError.Failed → Rose (S.faults files.old) (S.faults files.new) }
    ensures ok { OnOk result (S.faults files.new ≡ S.faults files.old) }
    ensures counted { S.reads files.old ≤ S.reads files.new }
    ensures before { S.reads_before files.new ≡ S.reads_before files.old }
    ensures turns { S.reads files.new ≤ S.reads files.old + most_turns most }
    ensures each_takes { (all : List ℕ) → S.left files.old ≡ Some all → S.reads files.new ≤ S.reads files.old + length all + 1 }
{
    let mut bytes = Vec::new(alloc);
    let mut buf = [0; BUFFER];
    'reading: while bytes.len() <= most {
        let n = match files.read(&mut buf) {
            Ok(n) => n,
            Err(_) => return Err(ReadError::Failed),
        };
        if n == 0 {
            return Ok(bytes);
        }
        match bytes.extend_from_slice(&buf[..n]) {
            Ok(()) => {}
            Err(_) => return Err(ReadError::Memory),
        }
    }
    Ok(bytes)
}

/// Opens the file of that name, no other and once, and reads it to its end, or past the most bytes: the bytes read are those that the source's
/// log says it handed out. `Failed` comes only where the count of faults of `files` rose, and never for a sure name.
pub fn read_file<S: Source>(
    alloc: Global,
    files: &mut S,
    name: &str,
    most: usize,
) -> Result<Vec<u8>, ReadError>
    ensures bytes { IfOk result (λ read. read.items ≡ first_given (S.given files.old) (S.given files.new)) }
    ensures given { S.given files.new ≡ S.given files.old ++ first_given (S.given files.old) (S.given files.new) ∷ [] }
    ensures whole { IfOk result (λ read. (held : Files) → S.files files.old ≡ Some held
        → IsAllOrPast most (bytes_under name.now held) (first_given (S.given files.old) (S.given files.new))) }

    // Also where the file was not read to its end: what was handed out is a front of the file.
    ensures front { (held : Files) → S.files files.old ≡ Some held → IsFront (bytes_under name.now held) (first_given (S.given files.old) (S.given files.new)) }
    ensures names { S.names files.new ≡ S.names files.old ++ (name.now ∷ []) }
    ensures files { S.files files.new ≡ S.files files.old }
    ensures keeps_sure { (other : List ℕ) → S.IsSure files.old other → S.IsSure files.new other }
    ensures never { S.IsSure files.old name.now → result ≢ Err ReadError.Failed }
    ensures falls { S.faults files.old ≤ S.faults files.new }
    ensures rose { IsErrOf result ReadError.Failed → Rose (S.faults files.old) (S.faults files.new) }
    ensures ok { OnOk result (S.faults files.new ≡ S.faults files.old) }
    ensures counted { S.reads files.old ≤ S.reads files.new }
    ensures before { S.reads_before files.new ≡ S.reads files.old }
    ensures turns { S.reads files.new ≤ S.reads files.old + most_turns most }
    ensures each_takes { (held : Files) → S.files files.old ≡ Some held → S.reads files.new ≤ S.reads files.old + length (bytes_under name.now held) + 1 }
{
    match files.open(name) {
        Ok(()) => read_rest(alloc, files, most),
        Err(OpenError::Failed) => Err(ReadError::Failed),
        Err(OpenError::Memory) => Err(ReadError::Memory),
    }
}
