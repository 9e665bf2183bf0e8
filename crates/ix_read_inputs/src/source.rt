//! What a command is answered on: its source, that is its file, joined with the library where that is asked, or the workload of `bench`; and the certificate.
ghost use Rattle.std.specs.Prelude.{◌≡◌, ◌≤◌, ◌+◌, ◌++◌, ℕ, List, [], ◌∷◌, Option, Some, None, length, option_map, IfOk, IfSome, OnOk, IsErrOf};
ghost use Rattle.ix_outside.specs.Outside.{Files, bytes_under, first_given, second_given};
ghost use Rattle.ix_outside.specs.Reading.{most_bytes, most_certificate, most_turns, IsFront, IsAllOrPast};
ghost use Rattle.ix_front.specs.Found.{Finding as FoundOf, Found};
ghost use Rattle.ix_front.specs.Findings.{seen, IsPlaced, HasFormed};
ghost use Rattle.ix_front.specs.Sources as spec;
ghost use Rattle.ix_front.specs.Opened.{WasUnread, ReadsWithin, bytes_of, listed, names_of, given_of, opened_by, IsOpened};
ghost use Rattle.ix_words.specs.Shown.{shown};

use ix_front::{Finding, Inputs, of_bytes};
use ix_gen::generate;
use ix_library::joined;
use ix_outside::{MOST_BYTES, MOST_CERTIFICATE, ReadError, Source, read_file};
use ix_words::Command;
use std::alloc::{AllocError, Global};

/// The file that a command names as its source, and whether it is joined with the library: none for the workload of `bench`.
fn named<'a>(command: &Command<'a>) -> Option<(&'a str, bool)>
    ensures { record {
      file : option_map (λ named. named.0.now) result ≡ spec.file_in (shown command.now);
      judged : IfSome result (λ named. (bytes : List ℕ) → spec.source_bytes (shown command.now) bytes ≡ spec.judged_bytes named.1 bytes);
    } }
{
    match command {
        Command::Check { library, file, .. } => Some((file, *library)),
        Command::Run { library, file, .. } => Some((file, *library)),
        Command::Bench(_) => None,
        Command::Verify { library, file, .. } => Some((file, *library)),
        Command::Guard { file, .. } => Some((file, false)),
    }
}

/// The workload of a command that names no file.
fn workload(alloc: Global, command: &Command<'_>) -> Result<Vec<u8>, ReadError>
    requires { spec.file_in (shown command.now) ≡ None }
    ensures { record {
      bytes : IfOk result (λ bytes. (any : List ℕ) → bytes.items ≡ spec.source_bytes (shown command.now) any);
      calm : IsErrOf result ReadError.Failed → ⊥;
    } }
{
    let Command::Bench(count) = command else {
        unreachable!()
    };
    match generate(alloc, *count) {
        Ok(bytes) => Ok(bytes),
        Err(_) => Err(ReadError::Memory),
    }
}

/// The bytes of a file, joined with the library where that is asked.
fn judged(alloc: Global, library: bool, bytes: Vec<u8>) -> Result<Vec<u8>, ReadError>
    ensures { record {
      bytes : IfOk result (λ judged. judged.items ≡ spec.judged_bytes library bytes.items);
      calm : IsErrOf result ReadError.Failed → ⊥;
    } }
{
    if !library {
        return Ok(bytes);
    }
    match joined(alloc, &bytes) {
        Ok(joined) => Ok(joined),
        Err(_) => Err(ReadError::Memory),
    }
}

/// The bytes of the source of a command. `Failed` comes only where its file wasn't sure and the count of faults of `files` rose.
fn source_of<S: Source>(
    alloc: Global,
    command: &Command<'_>,
    files: &mut S,
) -> Result<Vec<u8>, ReadError>
    ensures bytes { IfOk result (λ bytes. bytes.items ≡ spec.source_bytes (shown command.now) (first_given (S.given files.old) (S.given files.new))) }
    ensures given { S.given files.new ≡ S.given files.old ++ given_of (spec.file_in (shown command.now)) (first_given (S.given files.old) (S.given files.new)) }
    ensures calm { OnOk result (S.faults files.new ≡ S.faults files.old) }
    ensures failed { IsErrOf result ReadError.Failed
        → WasUnread (S.IsSure files.old) (S.faults files.old) (S.faults files.new) (spec.file_in (shown command.now)) }
    ensures falls { S.faults files.old ≤ S.faults files.new }
    ensures front { (file : List ℕ) (held : Files) → spec.file_in (shown command.now) ≡ Some file → S.files files.old ≡ Some held
        → IsFront (bytes_under file held) (first_given (S.given files.old) (S.given files.new)) }
    ensures whole { IfOk result (λ _. (file : List ℕ) (held : Files) → spec.file_in (shown command.now) ≡ Some file → S.files files.old ≡ Some held
        → IsAllOrPast most_bytes (bytes_under file held) (first_given (S.given files.old) (S.given files.new))) }
    ensures names { S.names files.new ≡ S.names files.old ++ listed (spec.file_in (shown command.now)) }
    ensures counted { S.reads files.old ≤ S.reads files.new }
    ensures turns { S.reads files.new ≤ S.reads files.old + most_turns most_bytes }
    ensures each_takes { (held : Files) → S.files files.old ≡ Some held
        → S.reads files.new ≤ S.reads files.old + (length (bytes_of (spec.file_in (shown command.now)) held) + 1) }
    ensures unread { spec.file_in (shown command.now) ≡ None → S.reads files.new ≡ S.reads files.old }
    ensures files { S.files files.new ≡ S.files files.old }
    ensures keeps_sure { (other : List ℕ) → S.IsSure files.old other → S.IsSure files.new other }
{
    match named(command) {
        None => workload(alloc, command),
        Some((file, library)) => {
            let bytes = read_file(alloc, files, file, MOST_BYTES)?;
            judged(alloc, library, bytes)
        }
    }
}

/// What of a command was not read because of a fault of the source, or that memory was wanting.
#[derive(Clone, Copy)]
pub enum Unread {
    File,
    Certificate,
    Memory,
}

/// The certificate that is opened: the one that the command names, where its source has no errors on names and is within the limits.
fn certificate_named<'a>(command: &Command<'a>, finding: &Finding) -> Option<&'a str>
    ensures { option_map (λ name. name.now) result ≡ opened_by (shown command.now) (seen finding.now) }
{
    match finding {
        Finding::Whole(_) => match command {
            Command::Verify { cert, .. } => Some(*cert),
            _ => None,
        },
        _ => None,
    }
}

/// What a command is answered on. `File` and `Certificate` come only where that file wasn't sure and the count of faults of `files` rose.
pub fn inputs_of<S: Source>(
    alloc: Global,
    command: &Command<'_>,
    files: &mut S,
) -> Result<Inputs, Unread>
    ensures bytes { IfOk result (λ inputs. inputs.bytes.items ≡ spec.source_bytes (shown command.now) (first_given (S.given files.old) (S.given files.new))) }
    ensures right { IfOk result (λ inputs. Found inputs.bytes.items (seen inputs.finding)) }
    ensures only { IfOk result (λ inputs. (other : FoundOf) → Found inputs.bytes.items other → seen inputs.finding ≡ other) }
    ensures placed { IfOk result (λ inputs. IsPlaced (length inputs.bytes.items) (seen inputs.finding)) }
    ensures formed { IfOk result (λ inputs. HasFormed (seen inputs.finding)) }
    ensures cert { IfOk result (λ inputs. option_map (λ text. text.items) inputs.cert ≡ second_given (S.given files.old) (S.given files.new)) }
    ensures opened { IfOk result (λ inputs. IsOpened (opened_by (shown command.now) (seen inputs.finding)) (second_given (S.given files.old) (S.given files.new))) }
    ensures asks { (text : List ℕ) → second_given (S.given files.old) (S.given files.new) ≡ Some text
        → spec.NeedsCert (shown command.now) (first_given (S.given files.old) (S.given files.new)) }
    ensures first { (file text : List ℕ) (held : Files) → spec.file_in (shown command.now) ≡ Some file → second_given (S.given files.old) (S.given files.new) ≡ Some text
        → S.files files.old ≡ Some held → IsAllOrPast most_bytes (bytes_under file held) (first_given (S.given files.old) (S.given files.new)) }
    ensures calm { OnOk result (S.faults files.new ≡ S.faults files.old) }
    ensures file_failed { IsErrOf result Unread.File
        → WasUnread (S.IsSure files.old) (S.faults files.old) (S.faults files.new) (spec.file_in (shown command.now)) × (second_given (S.given files.old) (S.given files.new) ≡ None) }
    ensures cert_failed { IsErrOf result Unread.Certificate
        → WasUnread (S.IsSure files.old) (S.faults files.old) (S.faults files.new) (spec.cert_in (shown command.now))
        × (text : List ℕ) × (second_given (S.given files.old) (S.given files.new) ≡ Some text) }
    ensures falls { S.faults files.old ≤ S.faults files.new }
    ensures front { (file : List ℕ) (held : Files) → spec.file_in (shown command.now) ≡ Some file → S.files files.old ≡ Some held
        → IsFront (bytes_under file held) (first_given (S.given files.old) (S.given files.new)) }
    ensures front_cert { (cert text : List ℕ) (held : Files) → spec.cert_in (shown command.now) ≡ Some cert → second_given (S.given files.old) (S.given files.new) ≡ Some text
        → S.files files.old ≡ Some held → IsFront (bytes_under cert held) text }
    ensures whole { IfOk result (λ _. (file : List ℕ) (held : Files) → spec.file_in (shown command.now) ≡ Some file → S.files files.old ≡ Some held
        → IsAllOrPast most_bytes (bytes_under file held) (first_given (S.given files.old) (S.given files.new))) }
    ensures whole_cert { IfOk result (λ _. (cert text : List ℕ) (held : Files) → spec.cert_in (shown command.now) ≡ Some cert
        → second_given (S.given files.old) (S.given files.new) ≡ Some text → S.files files.old ≡ Some held → IsAllOrPast most_certificate (bytes_under cert held) text) }
    ensures names { S.names files.new ≡ S.names files.old ++ names_of (Some (shown command.now)) (second_given (S.given files.old) (S.given files.new)) }
    ensures counted { S.reads files.old ≤ S.reads files.new }
    ensures turns { ReadsWithin (second_given (S.given files.old) (S.given files.new)) (most_turns most_bytes) (most_turns most_certificate)
        (S.reads files.old) (S.reads_before files.new) (S.reads files.new) }
    ensures each_takes { (held : Files) → S.files files.old ≡ Some held
        → ReadsWithin (second_given (S.given files.old) (S.given files.new)) (length (bytes_of (spec.file_in (shown command.now)) held) + 1)
        (length (bytes_of (spec.cert_in (shown command.now)) held) + 1) (S.reads files.old) (S.reads_before files.new) (S.reads files.new) }
    ensures unread { spec.file_in (shown command.now) ≡ None → S.reads files.new ≡ S.reads files.old }
    ensures files { S.files files.new ≡ S.files files.old }
    ensures keeps_sure { (other : List ℕ) → S.IsSure files.old other → S.IsSure files.new other }
{
    let bytes = match source_of(alloc, command, files) {
        Ok(bytes) => bytes,
        Err(ReadError::Failed) => return Err(Unread::File),
        Err(ReadError::Memory) => return Err(Unread::Memory),
    };
    let Ok(finding) = of_bytes(alloc, &bytes) else {
        return Err(Unread::Memory);
    };
    let Some(name) = certificate_named(command, &finding) else {
        return Ok(Inputs {
            bytes,
            finding,
            cert: None,
        });
    };
    match read_file(alloc, files, name, MOST_CERTIFICATE) {
        Ok(text) => Ok(Inputs {
            bytes,
            finding,
            cert: Some(text),
        }),
        Err(ReadError::Failed) => Err(Unread::Certificate),
        Err(ReadError::Memory) => Err(Unread::Memory),
    }
}
