//! Sources in memory, which tell everything.
ghost use Rattle.std.specs.Prelude.{◌≡◌, ◌↔◌, ℕ, ◌+◌, ◌^◌, ◌<◌, ◌≤◌, Option, Some, None, List, true, [], length, take, drop, IsSome, MatchOption, slice_get, option_map};
ghost use Rattle.ix_outside.specs.Outside.{held, bytes_at, NoneToCome};

use crate::faults::{after_call, is_to_fail, raised};
use crate::logs::SourceLog;
use crate::source::{Failed, OpenError, Source};
use ix_text::{List, Text};

/// The index of the first file of that name.
fn place_of(files: &[(Text, List<u8>)], name: &str) -> Option<usize>
    ensures { MatchOption result (held files.now name.now ≡ None)
        (λ i. (i < length files.now) × (held files.now name.now ≡ option_map (λ file. file.1) (slice_get files.now i))) }
{
    for (i, file) in files.iter().enumerate() {
        if file.0.as_str() == name {
            return Some(i);
        }
    }
    None
}

/// Copies what it can of `bytes` into the front of `buf`, and answers how many bytes that are.
fn fill(buf: &mut [u8], bytes: &[u8]) -> usize
    ensures { record {
      within : result ≤ length buf.old;
      all : result ≡ 0 → 0 < length buf.old → bytes.now ≡ [];
      some : result ≤ length bytes.now;
      bytes : take (length (take result buf.new)) bytes.now ≡ take result buf.new;
    } }
{
    let n = if bytes.len() < buf.len() {
        bytes.len()
    } else {
        buf.len()
    };
    buf[..n].copy_from_slice(&bytes[..n]);
    n
}

/// What is left of the file at that place, of which that many bytes were read; past the last file there is nothing.
fn left_of(files: &[(Text, List<u8>)], place: usize, at: usize) -> &[u8]
    ensures { record {
      bytes : result.now ≡ drop at (bytes_at files.now place);
      fits : at + length result.now < 2 ^ 64;
    } }
{
    match files.get(place) {
        None => &[],
        Some(file) => {
            let bytes = file.1.as_slice();
            if at < bytes.len() { &bytes[at..] } else { &[] }
        }
    }
}

/// Files in memory, of which the first of two with one name counts. Stated calls fail, and the opening of a name that isn't held. A name
/// is sure where it is held and no call still to come is to fail.
#[derive(Drop)]
pub struct MemSource {
    files: List<(Text, List<u8>)>,
    fails: List<u64>,
    calls: u64,
    opened: bool,
    place: usize,
    at: usize,
    faults: u64,
    log: SourceLog,
}

impl MemSource {
    /// The source of these files. The calls of `open` and `read` are counted together from 0, and those whose numbers are in `fails` fail.
    pub fn new(files: List<(Text, List<u8>)>, fails: List<u64>) -> MemSource
        ensures { record {
          sure : (name : List ℕ) → ⟦<MemSource as Source>⟧.IsSure result name ↔ (IsSome (held files name) × NoneToCome fails 0);
          files : ⟦<MemSource as Source>⟧.files result ≡ Some files;
          faults : ⟦<MemSource as Source>⟧.faults result ≡ 0;
          names : ⟦<MemSource as Source>⟧.names result ≡ [];
          given : ⟦<MemSource as Source>⟧.given result ≡ [];
          reads : ⟦<MemSource as Source>⟧.reads result ≡ 0;
        } }
    {
        MemSource {
            files,
            fails,
            calls: 0,
            opened: false,
            place: 0,
            at: 0,
            faults: 0,
            log: SourceLog::new(),
        }
    }
}

impl Source for MemSource {
    ghost files = { λ source. Some source.files };

    ghost left = { λ source. Some (drop source.at (bytes_at source.files source.place)) };

    ghost IsSure = { λ source name. IsSome (held source.files name) × NoneToCome source.fails source.calls };

    ghost IsOpened = { λ source. source.opened ≡ true };

    ghost IsOpenedSure = { λ source. (source.opened ≡ true) × NoneToCome source.fails source.calls };

    ghost faults = { λ source. source.faults };

    ghost names = { λ source. source.log.names };

    ghost given = { λ source. source.log.given };

    ghost reads = { λ source. source.log.reads };

    ghost reads_before = { λ source. source.log.reads_before };

    fn open(&mut self, name: &str) -> Result<(), OpenError> {
        self.log.opening(name.as_bytes());
        let fails = is_to_fail(self.fails.as_slice(), self.calls);
        self.calls = after_call(self.calls);
        if fails {
            self.faults = raised(self.faults);
            return Err(OpenError::Failed);
        }
        match place_of(self.files.as_slice(), name) {
            None => {
                self.faults = raised(self.faults);
                Err(OpenError::Failed)
            }
            Some(place) => {
                self.opened = true;
                self.place = place;
                self.at = 0;
                Ok(())
            }
        }
    }

    fn read(&mut self, buf: &mut [u8]) -> Result<usize, Failed> {
        let fails = is_to_fail(self.fails.as_slice(), self.calls);
        self.calls = after_call(self.calls);
        if fails {
            self.faults = raised(self.faults);
            self.log.failing();
            return Err(Failed);
        }
        let n = fill(buf, left_of(self.files.as_slice(), self.place, self.at));
        self.log.reading(&buf[..n]);
        self.at += n;
        Ok(n)
    }
}

/// Files in memory, of which the first of two with one name counts. No call fails, a name that isn't held is an empty file, and every
/// name is sure.
#[derive(Drop)]
pub struct SureSource {
    files: List<(Text, List<u8>)>,
    opened: bool,
    place: usize,
    at: usize,
    log: SourceLog,
}

impl SureSource {
    /// The source of these files.
    pub fn new(files: List<(Text, List<u8>)>) -> SureSource
        ensures { record {
          files : ⟦<SureSource as Source>⟧.files result ≡ Some files;
          sure : (name : List ℕ) → ⟦<SureSource as Source>⟧.IsSure result name;
          faults : ⟦<SureSource as Source>⟧.faults result ≡ 0;
          names : ⟦<SureSource as Source>⟧.names result ≡ [];
          given : ⟦<SureSource as Source>⟧.given result ≡ [];
          reads : ⟦<SureSource as Source>⟧.reads result ≡ 0;
        } }
    {
        SureSource {
            files,
            opened: false,
            place: 0,
            at: 0,
            log: SourceLog::new(),
        }
    }
}

impl Source for SureSource {
    ghost files = { λ source. Some source.files };

    ghost left = { λ source. Some (drop source.at (bytes_at source.files source.place)) };

    ghost IsSure = { λ _ _. Unit {0} };

    ghost IsOpened = { λ source. source.opened ≡ true };

    ghost IsOpenedSure = { λ source. source.opened ≡ true };

    ghost faults = { λ _. 0 };

    ghost names = { λ source. source.log.names };

    ghost given = { λ source. source.log.given };

    ghost reads = { λ source. source.log.reads };

    ghost reads_before = { λ source. source.log.reads_before };

    fn open(&mut self, name: &str) -> Result<(), OpenError> {
        self.log.opening(name.as_bytes());
        self.place = match place_of(self.files.as_slice(), name) {
            None => self.files.len(),
            Some(place) => place,
        };
        self.opened = true;
        self.at = 0;
        Ok(())
    }

    fn read(&mut self, buf: &mut [u8]) -> Result<usize, Failed> {
        let n = fill(buf, left_of(self.files.as_slice(), self.place, self.at));
        self.log.reading(&buf[..n]);
        self.at += n;
        Ok(n)
    }
}
