//! Sinks in memory, which tell everything.
ghost use Rattle.std.specs.Prelude.{◌≡◌, ℕ, ◌<◌, ◌≤◌, List, []};

use crate::faults::{after_call, is_to_fail, raised};
use crate::logs::SinkLog;
use crate::sink::{Sink, WriteError};
use ix_text::List;
use std::alloc::Global;

/// Bytes taken into memory. Stated calls fail.
#[derive(Drop)]
pub struct MemSink {
    bytes: Vec<u8>,
    fails: List<u64>,
    calls: u64,
    faults: u64,
    log: SinkLog,
}

impl MemSink {
    /// The sink that took nothing yet. The calls of `write` are counted from 0, and those whose numbers are in `fails` fail.
    pub fn new(alloc: Global, fails: List<u64>) -> MemSink
        ensures { record {
          taken : ⟦<MemSink as Sink>⟧.taken result ≡ [];
          refused : ⟦<MemSink as Sink>⟧.refused result ≡ 0;
          faults : ⟦<MemSink as Sink>⟧.faults result ≡ 0;
          fails : result.fails ≡ fails;
        } }
    {
        MemSink {
            bytes: Vec::new(alloc),
            fails,
            calls: 0,
            faults: 0,
            log: SinkLog::new(),
        }
    }

    /// The bytes taken.
    pub fn taken(&self) -> &[u8]
        ensures { ⟦<MemSink as Sink>⟧.taken self.now ≡ result.now }
    {
        &self.bytes
    }
}

impl Sink for MemSink {
    ghost taken = { λ sink. sink.bytes.items };

    ghost refused = { λ sink. sink.log.refused };

    ghost faults = { λ sink. sink.faults };

    fn write(&mut self, bytes: &[u8]) -> Result<usize, WriteError> {
        let fails = is_to_fail(self.fails.as_slice(), self.calls);
        self.calls = after_call(self.calls);
        if fails {
            self.faults = raised(self.faults);
            self.log.refusing();
            return Err(WriteError::Failed);
        }
        match self.bytes.extend_from_slice(bytes) {
            Ok(()) => Ok(bytes.len()),
            Err(_) => {
                self.log.refusing();
                Err(WriteError::Memory)
            }
        }
    }
}

/// Bytes taken into memory. No call fails.
#[derive(Drop)]
pub struct SureSink {
    bytes: Vec<u8>,
    log: SinkLog,
}

impl SureSink {
    /// The sink that took nothing yet.
    pub fn new(alloc: Global) -> SureSink
        ensures { record {
          taken : ⟦<SureSink as Sink>⟧.taken result ≡ [];
          refused : ⟦<SureSink as Sink>⟧.refused result ≡ 0;
          faults : ⟦<SureSink as Sink>⟧.faults result ≡ 0;
        } }
    {
        SureSink {
            bytes: Vec::new(alloc),
            log: SinkLog::new(),
        }
    }

    /// The bytes taken.
    pub fn taken(&self) -> &[u8]
        ensures { ⟦<SureSink as Sink>⟧.taken self.now ≡ result.now }
    {
        &self.bytes
    }
}

impl Sink for SureSink {
    ghost taken = { λ sink. sink.bytes.items };

    ghost refused = { λ sink. sink.log.refused };

    ghost faults = { λ _. 0 };

    fn write(&mut self, bytes: &[u8]) -> Result<usize, WriteError> {
        match self.bytes.extend_from_slice(bytes) {
            Ok(()) => Ok(bytes.len()),
            Err(_) => {
                self.log.refusing();
                Err(WriteError::Memory)
            }
        }
    }
}
