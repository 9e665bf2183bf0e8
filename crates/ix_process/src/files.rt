//! The files of the process.
ghost use Rattle.std.specs.Prelude.{◌≡◌, ◌≤◌, ℕ, List, [], None, length, IfOk};

use ix_outside::{Failed, OpenError, Source, SourceLog, raised};
use std::fs::{self, File};
use std::io::{self, ErrorKind, Read};

/// Files by their paths. It tells nothing of what they hold, and no name is sure: its log says what the system handed out.
#[derive(Drop)]
pub struct FileSource<'a> {
    rt: &'a HostRuntime,
    opened: Option<File>,
    faults: u64,
    log: SourceLog,
}

impl<'a> FileSource<'a> {
    /// No file is open, and nothing was read.
    pub fn new(rt: &'a HostRuntime) -> FileSource<'a>
        ensures { record {
          names : ⟦<FileSource<'a> as Source>⟧.names result ≡ [];
          given : ⟦<FileSource<'a> as Source>⟧.given result ≡ [];
          reads : ⟦<FileSource<'a> as Source>⟧.reads result ≡ 0;
        } }
    {
        FileSource {
            rt,
            opened: None,
            faults: 0,
            log: SourceLog::new(),
        }
    }
}

/// Reads from the file, again after each interruption.
fn read_from(file: &mut File, buf: &mut [u8]) -> io::Result<usize>
    ensures within { IfOk result (λ n. n ≤ length buf.old) }
{
    for _turn in 0..u64::MAX {
        match file.read(buf) {
            Err(error) if error.kind() == ErrorKind::Interrupted => {}
            answer => return answer,
        }
    }
    file.read(buf)
}

impl<'a> Source for FileSource<'a> {
    ghost files = { λ _. None };

    ghost left = { λ _. None };

    ghost IsSure = { λ _ _. ⊥ };

    ghost IsOpened = { λ _. Unit {0} };

    ghost IsOpenedSure = { λ _. ⊥ };

    ghost faults = { λ source. source.faults };

    ghost names = { λ source. source.log.names };

    ghost given = { λ source. source.log.given };

    ghost reads = { λ source. source.log.reads };

    ghost reads_before = { λ source. source.log.reads_before };

    fn open(&mut self, name: &str) -> Result<(), OpenError> {
        self.log.opening(name.as_bytes());
        match fs::open(self.rt, name) {
            Ok(file) => {
                self.opened = Some(file);
                Ok(())
            }
            Err(error) => match error.kind() {
                ErrorKind::OutOfMemory => Err(OpenError::Memory),
                _ => {
                    self.faults = raised(self.faults);
                    Err(OpenError::Failed)
                }
            },
        }
    }

    fn read(&mut self, buf: &mut [u8]) -> Result<usize, Failed> {
        let read = match &mut self.opened {
            Some(file) => read_from(file, buf).ok(),
            None => None,
        };
        match read {
            Some(n) => {
                self.log.reading(&buf[..n]);
                Ok(n)
            }
            None => {
                self.log.failing();
                self.faults = raised(self.faults);
                Err(Failed)
            }
        }
    }
}
