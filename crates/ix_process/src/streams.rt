//! The standard streams of the process.
ghost use Rattle.std.specs.Prelude.{◌≡◌, ◌≤◌, List, [], length, IfOk};

use ix_outside::{Sink, SinkLog, WriteError, raised};
use std::io::{self, ErrorKind, Write};

/// A stream of the process: its log says what the system took. A write that takes nothing counts as a fault.
#[derive(Drop)]
pub struct StdSink<W> {
    stream: W,
    faults: u64,
    log: SinkLog,
}

impl<W: Write> StdSink<W> {
    /// Nothing was written.
    pub fn new(stream: W) -> StdSink<W>
        ensures taken { ⟦<StdSink<W> as Sink>⟧.taken result ≡ [] }
    {
        StdSink {
            stream,
            faults: 0,
            log: SinkLog::new(),
        }
    }
}

/// Writes to the stream, again after each interruption.
fn write_to<W: Write>(stream: &mut W, bytes: &[u8]) -> io::Result<usize>
    ensures within { IfOk result (λ n. n ≤ length bytes.now) }
{
    for _turn in 0..u64::MAX {
        match stream.write(bytes) {
            Err(error) if error.kind() == ErrorKind::Interrupted => {}
            answer => return answer,
        }
    }
    stream.write(bytes)
}

impl<W: Write> Sink for StdSink<W> {
    ghost taken = { λ sink. sink.log.taken };

    ghost refused = { λ sink. sink.log.refused };

    ghost faults = { λ sink. sink.faults };

    fn write(&mut self, bytes: &[u8]) -> Result<usize, WriteError> {
        match write_to(&mut self.stream, bytes) {
            Ok(n) if n > 0 => {
                self.log.taking(&bytes[..n]);
                Ok(n)
            }
            _ => {
                self.log.refusing();
                self.faults = raised(self.faults);
                Err(WriteError::Failed)
            }
        }
    }
}
