//! A source that hands out one byte a read, and a sink that takes one byte a write: a file is read and a text written as by any other.
ghost use Rattle.std.specs.Prelude.{◌≡◌, None};

use crate::faults::file;
use ix_outside::{
    Failed, MOST_BYTES, OpenError, Sink, SinkLog, Source, SourceLog, SureSink, SureSource,
    WriteError, read_file, write_all,
};
use ix_text::List;
use std::test::Fail;

/// Hands out one byte of the source below it at a time.
#[derive(Drop)]
struct SlowSource {
    files: SureSource,
    log: SourceLog,
}

impl Source for SlowSource {
    ghost files = { λ _. None };

    ghost left = { λ _. None };

    ghost IsSure = { λ _ _. ⊥ };

    ghost IsOpened = { λ source. ⟦<SureSource as Source>⟧.IsOpened source.files };

    ghost IsOpenedSure = { λ _. ⊥ };

    ghost faults = { λ source. ⟦<SureSource as Source>⟧.faults source.files };

    ghost names = { λ source. source.log.names };

    ghost given = { λ source. source.log.given };

    ghost reads = { λ source. source.log.reads };

    ghost reads_before = { λ source. source.log.reads_before };

    fn open(&mut self, name: &str) -> Result<(), OpenError> {
        self.log.opening(name.as_bytes());
        self.files.open(name)
    }

    fn read(&mut self, buf: &mut [u8]) -> Result<usize, Failed> {
        match self.files.read(&mut buf[..1]) {
            Ok(n) => {
                self.log.reading(&buf[..n]);
                Ok(n)
            }
            Err(failed) => {
                self.log.failing();
                Err(failed)
            }
        }
    }
}

/// Hands one byte of each text to the sink below it.
#[derive(Drop)]
struct SlowSink {
    sink: SureSink,
    log: SinkLog,
}

impl Sink for SlowSink {
    ghost taken = { λ sink. sink.log.taken };

    ghost refused = { λ sink. sink.log.refused };

    ghost faults = { λ sink. ⟦<SureSink as Sink>⟧.faults sink.sink };

    fn write(&mut self, bytes: &[u8]) -> Result<usize, WriteError> {
        match self.sink.write(&bytes[..1]) {
            Ok(n) => {
                self.log.taking(&bytes[..n]);
                Ok(n)
            }
            Err(error) => {
                self.log.refusing();
                Err(error)
            }
        }
    }
}

#[test]
fn a_byte_at_a_time(rt: HostRuntime) -> Result<(), Fail> {
    let alloc = rt.alloc();
    let text = b"class A { static int get(int[] a, int i) { return a[i]; } }";
    let mut list = List::new(alloc);
    list.push(file(alloc, "A.java", text)?)?;
    let mut files = SlowSource {
        files: SureSource::new(list),
        log: SourceLog::new(),
    };
    assert_eq!(rt;
        read_file(alloc, &mut files, "A.java", MOST_BYTES)?.as_slice(),
        text.as_slice()
    );
    let mut out = SlowSink {
        sink: SureSink::new(alloc),
        log: SinkLog::new(),
    };
    assert!(rt; write_all(&mut out, text) == Ok(()));
    assert_eq!(rt; out.sink.taken(), text.as_slice());
    Ok(())
}
