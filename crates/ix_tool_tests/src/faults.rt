//! Each single call of `check`, `run`, `bench`, `guard` and `verify` failing in turn: the opening of a file, each time it is read, each write.
use crate::calls::{Call, Ending, Faults, NEVER, ends, file, words_of};
use ix_outside::{SureSink, SureSource};
use ix_text::List;
use ix_tool::{Status, run_sure};
use std::alloc::{AllocError, Global};
use std::test::Fail;

/// A method whose one access is in bounds.
const GET: &str = "class A { static int get(int[] a, @IndexFor(\"#1\") int i) { return a[i]; } }";

const SOURCE: &str = "A.java: read failed\n";

const CERTIFICATE: &str = "A.cert: read failed\n";

/// A write that fails, which nothing tells.
const UNWRITTEN: Ending<'static> = Ending {
    status: Status::WriteFault,
    texts: 0,
    err: "",
};

/// Whether each call of the source that fails is told, where `err` takes the line that says so and where it doesn't.
fn source_faults_are_told(alloc: Global, call: &Call<'_>) -> Result<bool, AllocError> {
    for (number, line) in call.unread.iter().enumerate() {
        let told = Ending {
            status: Status::ReadFault,
            texts: 0,
            err: line,
        };
        let one = Faults {
            source: number as u64,
            out: 0,
            err: NEVER,
        };
        let two = Faults { err: 0, ..one };
        if !(ends(alloc, call, one, told)? && ends(alloc, call, two, UNWRITTEN)?) {
            return Ok(false);
        }
    }
    Ok(true)
}

/// Whether each write to `out` that fails ends the call, behind the texts before it.
fn out_faults_are_told(alloc: Global, call: &Call<'_>) -> Result<bool, AllocError> {
    for texts in 0..call.writes.len() {
        let faults = Faults {
            source: NEVER,
            out: texts as u64,
            err: 0,
        };
        if !ends(alloc, call, faults, Ending { texts, ..UNWRITTEN })? {
            return Ok(false);
        }
    }
    Ok(true)
}

/// Whether a call ends well where those calls fail that it doesn't make: the next one of the source, the next one of `out`, the first one of `err`.
fn makes_no_more(alloc: Global, call: &Call<'_>) -> Result<bool, AllocError> {
    let faults = Faults {
        source: call.unread.len() as u64,
        out: call.writes.len() as u64,
        err: 0,
    };
    let ending = Ending {
        status: Status::Done,
        texts: call.writes.len(),
        err: "",
    };
    ends(alloc, call, faults, ending)
}

/// Whether each single fault of a call is told, and the call makes no other that could fail.
fn each_is_told(alloc: Global, call: Call<'_>) -> bool {
    source_faults_are_told(alloc, &call) == Ok(true)
        && out_faults_are_told(alloc, &call) == Ok(true)
        && makes_no_more(alloc, &call) == Ok(true)
}

// A file is opened, read, and found at its end.
#[test]
fn of_check(rt: HostRuntime) {
    let call = Call {
        words: &["check", "A.java"],
        source: GET,
        cert: "",
        unread: &[SOURCE, SOURCE, SOURCE],
        writes: &["accepted: 1 methods, 1 accesses\n"],
    };
    assert!(rt; each_is_told(rt.alloc(), call));
}

// Each value is written by a call of its own, before the run goes on.
#[test]
fn of_run(rt: HostRuntime) {
    let call = Call {
        words: &["run", "A.java", "A.f"],
        source: "class A { static void f() { for (int i = 1; i < 4; i++) System.out.println(i); } }",
        cert: "",
        unread: &[SOURCE, SOURCE, SOURCE],
        writes: &["1\n", "2\n", "3\n", "ended\n"],
    };
    assert!(rt; each_is_told(rt.alloc(), call));
}

#[test]
fn of_bench(rt: HostRuntime) {
    let call = Call {
        words: &["bench", "1"],
        source: "",
        cert: "",
        unread: &[],
        writes: &["bench 1: accepted, 1 methods, 1 accesses\n"],
    };
    assert!(rt; each_is_told(rt.alloc(), call));
}

#[test]
fn of_guard(rt: HostRuntime) {
    let call = Call {
        words: &["guard", "A.java"],
        source: "class A { static int get(int[] a, int i) { return a[i]; } }",
        cert: "",
        unread: &[SOURCE, SOURCE, SOURCE],
        writes: &[
            "class A { static int get(int[] a, int i) { { if (a == null || i < 0 || i >= a.length) throw new IndexOutOfBoundsException(\"guard\"); return a[i]; } } }",
        ],
    };
    assert!(rt; each_is_told(rt.alloc(), call));
}

// The certificate is opened behind the whole of the source.
#[test]
fn of_verify(rt: HostRuntime) {
    let call = Call {
        words: &["verify", "A.java", "A.cert"],
        source: "class A { static void f() { while (true) { } } }",
        cert: "certificate 1 int32\nmethod 0\nlabel 0\nend\n",
        unread: &[
            SOURCE,
            SOURCE,
            SOURCE,
            CERTIFICATE,
            CERTIFICATE,
            CERTIFICATE,
        ],
        writes: &["verified: 1 methods, 1 labels\n"],
    };
    assert!(rt; each_is_told(rt.alloc(), call));
}

// Words that are no command open nothing, and what is said of them is the one write to `err`.
#[test]
fn of_no_command(rt: HostRuntime) {
    let call = Call {
        words: &["check"],
        source: GET,
        cert: "",
        unread: &[],
        writes: &[],
    };
    let usage = Ending {
        status: Status::Usage,
        texts: 0,
        err: "usage: indexcheck check FILE | run FILE CLASS.METHOD -- INPUTS | bench N | verify FILE CERT | guard FILE\n",
    };
    let one = Faults {
        source: 0,
        out: 0,
        err: 1,
    };
    let two = Faults { err: 0, ..one };
    assert!(rt; ends(rt.alloc(), &call, one, usage) == Ok(true));
    assert!(rt; ends(rt.alloc(), &call, two, UNWRITTEN) == Ok(true));
}

#[test]
fn of_files_that_never_fail(rt: HostRuntime) -> Result<(), Fail> {
    let alloc = rt.alloc();
    let words = words_of(alloc, &["check", "A.java"])?;
    let mut list = List::new(alloc);
    list.push(file(alloc, "A.java", GET)?)?;
    let mut files = SureSource::new(list);
    let mut out = SureSink::new(alloc);
    let mut err = SureSink::new(alloc);
    assert!(rt; run_sure(alloc, &words, &mut files, &mut out, &mut err) == Status::Done);
    assert_eq!(rt;
        out.taken(),
        b"accepted: 1 methods, 1 accesses\n".as_slice()
    );
    assert!(rt; err.taken().is_empty());
    Ok(())
}
