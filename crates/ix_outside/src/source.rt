//! Where the tool reads from: files that are opened by name and read front to back.
ghost use Rattle.std.specs.Prelude.{◌≡◌, ◌≢◌, ℕ, ◌+◌, ◌<◌, ◌≤◌, Option, List, [], ◌∷◌, ◌++◌, length, take, drop, option_map, IfOk, OnOk, OnErr, IsErrOf};
ghost use Rattle.ix_outside.specs.Outside.{Files, bytes_under, Rose, TellsFirst, add_last};

/// A fault of a source.
#[derive(Clone, Copy, Debug, PartialEq, Eq)]
pub struct Failed;

/// Why a file was not opened: a fault, or want of memory.
#[derive(Clone, Copy, Debug, PartialEq, Eq)]
pub enum OpenError {
    Failed,
    Memory,
}

/// Files that are opened by name and read front to back. No call changes the files held or makes a sure name unsure, and each is written into a
/// log that only clauses see.
pub trait Source {
    /// The files held, where the source tells them.
    ghost files: { Self → Option Files };

    /// What is left unread of the opened file, where the source tells it.
    ghost left: { Self → Option (List ℕ) };

    /// A name whose opening and reading never fail.
    ghost IsSure: { Self → List ℕ → Type 0 };

    /// A file is opened.
    ghost IsOpened: { Self → Type 0 };

    /// The opened file is a sure one.
    ghost IsOpenedSure: { Self → Type 0 };

    /// The count of faults: it never falls, and stays at 2^64 - 1 once it is there.
    ghost faults: { Self → ℕ };

    /// The log: the names that were to be opened, in order, whatever came of it.
    ghost names: { Self → List (List ℕ) };

    /// The log: for each of these names the bytes that were handed out of its file, until the next one was to be opened.
    ghost given: { Self → List (List ℕ) };

    /// The log: how many times it was read from. Each call of `read` is one, whatever it answers.
    ghost reads: { Self → ℕ };

    /// The log: how many of these times came before the last of the names.
    ghost reads_before: { Self → ℕ };

    /// Makes the named file the opened one, with all its bytes left; a name that isn't held has none. `Failed` comes only where the count of
    /// faults rose, and never for a sure name; after `Memory` and after `Ok` that count is as it was. To open is not to read.
    fn open(&mut self, name: &str) -> Result<(), OpenError>
        ensures files { files self.new ≡ files self.old }
        ensures left { OnOk result (left self.new ≡ option_map (bytes_under name.now) (files self.old)) }
        ensures opened { OnOk result (IsOpened self.new) }
        ensures keeps_sure { (other : List ℕ) → IsSure self.old other → IsSure self.new other }
        ensures opened_sure { IsSure self.old name.now → OnOk result (IsOpenedSure self.new) }
        ensures never { IsSure self.old name.now → result ≢ Err OpenError.Failed }
        ensures falls { faults self.old ≤ faults self.new }
        ensures rose { IsErrOf result OpenError.Failed → Rose (faults self.old) (faults self.new) }
        ensures ok { OnOk result (faults self.new ≡ faults self.old) }
        ensures memory { IsErrOf result OpenError.Memory → faults self.new ≡ faults self.old }
        ensures names { names self.new ≡ names self.old ++ (name.now ∷ []) }
        ensures given { given self.new ≡ given self.old ++ [] ∷ [] }
        ensures reads { reads self.new ≡ reads self.old }
        ensures reads_before { reads_before self.new ≡ reads self.old };

    /// Moves the next bytes of the opened file into the front of `buf` and answers how many, 0 only at the end. `Failed` comes only where
    /// the count of faults rose, and never while the opened file is sure. The file stays opened, and sure where it was.
    fn read(&mut self, buf: &mut [u8]) -> Result<usize, Failed>
        requires opened { IsOpened self.old }
        requires room { 0 < length buf.old }
        ensures files { files self.new ≡ files self.old }
        ensures within { IfOk result (λ n. n ≤ length buf.old) }
        ensures moved { IfOk result (λ n. TellsFirst (left self.old) (take n buf.new)) }
        ensures left { IfOk result (λ n. left self.new ≡ option_map (drop n) (left self.old)) }
        ensures end { IfOk result (λ n. n ≡ 0 → (bytes : List ℕ) → left self.old ≡ Some bytes → bytes ≡ []) }
        ensures opened { IsOpened self.new }
        ensures keeps_sure { (other : List ℕ) → IsSure self.old other → IsSure self.new other }
        ensures opened_sure { IsOpenedSure self.old → IsOpenedSure self.new }
        ensures never { IsOpenedSure self.old → result ≢ Err record {} }
        ensures falls { faults self.old ≤ faults self.new }
        ensures rose { OnErr result (Rose (faults self.old) (faults self.new)) }
        ensures ok { OnOk result (faults self.new ≡ faults self.old) }
        ensures names { names self.new ≡ names self.old }
        ensures given { IfOk result (λ n. given self.new ≡ add_last (take n buf.new) (given self.old)) }
        ensures given_nothing { OnErr result (given self.new ≡ given self.old) }
        ensures reads { reads self.new ≡ reads self.old + 1 }
        ensures reads_before { reads_before self.new ≡ reads_before self.old };
}
