//! Where the tool writes to.
ghost use Rattle.std.specs.Prelude.{◌≡◌, ℕ, ◌+◌, ◌<◌, ◌≤◌, List, length, take, IfOk, OnOk, OnErr, IsErrOf};
ghost use Rattle.ix_outside.specs.Outside.{Rose, Took};

/// Why a sink took nothing: a fault, or want of memory.
#[derive(Clone, Copy, Debug, PartialEq, Eq)]
pub enum WriteError {
    Failed,
    Memory,
}

/// A place that takes bytes. Each write is written into a log that only clauses see.
pub trait Sink {
    /// The log: the bytes that it took.
    ghost taken: { Self → List ℕ };

    /// The log: how many writes it refused, from a fault or for want of memory.
    ghost refused: { Self → ℕ };

    /// The count of faults: it never falls, and stays at 2^64 - 1 once it is there.
    ghost faults: { Self → ℕ };

    /// Takes a prefix of `bytes`, of at least one byte, and answers its length. After an error it took nothing: `Failed` comes only where
    /// the count rose; after `Memory` and after `Ok` the count is as it was.
    fn write(&mut self, bytes: &[u8]) -> Result<usize, WriteError>
        requires { 0 < length bytes.now }
        ensures some { IfOk result (λ n. 0 < n) }
        ensures within { IfOk result (λ n. n ≤ length bytes.now) }
        ensures taken { IfOk result (λ n. Took (take n bytes.now) (taken self.old) (taken self.new)) }
        ensures none { OnErr result (taken self.new ≡ taken self.old) }
        ensures refused { OnErr result (refused self.new ≡ refused self.old + 1) }
        ensures refused_none { OnOk result (refused self.new ≡ refused self.old) }
        ensures falls { faults self.old ≤ faults self.new }
        ensures rose { IsErrOf result WriteError.Failed → Rose (faults self.old) (faults self.new) }
        ensures ok { OnOk result (faults self.new ≡ faults self.old) }
        ensures memory { IsErrOf result WriteError.Memory → faults self.new ≡ faults self.old };
}
