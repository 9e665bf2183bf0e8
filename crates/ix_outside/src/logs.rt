//! What was done with a source or a sink, as data that only clauses see: it takes no bytes, and nothing bounds it.
ghost use Rattle.std.specs.Prelude.{ℕ, List};
ghost use Rattle.std.specs.Borrow.{ftrue};

use std::marker::Model;

/// What was done with a source.
#[derive(Drop)]
pub struct SourceLog {
    /// The names that were to be opened, in order, whatever came of it.
    pub ghost names: { List (List ℕ) },
    /// For each of them the bytes that were handed out of its file.
    pub ghost given: { List (List ℕ) },
    /// How many times it was read from.
    pub ghost reads: { ℕ },
    /// How many of these times came before the last of the names.
    pub ghost reads_before: { ℕ },
}

impl Model for SourceLog {
    ghost also_owns = { λ _. ftrue };
}

impl SourceLog {
    ghost use Rattle.std.specs.Prelude.{◌≡◌};
    ghost use Rattle.ix_outside.specs.Logs as log;

    /// Nothing was done yet.
    pub fn new() -> SourceLog
        ensures { result ≡ log.untouched }
    {
        SourceLog {}
    }

    /// A file of that name was to be opened.
    pub fn opening(&mut self, _name: &[u8])
        ensures { self.new ≡ log.opening _name.now self.old }
    {}

    /// It was read from, and handed out these bytes.
    pub fn reading(&mut self, _bytes: &[u8])
        ensures { self.new ≡ log.reading _bytes.now self.old }
    {}

    /// It was read from, and handed out nothing.
    pub fn failing(&mut self)
        ensures { self.new ≡ log.failing self.old }
    {}
}

/// What was done with a sink.
#[derive(Drop)]
pub struct SinkLog {
    /// The bytes that it took.
    pub ghost taken: { List ℕ },
    /// How many writes it refused.
    pub ghost refused: { ℕ },
}

impl Model for SinkLog {
    ghost also_owns = { λ _. ftrue };
}

impl SinkLog {
    ghost use Rattle.std.specs.Prelude.{◌≡◌};
    ghost use Rattle.ix_outside.specs.Logs as log;

    /// Nothing was done yet.
    pub fn new() -> SinkLog
        ensures { result ≡ log.empty }
    {
        SinkLog {}
    }

    /// It took these bytes.
    pub fn taking(&mut self, _bytes: &[u8])
        ensures { self.new ≡ log.taking _bytes.now self.old }
    {}

    /// It refused a write.
    pub fn refusing(&mut self)
        ensures { self.new ≡ log.refusing self.old }
    {}
}
