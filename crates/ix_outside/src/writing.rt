//! Writing a whole text to a sink.
ghost use Rattle.std.specs.Prelude.{◌≡◌, ℕ, ◌+◌, ◌≤◌, List, OnOk, OnErr, IsErrOf};
ghost use Rattle.ix_outside.specs.Outside.{Rose, Took, TookPrefix};

use crate::sink::{Sink, WriteError};

/// Writes the whole text, in as many writes as the sink wants. After an error, which is that of the one write that was refused, the sink took a
/// prefix of it.
pub fn write_all<K: Sink>(out: &mut K, text: &[u8]) -> Result<(), WriteError>
    ensures { record {
      taken : OnOk result (Took text.now (K.taken out.old) (K.taken out.new));
      prefix : TookPrefix text.now (K.taken out.old) (K.taken out.new);
      refused : OnErr result (K.refused out.new ≡ K.refused out.old + 1);
      refused_none : OnOk result (K.refused out.new ≡ K.refused out.old);
      falls : K.faults out.old ≤ K.faults out.new;
      rose : IsErrOf result WriteError.Failed → Rose (K.faults out.old) (K.faults out.new);
      ok : OnOk result (K.faults out.new ≡ K.faults out.old);
      memory : IsErrOf result WriteError.Memory → K.faults out.new ≡ K.faults out.old;
    } }
{
    let mut at = 0;
    while at < text.len() {
        let n = out.write(&text[at..])?;
        at += n;
    }
    Ok(())
}
