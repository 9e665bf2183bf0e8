//! The lines of printed values.
ghost use Rattle.std.specs.Prelude.{◌≡◌, ◌≤◌, IfOk, OnOk, IsErrOf, string_bytes};
ghost use Rattle.ix_machine_state.specs.Rows.{held_of};
ghost use Rattle.ix_outside.specs.Outside.{Rose, Took, TookPrefix};
ghost use Rattle.ix_runs.specs.Texts.{value_line};

use ix_machine_state::Held;
use ix_outside::{Sink, WriteError, write_all};
use ix_report::{printed_bool, printed_int};
use std::alloc::{AllocError, Global};

/// The line of a printed value.
fn line_of(alloc: Global, value: Held) -> Result<String, AllocError>
    ensures { IfOk result (λ line. string_bytes line ≡ value_line (held_of value)) }
{
    match value {
        Held::Int(number) => printed_int(alloc, number),
        Held::Bool(answer) => printed_bool(alloc, answer),
        Held::Null => Ok(String::new(alloc)),
        Held::At(_) => Ok(String::new(alloc)),
    }
}

/// Writes the line of a printed value. After an error the sink took a prefix of it.
pub(crate) fn write_value<K: Sink>(
    alloc: Global,
    value: Held,
    out: &mut K,
) -> Result<(), WriteError>
    ensures { record {
      taken : OnOk result (Took (value_line (held_of value)) (K.taken out.old) (K.taken out.new));
      prefix : TookPrefix (value_line (held_of value)) (K.taken out.old) (K.taken out.new);
      falls : K.faults out.old ≤ K.faults out.new;
      rose : IsErrOf result WriteError.Failed → Rose (K.faults out.old) (K.faults out.new);
      ok : OnOk result (K.faults out.new ≡ K.faults out.old);
    } }
{
    match line_of(alloc, value) {
        Ok(line) => write_all(out, line.as_bytes()),
        Err(_) => Err(WriteError::Memory),
    }
}
