//! Steps that write a line for each access, beside what they print.
ghost use Rattle.std.specs.Prelude.{◌≡◌, ◌≤◌, length, None, OnOk, IsErrOf};
ghost use Rattle.std.specs.List.{AllByRecursion};
ghost use Rattle.ix_core.specs.Machine as model;
ghost use Rattle.ix_core.specs.Tables.{tables_of};
ghost use Rattle.ix_core.specs.Traces.{accessed, next_access, step_seen, trace};
ghost use Rattle.ix_machine.specs.State.{state_of, limits_of};
ghost use Rattle.ix_outside.specs.Outside.{Rose, Took, TookPrefix};
ghost use Rattle.ix_runs.specs.Ends.{IsSeenIn};
ghost use Rattle.ix_runs.specs.Texts.{seen_lines, trace_lines};

use crate::lines::write_value;
use ix_machine::{Event, Machine};
use ix_outside::{Sink, WriteError, write_all};
use ix_report::access;
use ix_text::LineMap;
use std::alloc::Global;

/// Writes the line of the access that the next step makes, if it makes one. After an error the sink took a prefix of it.
fn write_access<K: Sink>(
    alloc: Global,
    machine: &Machine<'_>,
    lines: &LineMap,
    out: &mut K,
) -> Result<(), WriteError>
    requires { AllByRecursion (IsSeenIn (length lines.now)) (accessed (next_access (state_of machine.now))) }
    ensures { record {
      taken : OnOk result (Took (seen_lines lines.now (accessed (next_access (state_of machine.now)))) (K.taken out.old) (K.taken out.new));
      prefix : TookPrefix (seen_lines lines.now (accessed (next_access (state_of machine.now)))) (K.taken out.old) (K.taken out.new);
      falls : K.faults out.old ≤ K.faults out.new;
      rose : IsErrOf result WriteError.Failed → Rose (K.faults out.old) (K.faults out.new);
      ok : OnOk result (K.faults out.new ≡ K.faults out.old);
    } }
{
    let Some(found) = machine.next_access() else {
        return Ok(());
    };
    let Ok(line) = access(alloc, lines, found.index, found.length, found.at) else {
        return Err(WriteError::Memory);
    };
    write_all(out, line.as_bytes())
}

/// Makes a step and writes what it shows. After an error the sink took a prefix of that.
fn go_seen<K: Sink>(
    alloc: Global,
    machine: &mut Machine<'_>,
    lines: &LineMap,
    out: &mut K,
) -> Result<(), WriteError>
    requires { record {
      goes : (state_of machine.old).ended ≡ None;
      within : AllByRecursion (IsSeenIn (length lines.now)) (step_seen (state_of machine.old));
    } }
    ensures state { OnOk result (state_of machine.new ≡ model.step (limits_of machine.old) (tables_of machine.old.rows.program.now) (state_of machine.old)) }
    ensures limits { limits_of machine.new ≡ limits_of machine.old }
    ensures program { machine.new.rows ≡ machine.old.rows }
    ensures taken { OnOk result (Took (seen_lines lines.now (step_seen (state_of machine.old))) (K.taken out.old) (K.taken out.new)) }
    ensures prefix { TookPrefix (seen_lines lines.now (step_seen (state_of machine.old))) (K.taken out.old) (K.taken out.new) }
    ensures falls { K.faults out.old ≤ K.faults out.new }
    ensures rose { IsErrOf result WriteError.Failed → Rose (K.faults out.old) (K.faults out.new) }
    ensures ok { OnOk result (K.faults out.new ≡ K.faults out.old) }
{
    write_access(alloc, machine, lines, out)?;
    match machine.step() {
        Event::Printed(value) => write_value(alloc, value, out),
        Event::Went => Ok(()),
        Event::Stopped => Ok(()),
    }
}

/// Makes at most so many steps and writes what they show, each as soon as it is made, an access before it is made. After an error the sink took a prefix of these lines.
pub(crate) fn write_trace<K: Sink>(
    alloc: Global,
    machine: &mut Machine<'_>,
    lines: &LineMap,
    steps: u32,
    out: &mut K,
) -> Result<(), WriteError>
    requires { AllByRecursion (IsSeenIn (length lines.now)) (trace (limits_of machine.old) (tables_of machine.old.rows.program.now) steps (state_of machine.old)) }
    ensures state { OnOk result (state_of machine.new ≡ model.run (limits_of machine.old) (tables_of machine.old.rows.program.now) steps (state_of machine.old)) }
    ensures taken { OnOk result (Took (trace_lines lines.now (limits_of machine.old) (tables_of machine.old.rows.program.now) steps (state_of machine.old)) (K.taken out.old) (K.taken out.new)) }
    ensures prefix { TookPrefix (trace_lines lines.now (limits_of machine.old) (tables_of machine.old.rows.program.now) steps (state_of machine.old)) (K.taken out.old) (K.taken out.new) }
    ensures falls { K.faults out.old ≤ K.faults out.new }
    ensures rose { IsErrOf result WriteError.Failed → Rose (K.faults out.old) (K.faults out.new) }
    ensures ok { OnOk result (K.faults out.new ≡ K.faults out.old) }
{
    let mut left = steps;
    while left > 0 && machine.outcome().is_none() {
        go_seen(alloc, machine, lines, out)?;
        left -= 1;
    }
    Ok(())
}
