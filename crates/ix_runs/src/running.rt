//! Runs of at most a stated number of steps.
//! Steps are inlined in the loop of a run.
ghost use Rattle.std.specs.Prelude.{◌≡◌, ◌<◌, ◌≤◌, length, None, IfOk, OnOk, IsErrOf, string_bytes};
ghost use Rattle.std.specs.List.{AllByRecursion};
ghost use Rattle.ix_core.specs.EndingPlaces.{EndPlace};
ghost use Rattle.ix_core.specs.Machine as model;
ghost use Rattle.ix_core.specs.Tables.{tables_of};
ghost use Rattle.ix_machine.specs.State.{state_of, limits_of};
ghost use Rattle.ix_outside.specs.Outside.{Rose, Took, TookPrefix};
ghost use Rattle.ix_report.specs.Outcomes.{last_line};
ghost use Rattle.ix_core.specs.Traces.{trace as model_trace};
ghost use Rattle.ix_runs.specs.Ends.{end_of, IsSeenIn, RunWithin, TraceWithin};
ghost use Rattle.ix_runs.specs.Texts.{lines_of, printed_lines, run_text};

use crate::lines::write_value;
use crate::tracing::write_trace;
use ix_core::{Outcome, Program};
use ix_machine::{Event, Machine};
use ix_outside::{Sink, WriteError, write_all};
use ix_report::{outcome, steps_spent};
use ix_text::LineMap;
use std::alloc::{AllocError, Global};

/// How a run ends: at its end, otherwise, or after the stated number of steps.
#[derive(Clone, Copy)]
pub enum RunEnd {
    Ended,
    Stopped,
    StepsSpent,
}

/// Makes steps, at least one and at most so many, and writes the value that the last of them prints, if it prints one; answers how many they were. After an error
/// the sink took a prefix of that value's line.
#[inline(always)]
fn go_on<K: Sink>(
    alloc: Global,
    machine: &mut Machine<'_>,
    most: u32,
    out: &mut K,
) -> Result<u32, WriteError>
    requires goes { (state_of machine.old).ended ≡ None }
    requires some { 0 < most }
    ensures state { IfOk result (λ made. state_of machine.new ≡ model.run (limits_of machine.old) (tables_of machine.old.rows.program.now) made (state_of machine.old)) }
    ensures made { IfOk result (λ made. (0 < made) × (made ≤ most)) }
    ensures limits { limits_of machine.new ≡ limits_of machine.old }
    ensures program { machine.new.rows ≡ machine.old.rows }
    ensures taken { IfOk result (λ made. Took (printed_lines (limits_of machine.old) (tables_of machine.old.rows.program.now) made (state_of machine.old)) (K.taken out.old) (K.taken out.new)) }
    ensures prefix { TookPrefix (printed_lines (limits_of machine.old) (tables_of machine.old.rows.program.now) most (state_of machine.old)) (K.taken out.old) (K.taken out.new) }
    ensures falls { K.faults out.old ≤ K.faults out.new }
    ensures rose { IsErrOf result WriteError.Failed → Rose (K.faults out.old) (K.faults out.new) }
    ensures ok { OnOk result (K.faults out.new ≡ K.faults out.old) }
{
    let went = machine.steps(most);
    match went.event {
        Event::Printed(value) => {
            write_value(alloc, value, out)?;
            Ok(went.made)
        }
        Event::Went => Ok(went.made),
        Event::Stopped => Ok(went.made),
    }
}

/// Makes at most so many steps and writes the values that they print, each as soon as it is printed. After an error the sink took a prefix of these lines.
fn write_printed<K: Sink>(
    alloc: Global,
    machine: &mut Machine<'_>,
    steps: u32,
    out: &mut K,
) -> Result<(), WriteError>
    ensures state { OnOk result (state_of machine.new ≡ model.run (limits_of machine.old) (tables_of machine.old.rows.program.now) steps (state_of machine.old)) }
    ensures taken { OnOk result (Took (printed_lines (limits_of machine.old) (tables_of machine.old.rows.program.now) steps (state_of machine.old)) (K.taken out.old) (K.taken out.new)) }
    ensures prefix { TookPrefix (printed_lines (limits_of machine.old) (tables_of machine.old.rows.program.now) steps (state_of machine.old)) (K.taken out.old) (K.taken out.new) }
    ensures falls { K.faults out.old ≤ K.faults out.new }
    ensures rose { IsErrOf result WriteError.Failed → Rose (K.faults out.old) (K.faults out.new) }
    ensures ok { OnOk result (K.faults out.new ≡ K.faults out.old) }
{
    let mut left = steps;
    while left > 0 && machine.outcome().is_none() {
        let made = go_on(alloc, machine, left, out)?;
        left -= made;
    }
    Ok(())
}

/// Makes at most so many steps and writes what they show, with their accesses or without. After an error the sink took a prefix of these lines.
fn write_seen<K: Sink>(
    alloc: Global,
    machine: &mut Machine<'_>,
    lines: &LineMap,
    steps: u32,
    traced: bool,
    out: &mut K,
) -> Result<(), WriteError>
    requires { AllByRecursion (IsSeenIn (length lines.now)) (model_trace (limits_of machine.old) (tables_of machine.old.rows.program.now) steps (state_of machine.old)) }
    ensures { record {
      state : OnOk result (state_of machine.new ≡ model.run (limits_of machine.old) (tables_of machine.old.rows.program.now) steps (state_of machine.old));
      taken : OnOk result (Took (lines_of traced lines.now (limits_of machine.old) (tables_of machine.old.rows.program.now) steps (state_of machine.old)) (K.taken out.old) (K.taken out.new));
      prefix : TookPrefix (lines_of traced lines.now (limits_of machine.old) (tables_of machine.old.rows.program.now) steps (state_of machine.old)) (K.taken out.old) (K.taken out.new);
      falls : K.faults out.old ≤ K.faults out.new;
      rose : IsErrOf result WriteError.Failed → Rose (K.faults out.old) (K.faults out.new);
      ok : OnOk result (K.faults out.new ≡ K.faults out.old);
    } }
{
    if traced {
        write_trace(alloc, machine, lines, steps, out)
    } else {
        write_printed(alloc, machine, steps, out)
    }
}

/// The last line of a run.
fn last_line_of(
    alloc: Global,
    machine: &Machine<'_>,
    program: &Program,
    lines: &LineMap,
    steps: u32,
) -> Result<String, AllocError>
    requires { EndPlace (λ at. at ≤ length lines.now) (state_of machine.now).ended }
    ensures { IfOk result (λ text. string_bytes text ≡ last_line program.now lines.now steps (state_of machine.now).ended (state_of machine.now).wrapped) }
{
    match machine.outcome() {
        Some(how) => outcome(alloc, program, lines, how, machine.wrapped()),
        None => steps_spent(alloc, steps, machine.wrapped()),
    }
}

/// How a machine that makes no more steps has ended.
fn end_in(machine: &Machine<'_>) -> RunEnd
    ensures { result ≡ end_of (state_of machine.now).ended }
{
    match machine.outcome() {
        Some(how) => match how {
            Outcome::Ended(_) => RunEnd::Ended,
            _ => RunEnd::Stopped,
        },
        None => RunEnd::StepsSpent,
    }
}

/// Runs the machine for at most so many steps, and writes the values that it prints, where `traced` says so its accesses among them, and then the line of its outcome. `lines` are those of the source of its
/// program, in which the run stops. After an error, which is that of the write that was refused or want of memory for a line, the sink took a prefix of that text.
pub fn run<K: Sink>(
    alloc: Global,
    machine: &mut Machine<'_>,
    program: &Program,
    lines: &LineMap,
    steps: u32,
    traced: bool,
    out: &mut K,
) -> Result<RunEnd, WriteError>
    requires { record {
      within : RunWithin (length lines.now) program.now (limits_of machine.old) steps (state_of machine.old);
      seen : TraceWithin (length lines.now) program.now (limits_of machine.old) steps (state_of machine.old);
      program : machine.old.rows.program.now ≡ program.now;
    } }
    ensures ended { IfOk result (λ how. how ≡ end_of (model.run (limits_of machine.old) (tables_of program.now) steps (state_of machine.old)).ended) }
    ensures taken { OnOk result (Took (run_text traced program.now lines.now (limits_of machine.old) steps (state_of machine.old)) (K.taken out.old) (K.taken out.new)) }
    ensures prefix { TookPrefix (run_text traced program.now lines.now (limits_of machine.old) steps (state_of machine.old)) (K.taken out.old) (K.taken out.new) }
    ensures falls { K.faults out.old ≤ K.faults out.new }
    ensures rose { IsErrOf result WriteError.Failed → Rose (K.faults out.old) (K.faults out.new) }
    ensures ok { OnOk result (K.faults out.new ≡ K.faults out.old) }
{
    write_seen(alloc, machine, lines, steps, traced, out)?;
    let Ok(line) = last_line_of(alloc, machine, program, lines, steps) else {
        return Err(WriteError::Memory);
    };
    write_all(out, line.as_bytes())?;
    Ok(end_in(machine))
}
