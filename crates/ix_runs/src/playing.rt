//! Runs, and the lines on runs that don't begin.
ghost use Rattle.std.specs.Prelude.{◌≡◌, ◌≢◌, ◌≤◌, ◌<◌, ◌^◌, length, map, Ok, Err, IfOk, string_bytes};
ghost use Rattle.ix_machine.specs.declared.start.StartError.TheVariants as start;
ghost use Rattle.ix_machine.specs.State.{state_of, limits_of};
ghost use Rattle.ix_core.specs.Machine.{with_limits};
ghost use Rattle.ix_replies.specs.Delivery.{Delivers, sinks};
ghost use Rattle.ix_core.specs.CodePlaces.{PlacesWithin};
ghost use Rattle.ix_runs.specs.Ends.{RunWithin, TraceWithin};
ghost use Rattle.ix_runs.specs.Runs as spec;
ghost use Rattle.ix_replies.specs.Answer.{err_answer};
ghost use Rattle.ix_replies.specs.Replies.{shown};

use crate::running::{RunEnd, run};
use ix_core::Program;
use ix_machine::{Limits as MachineLimits, Machine, StartError};
use ix_outside::{Sink, WriteError};
use ix_replies::{Reply, Status, on_err, say, wanting};
use ix_report::{no_entry, too_large, unmet, wrong_count, wrong_kind};
use ix_text::LineMap;
use ix_words::Limits;
use std::alloc::{AllocError, Global};

/// The line on a run that doesn't begin.
fn refusal_text(alloc: Global, program: &Program, why: StartError) -> Result<String, AllocError>
    requires { why ≢ StartError.Memory }
    ensures { IfOk result (λ line. string_bytes line ≡ spec.refusal_text program.now why) }
{
    match why {
        StartError::NotEntry => no_entry(alloc),
        StartError::WrongCount => wrong_count(alloc),
        StartError::WrongKind(number) => wrong_kind(alloc, number),
        StartError::Unmet(method, number, claim) => unmet(alloc, program, method, number, claim),
        StartError::InputsTooLarge => too_large(alloc),
        StartError::Memory => Ok(String::new(alloc)),
    }
}

/// The reply on a run that doesn't begin.
fn refusal(alloc: Global, program: &Program, why: StartError) -> Result<Reply, AllocError>
    requires { why ≢ StartError.Memory }
    ensures { IfOk result (λ reply. shown reply ≡ err_answer Status.InputsRefused (spec.refusal_text program.now why)) }
{
    let err = refusal_text(alloc, program, why)?;
    Ok(on_err(alloc, Status::InputsRefused, err))
}

/// The status of a run that ended so.
fn status_of(end: RunEnd) -> Status
    ensures { result ≡ spec.status_of end }
{
    match end {
        RunEnd::Ended => Status::Done,
        RunEnd::Stopped => Status::Stopped,
        RunEnd::StepsSpent => Status::StepsSpent,
    }
}

/// How a run is made: how far at most, and whether its accesses are written.
#[derive(Clone, Copy)]
pub struct Manner {
    /// How far at most.
    pub limits: Limits,
    /// Whether the accesses are written.
    pub traced: bool,
}

/// Runs a machine and writes what it prints and how it ended.
fn play_machine<K: Sink, E: Sink>(
    alloc: Global,
    machine: &mut Machine<'_>,
    program: &Program,
    bytes: &[u8],
    manner: Manner,
    out: &mut K,
    err: &mut E,
) -> Status
    requires program { machine.old.rows.program.now ≡ program.now }
    requires limits { limits_of machine.old ≡ with_limits manner.limits.cells manner.limits.frames }
    requires short { length bytes.now ≤ 1048576 }
    requires within { RunWithin (length bytes.now) program.now (limits_of machine.old) manner.limits.steps (state_of machine.old) }
    requires seen { TraceWithin (length bytes.now) program.now (limits_of machine.old) manner.limits.steps (state_of machine.old) }
    ensures { Delivers (λ answer. answer ≡ spec.run_answer manner.traced program.now bytes.now manner.limits (state_of machine.old)) result (sinks (K.taken out.old) (K.faults out.old) (E.taken err.old) (E.faults err.old) (E.refused err.old))
        (sinks (K.taken out.new) (K.faults out.new) (E.taken err.new) (E.faults err.new) (E.refused err.new)) }
{
    let Ok(lines) = LineMap::new(alloc, bytes) else {
        return wanting(err);
    };
    match run(
        alloc,
        machine,
        program,
        &lines,
        manner.limits.steps,
        manner.traced,
        out,
    ) {
        Ok(end) => status_of(end),
        Err(WriteError::Failed) => Status::WriteFault,
        Err(WriteError::Memory) => wanting(err),
    }
}

/// Runs a method of the program of these bytes with the inputs that the words write, or says why no run begins.
pub fn play<K: Sink, E: Sink>(
    alloc: Global,
    program: &Program,
    bytes: &[u8],
    manner: Manner,
    entry: &str,
    inputs: &[&str],
    out: &mut K,
    err: &mut E,
) -> Status
    requires { record {
      cells : manner.limits.cells < 2 ^ 31;
      frames : 0 < manner.limits.frames;
      short : length bytes.now ≤ 1048576;
      within : PlacesWithin (length bytes.now) program.now;
    } }
    ensures { Delivers (spec.RunAnswers manner.traced program.now bytes.now manner.limits entry.now (map (λ word. word.now) inputs.now)) result (sinks (K.taken out.old) (K.faults out.old) (E.taken err.old) (E.faults err.old) (E.refused err.old))
        (sinks (K.taken out.new) (K.faults out.new) (E.taken err.new) (E.faults err.new) (E.refused err.new)) }
{
    let room = MachineLimits {
        cells: manner.limits.cells,
        frames: manner.limits.frames,
    };
    match Machine::new(alloc, program, entry, inputs, room) {
        Ok(mut machine) => play_machine(alloc, &mut machine, program, bytes, manner, out, err),
        Err(StartError::Memory) => wanting(err),
        Err(why) => say(refusal(alloc, program, why), out, err),
    }
}
