//! The answer to a command on a source.
ghost use Rattle.std.specs.Prelude.{◌≡◌, ◌≢◌, ◌≤◌, Bool, true, false, ℕ, List, Option, Some, length, option_map, IfOk};
ghost use Rattle.ix_replies.specs.Replies.{shown};
ghost use Rattle.ix_commands.specs.Answers as spec;
ghost use Rattle.ix_front.specs.Sources.{cert_in, source_name as source_name_of};
ghost use Rattle.ix_front.specs.Found.{Finding as FoundOf, Found, TooLong, Whole};
ghost use Rattle.ix_certify.specs.CertError.TheVariants as CertError;
ghost use Rattle.ix_front.specs.Findings.{seen, IsPlaced, HasFormed};
ghost use Rattle.ix_core.specs.CodePlaces.{PlacesWithin};
ghost use Rattle.ix_core.specs.Ready.{CanCheck};
ghost use Rattle.ix_core.specs.Formed.{Formed};
ghost use Rattle.ix_commands.specs.Promises.{PromisesWhole, PromisesOn, Promises, SafeProgram};
ghost use Rattle.ix_front.specs.Opened.{IsOpened, opened_by};
ghost use Rattle.ix_replies.specs.Delivery.{Delivers, IsOnly, sinks};
ghost use Rattle.ix_words.specs.Commands.{HasLimits, Check, Bench, Verify};
ghost use Rattle.ix_words.specs.Shown.{shown as command_of};

use crate::certificates::{past_certificate_reply, refusal_reply, verified_reply};
use crate::guarding::guard_reply;
use crate::judging::profile_of;
use ix_certify::{CertError, can_verify, certificate, check_program, verify};
use ix_core::{Profile, Program};
use ix_front::{Finding, Inputs, source_name};
use ix_outside::{MOST_CERTIFICATE, Sink};
use ix_replies::{
    Reply, Status, bench_reply, broken_reply, judged_reply, misnamed_reply, on_bytes, past_reply,
    say, too_long_reply, wanting,
};
use ix_runs::{Manner, play};
use ix_words::{Command, Sums};
use std::alloc::{AllocError, Global};

/// The reply of `check` on a source with this program.
fn check_reply(
    alloc: Global,
    sums: Sums,
    name: &str,
    bytes: &[u8],
    program: &Program,
) -> Result<Reply, AllocError>
    requires { record {
      short : length bytes.now ≤ 1048576;
      formed : Formed program.now;
      can : CanCheck program.now;
      within : PlacesWithin (length bytes.now) program.now;
    } }
    ensures answers { IfOk result (λ reply. (library : Bool) (cert : Option (List ℕ)) → spec.AnswersWhole (Check sums false library name.now) bytes.now cert program.now (shown reply)) }
    ensures safe { IfOk result (λ reply. (library : Bool) (cert : Option (List ℕ)) → PromisesWhole (Check sums false library name.now) cert program.now (shown reply)) }
{
    let errors = check_program(alloc, program, profile_of(sums))?;
    judged_reply(alloc, name, bytes, program, &errors)
}

/// The reply of `check --certificate` on a source with this program: the certificate of its least labels, where it is accepted.
fn certificate_reply(
    alloc: Global,
    sums: Sums,
    name: &str,
    bytes: &[u8],
    program: &Program,
) -> Result<Reply, AllocError>
    requires { record {
      short : length bytes.now ≤ 1048576;
      formed : Formed program.now;
      can : CanCheck program.now;
      within : PlacesWithin (length bytes.now) program.now;
    } }
    ensures { record {
      answers : IfOk result (λ reply. (library : Bool) (cert : Option (List ℕ)) → spec.AnswersWhole (Check sums true library name.now) bytes.now cert program.now (shown reply));
      safe : IfOk result (λ reply. (library : Bool) (cert : Option (List ℕ)) → PromisesWhole (Check sums true library name.now) cert program.now (shown reply));
    } }
{
    let profile = profile_of(sums);
    let errors = check_program(alloc, program, profile)?;
    if !errors.is_empty() {
        return judged_reply(alloc, name, bytes, program, &errors);
    }
    let text = certificate(alloc, program, profile)?;
    Ok(on_bytes(alloc, Status::Done, text))
}

/// The reply of `check` on a source with this program, where the certificate is asked for or isn't.
fn asked_reply(
    alloc: Global,
    sums: Sums,
    certificate: bool,
    name: &str,
    bytes: &[u8],
    program: &Program,
) -> Result<Reply, AllocError>
    requires { record {
      short : length bytes.now ≤ 1048576;
      formed : Formed program.now;
      can : CanCheck program.now;
      within : PlacesWithin (length bytes.now) program.now;
    } }
    ensures answers { IfOk result (λ reply. (library : Bool) (cert : Option (List ℕ)) → spec.AnswersWhole (Check sums certificate library name.now) bytes.now cert program.now (shown reply)) }
    ensures safe { IfOk result (λ reply. (library : Bool) (cert : Option (List ℕ)) → PromisesWhole (Check sums certificate library name.now) cert program.now (shown reply)) }
{
    if certificate {
        certificate_reply(alloc, sums, name, bytes, program)
    } else {
        check_reply(alloc, sums, name, bytes, program)
    }
}

/// The reply of `verify` on a source with this program, where the certificate has this text.
fn verify_reply(
    alloc: Global,
    cert: &str,
    bytes: &[u8],
    program: &Program,
    text: &[u8],
) -> Result<Reply, AllocError>
    requires { record {
      short : length bytes.now ≤ 1048576;
      formed : Formed program.now;
      can : CanCheck program.now;
    } }
    ensures answers { IfOk result (λ reply. spec.Verifies cert.now bytes.now program.now text.now (shown reply)) }
    ensures safe { IfOk result (λ reply. (shown reply).status ≡ Status.Done → SafeProgram program.now (Some text.now)) }
{
    if text.len() > MOST_CERTIFICATE {
        return past_certificate_reply(alloc, cert);
    }
    can_verify();
    match verify(alloc, program, text) {
        Ok(verified) => verified_reply(alloc, program, verified.labels),
        Err(CertError::Memory) => Err(AllocError),
        Err(why) => refusal_reply(alloc, cert, bytes, why),
    }
}

/// The reply of `bench` on a workload with this program.
fn workload_reply(
    alloc: Global,
    count: u32,
    bytes: &[u8],
    program: &Program,
) -> Result<Reply, AllocError>
    requires { record {
      formed : Formed program.now;
      can : CanCheck program.now;
    } }
    ensures { IfOk result (λ reply. (cert : Option (List ℕ)) → spec.AnswersWhole (Bench count) bytes.now cert program.now (shown reply)) }
{
    let errors = check_program(alloc, program, Profile::Int32)?;
    bench_reply(alloc, count, program, &errors)
}

/// Answers a command on a source without errors on names and within the limits.
fn answer_whole<K: Sink, E: Sink>(
    alloc: Global,
    command: &Command<'_>,
    bytes: &[u8],
    program: &Program,
    cert: &Option<Vec<u8>>,
    out: &mut K,
    err: &mut E,
) -> Status
    requires { record {
      limits : HasLimits (command_of command.now);
      found : Found bytes.now (Whole program.now);
      short : length bytes.now ≤ 1048576;
      formed : Formed program.now;
      can : CanCheck program.now;
      within : PlacesWithin (length bytes.now) program.now;
      opened : IsOpened (cert_in (command_of command.now)) (option_map (λ text. text.items) cert.now);
    } }
    ensures { Delivers (λ a. spec.AnswersWhole (command_of command.now) bytes.now (option_map (λ text. text.items) cert.now) program.now a
        × PromisesWhole (command_of command.now) (option_map (λ text. text.items) cert.now) program.now a) result (sinks (K.taken out.old) (K.faults out.old) (E.taken err.old) (E.faults err.old) (E.refused err.old))
        (sinks (K.taken out.new) (K.faults out.new) (E.taken err.new) (E.faults err.new) (E.refused err.new)) }
{
    match command {
        Command::Check {
            sums,
            certificate,
            file,
            ..
        } => {
            say(
                asked_reply(alloc, *sums, *certificate, file, bytes, program),
                out,
                err,
            )
        }
        Command::Bench(count) => say(workload_reply(alloc, *count, bytes, program), out, err),
        Command::Guard { sums, file } => {
            say(guard_reply(alloc, *sums, file, bytes, program), out, err)
        }
        Command::Verify { cert: name, .. } => match cert {
            Some(text) => say(verify_reply(alloc, name, bytes, program, text), out, err),
            None => unreachable!(),
        },
        Command::Run {
            limits,
            traced,
            entry,
            inputs,
            ..
        } => {
            let manner = Manner {
                limits: *limits,
                traced: *traced,
            };
            play(
                alloc,
                program,
                bytes,
                manner,
                entry,
                inputs.as_slice(),
                out,
                err,
            )
        }
    }
}

/// Answers a command on a source of which this is found.
fn answer_found<K: Sink, E: Sink>(
    alloc: Global,
    command: &Command<'_>,
    name: &str,
    inputs: &Inputs,
    out: &mut K,
    err: &mut E,
) -> Status
    requires { record {
      limits : HasLimits (command_of command.now);
      name : name.now ≡ source_name_of (command_of command.now);
      right : Found inputs.now.bytes.items (seen inputs.now.finding);
      short : seen inputs.now.finding ≢ TooLong → length inputs.now.bytes.items ≤ 1048576;
      placed : IsPlaced (length inputs.now.bytes.items) (seen inputs.now.finding);
      formed : HasFormed (seen inputs.now.finding);
      opened : IsOpened (opened_by (command_of command.now) (seen inputs.now.finding)) (option_map (λ text. text.items) inputs.now.cert);
    } }
    ensures { Delivers (λ a. spec.AnswersOn (command_of command.now) inputs.now.bytes.items (option_map (λ text. text.items) inputs.now.cert) (seen inputs.now.finding) a
        × PromisesOn (command_of command.now) (option_map (λ text. text.items) inputs.now.cert) (seen inputs.now.finding) a) result (sinks (K.taken out.old) (K.faults out.old) (E.taken err.old) (E.faults err.old) (E.refused err.old))
        (sinks (K.taken out.new) (K.faults out.new) (E.taken err.new) (E.faults err.new) (E.refused err.new)) }
{
    let bytes = inputs.bytes.as_slice();
    match &inputs.finding {
        Finding::TooLong => say(too_long_reply(alloc, name), out, err),
        Finding::Broken(at, key) => say(broken_reply(alloc, name, bytes, *at, key), out, err),
        Finding::Past(at, limit) => say(past_reply(alloc, name, bytes, *at, limit), out, err),
        Finding::Misnamed(errors) => {
            say(
                misnamed_reply(alloc, name, bytes, errors.as_slice()),
                out,
                err,
            )
        }
        Finding::Whole(program) => {
            answer_whole(alloc, command, bytes, program, &inputs.cert, out, err)
        }
    }
}

/// Answers a command on what it is answered on.
pub fn answer<K: Sink, E: Sink>(
    alloc: Global,
    command: &Command<'_>,
    inputs: &Inputs,
    out: &mut K,
    err: &mut E,
) -> Status
    requires limits { HasLimits (command_of command.now) }
    requires right { Found inputs.now.bytes.items (seen inputs.now.finding) }
    requires only { (other : FoundOf) → Found inputs.now.bytes.items other → seen inputs.now.finding ≡ other }
    requires placed { IsPlaced (length inputs.now.bytes.items) (seen inputs.now.finding) }
    requires formed { HasFormed (seen inputs.now.finding) }
    requires opened { IsOpened (opened_by (command_of command.now) (seen inputs.now.finding)) (option_map (λ text. text.items) inputs.now.cert) }
    ensures { Delivers (λ a. IsOnly (spec.IsVerdict (command_of command.now) inputs.now.bytes.items (option_map (λ text. text.items) inputs.now.cert)) a
        × Promises (command_of command.now) inputs.now.bytes.items (option_map (λ text. text.items) inputs.now.cert) a) result (sinks (K.taken out.old) (K.faults out.old) (E.taken err.old) (E.faults err.old) (E.refused err.old))
        (sinks (K.taken out.new) (K.faults out.new) (E.taken err.new) (E.faults err.new) (E.refused err.new)) }
{
    match source_name(alloc, command) {
        Ok(name) => answer_found(alloc, command, &name, inputs, out, err),
        Err(_) => wanting(err),
    }
}
