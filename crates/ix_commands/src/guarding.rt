//! The answer of `guard`.
ghost use Rattle.std.specs.Prelude.{◌≡◌, ◌≢◌, ◌≤◌, ℕ, List, Option, length, IfOk};
ghost use Rattle.ix_replies.specs.Replies.{shown};
ghost use Rattle.ix_core.specs.Formed.{Formed};
ghost use Rattle.ix_front.specs.Found.{Found, TooLong, Whole};
ghost use Rattle.ix_front.specs.Findings.{seen, IsPlaced, HasFormed};
ghost use Rattle.ix_core.specs.Ready.{CanCheck};
ghost use Rattle.ix_commands.specs.Answers as spec;
ghost use Rattle.ix_words.specs.Commands.{Guard};
ghost use Rattle.ix_commands.specs.Judgements.{profile_of as spec_profile_of};
ghost use Rattle.ix_commands.specs.Promises.{SafeText};

use crate::judging::profile_of;
use ix_certify::check_program;
use ix_core::{Error, Profile, Program};
use ix_front::{Finding, of_bytes};
use ix_guard_text::guarded;
use ix_replies::{
    Reply, Status, broken_reply, misnamed_reply, on_bytes, past_reply, too_long_reply,
};
use ix_words::Sums;
use std::alloc::{AllocError, Global};

/// The status of `guard` where these are the errors of the program of the guarded text.
fn guard_status(errors: &[Error]) -> Status
    ensures { result ≡ spec.guard_status errors.now }
{
    match errors {
        [] => Status::Done,
        _ => Status::Rejected,
    }
}

/// The reply of `guard` that writes a guarded text with this program.
fn written_reply(
    alloc: Global,
    profile: Profile,
    text: Vec<u8>,
    program: &Program,
) -> Result<Reply, AllocError>
    requires found { Found text.items (Whole program.now) }
    requires formed { Formed program.now }
    requires can { CanCheck program.now }
    ensures answers { IfOk result (λ reply. spec.AnswersGuarded profile text.items program.now (shown reply)) }
    ensures safe { IfOk result (λ reply. (shown reply).status ≡ Status.Done → SafeText profile (shown reply).out) }
{
    let errors = check_program(alloc, program, profile)?;
    Ok(on_bytes(alloc, guard_status(&errors), text))
}

/// The reply of `guard` where this is found of the guarded text.
fn guarded_reply(
    alloc: Global,
    profile: Profile,
    name: &str,
    text: Vec<u8>,
    finding: &Finding,
) -> Result<Reply, AllocError>
    requires found { Found text.items (seen finding.now) }
    requires short { seen finding.now ≢ TooLong → length text.items ≤ 1048576 }
    requires placed { IsPlaced (length text.items) (seen finding.now) }
    requires formed { HasFormed (seen finding.now) }
    ensures answers { IfOk result (λ reply. spec.AnswersFound name.now text.items (spec.AnswersGuarded profile text.items) (seen finding.now) (shown reply)) }
    ensures safe { IfOk result (λ reply. (shown reply).status ≡ Status.Done → SafeText profile (shown reply).out) }
{
    match finding {
        Finding::TooLong => too_long_reply(alloc, name),
        Finding::Broken(at, key) => broken_reply(alloc, name, &text, *at, key),
        Finding::Past(at, limit) => past_reply(alloc, name, &text, *at, limit),
        Finding::Misnamed(errors) => misnamed_reply(alloc, name, &text, errors.as_slice()),
        Finding::Whole(program) => written_reply(alloc, profile, text, program),
    }
}

/// The reply of `guard` on a source with this program.
pub(crate) fn guard_reply(
    alloc: Global,
    sums: Sums,
    name: &str,
    bytes: &[u8],
    program: &Program,
) -> Result<Reply, AllocError>
    requires found { Found bytes.now (Whole program.now) }
    requires short { length bytes.now ≤ 1048576 }
    requires formed { Formed program.now }
    requires can { CanCheck program.now }
    ensures answers { IfOk result (λ reply. (cert : Option (List ℕ)) → spec.AnswersWhole (Guard sums name.now) bytes.now cert program.now (shown reply)) }
    ensures safe { IfOk result (λ reply. (shown reply).status ≡ Status.Done → SafeText (spec_profile_of sums) (shown reply).out) }
{
    let profile = profile_of(sums);
    let errors = check_program(alloc, program, profile)?;
    let text = guarded(alloc, bytes, &errors)?;
    let finding = of_bytes(alloc, &text)?;
    guarded_reply(alloc, profile, name, text, &finding)
}
