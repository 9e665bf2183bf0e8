//! The replies to commands, before they are written.
ghost use Rattle.std.specs.Prelude.{◌≡◌, ◌≤◌, length, IfOk};
ghost use Rattle.ix_core.specs.Formed.{Formed};
ghost use Rattle.ix_replies.specs.Answer.{out_answer, err_answer};
ghost use Rattle.ix_replies.specs.Replies.{shown};
ghost use Rattle.ix_replies.specs.Said.{verdict, bench_verdict, usage, read_failed};
ghost use Rattle.ix_report.specs.Texts as text;
ghost use Rattle.ix_report.specs.Names as names_text;

use crate::counts::count_program;
use crate::making::{on_err, on_out};
use crate::status::Status;
use crate::written_reply::Reply;
use ix_core::{Error, Program};
use ix_meaning::NameError;
use ix_report::{
    accepted, bench_accepted, bench_rejected, broken, misnamed, past_bytes, past_limit, report,
    told,
};
use ix_text::LineMap;
use std::alloc::{AllocError, Global};

/// The reply on a source that is judged.
pub fn judged_reply(
    alloc: Global,
    name: &str,
    bytes: &[u8],
    program: &Program,
    errors: &[Error],
) -> Result<Reply, AllocError>
    requires short { length bytes.now ≤ 1048576 }
    requires formed { Formed program.now }
    requires within { text.StartWithin (length bytes.now) errors.now }
    ensures { IfOk result (λ reply. shown reply ≡ verdict name.now bytes.now program.now errors.now) }
{
    if errors.is_empty() {
        let counts = count_program(program);
        let out = accepted(alloc, counts.methods, counts.accesses)?;
        return Ok(on_out(alloc, Status::Done, out));
    }
    let lines = LineMap::new(alloc, bytes)?;
    let out = report(alloc, program, &lines, name, errors)?;
    Ok(on_out(alloc, Status::Rejected, out))
}

/// The reply on a source with a lexical error or a syntax error at the byte `at`.
pub fn broken_reply(
    alloc: Global,
    name: &str,
    bytes: &[u8],
    at: u32,
    key: &str,
) -> Result<Reply, AllocError>
    requires { record {
      short : length bytes.now ≤ 1048576;
      within : at ≤ length bytes.now;
    } }
    ensures { IfOk result (λ reply. shown reply ≡ out_answer Status.Rejected (text.broken name.now bytes.now at key.now)) }
{
    let lines = LineMap::new(alloc, bytes)?;
    let out = broken(alloc, &lines, name, at, key)?;
    Ok(on_out(alloc, Status::Rejected, out))
}

/// The reply on a source with errors on names.
pub fn misnamed_reply(
    alloc: Global,
    name: &str,
    bytes: &[u8],
    errors: &[NameError],
) -> Result<Reply, AllocError>
    requires { record {
      short : length bytes.now ≤ 1048576;
      within : names_text.StartWithin (length bytes.now) errors.now;
    } }
    ensures { IfOk result (λ reply. shown reply ≡ out_answer Status.Rejected (names_text.misnamed name.now bytes.now errors.now)) }
{
    let lines = LineMap::new(alloc, bytes)?;
    let out = misnamed(alloc, &lines, name, errors)?;
    Ok(on_out(alloc, Status::Rejected, out))
}

/// The reply on a source that passes a limit at the byte `at`.
pub fn past_reply(
    alloc: Global,
    name: &str,
    bytes: &[u8],
    at: u32,
    limit: &str,
) -> Result<Reply, AllocError>
    requires { record {
      short : length bytes.now ≤ 1048576;
      within : at ≤ length bytes.now;
    } }
    ensures { IfOk result (λ reply. shown reply ≡ err_answer Status.Limit (text.past_limit name.now bytes.now at limit.now)) }
{
    let lines = LineMap::new(alloc, bytes)?;
    let err = past_limit(alloc, &lines, name, at, limit)?;
    Ok(on_err(alloc, Status::Limit, err))
}

/// The reply on a source with more bytes than a source may have.
pub fn too_long_reply(alloc: Global, name: &str) -> Result<Reply, AllocError>
    ensures { IfOk result (λ reply. shown reply ≡ err_answer Status.Limit (text.past_bytes name.now)) }
{
    let err = past_bytes(alloc, name)?;
    Ok(on_err(alloc, Status::Limit, err))
}

/// The reply on a workload that is judged.
pub fn bench_reply(
    alloc: Global,
    count: u32,
    program: &Program,
    errors: &[Error],
) -> Result<Reply, AllocError>
    requires formed { Formed program.now }
    ensures { IfOk result (λ reply. shown reply ≡ bench_verdict count program.now errors.now) }
{
    if errors.is_empty() {
        let counts = count_program(program);
        let out = bench_accepted(alloc, count, counts.methods, counts.accesses)?;
        return Ok(on_out(alloc, Status::Done, out));
    }
    let told = told(alloc, program, errors)?;
    let out = bench_rejected(alloc, count, told.len())?;
    Ok(on_out(alloc, Status::Rejected, out))
}

/// The reply on a file that was not read.
pub fn unread_reply(alloc: Global, name: &str) -> Result<Reply, AllocError>
    ensures { IfOk result (λ reply. shown reply ≡ err_answer Status.ReadFault (read_failed name.now)) }
{
    let err = format!(in alloc; "{name}: read failed\n")?;
    Ok(on_err(alloc, Status::ReadFault, err))
}

/// The reply to words that are no command.
pub fn usage_reply(alloc: Global) -> Result<Reply, AllocError>
    ensures { IfOk result (λ reply. shown reply ≡ usage) }
{
    let err = format!(in alloc;
        "usage: indexcheck check FILE | run FILE CLASS.METHOD -- INPUTS | bench N | verify FILE CERT | guard FILE\n"
    )?;
    Ok(on_err(alloc, Status::Usage, err))
}
