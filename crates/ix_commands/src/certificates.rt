//! The replies to `verify`, before they are written.
ghost use Rattle.std.specs.Prelude.{◌≡◌, ◌≢◌, ◌≤◌, length, IfOk, string_bytes};
ghost use Rattle.ix_core.specs.Formed.{Formed};
ghost use Rattle.ix_replies.specs.Answer.{out_answer, err_answer};
ghost use Rattle.ix_replies.specs.Replies.{shown};
ghost use Rattle.ix_commands.specs.Answers as spec;
ghost use Rattle.ix_certify.specs.CertError.TheVariants as CertError;
ghost use Rattle.ix_replies.specs.Counts.{counts_of};
ghost use Rattle.ix_report.specs.Certificates as certificate_text;

use ix_certify::CertError;
use ix_core::Program;
use ix_replies::{Reply, Status, count_program, on_err, on_out};
use ix_report::{past_certificate, refused_form, refused_loop, refused_rule, verified};
use ix_text::LineMap;
use std::alloc::{AllocError, Global};

/// The reply on a certificate with more bytes than one may have.
pub(crate) fn past_certificate_reply(alloc: Global, cert: &str) -> Result<Reply, AllocError>
    ensures { IfOk result (λ reply. shown reply ≡ err_answer Status.Limit (certificate_text.past_certificate cert.now)) }
{
    let err = past_certificate(alloc, cert)?;
    Ok(on_err(alloc, Status::Limit, err))
}

/// The reply on a program that is accepted by a certificate with that many labels.
pub(crate) fn verified_reply(
    alloc: Global,
    program: &Program,
    labels: u32,
) -> Result<Reply, AllocError>
    requires formed { Formed program.now }
    ensures { IfOk result (λ reply. shown reply ≡ out_answer Status.Done (certificate_text.verified (counts_of program.now).methods labels)) }
{
    let counts = count_program(program);
    let out = verified(alloc, counts.methods, labels)?;
    Ok(on_out(alloc, Status::Done, out))
}

/// The line on a certificate that is refused, of a source with these bytes.
fn refusal_line(
    alloc: Global,
    cert: &str,
    bytes: &[u8],
    why: CertError,
) -> Result<String, AllocError>
    requires { record {
      short : length bytes.now ≤ 1048576;
      why : why ≢ CertError.Memory;
    } }
    ensures { IfOk result (λ line. string_bytes line ≡ spec.refusal_line cert.now bytes.now why) }
{
    match why {
        CertError::Form => refused_form(alloc, cert),
        CertError::Loop(method, number) => refused_loop(alloc, cert, method, number),
        CertError::Rule(error) => {
            let lines = LineMap::new(alloc, bytes)?;
            refused_rule(alloc, &lines, bytes.len() as u32, cert, &error)
        }
        CertError::Memory => unreachable!(),
    }
}

/// The reply on a certificate that is refused, of a source with these bytes.
pub(crate) fn refusal_reply(
    alloc: Global,
    cert: &str,
    bytes: &[u8],
    why: CertError,
) -> Result<Reply, AllocError>
    requires short { length bytes.now ≤ 1048576 }
    requires why { why ≢ CertError.Memory }
    ensures { IfOk result (λ reply. shown reply ≡ out_answer Status.Rejected (spec.refusal_line cert.now bytes.now why)) }
{
    let out = refusal_line(alloc, cert, bytes, why)?;
    Ok(on_out(alloc, Status::Rejected, out))
}
