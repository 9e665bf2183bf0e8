//! The texts of certificates that were judged.
ghost use Rattle.std.specs.Prelude.{◌≡◌, length, IfOk, string_bytes};
ghost use Rattle.ix_text.specs.Lines.{place};
ghost use Rattle.ix_report.specs.Certificates as spec;

use crate::texts::key;
use ix_core::Error;
use ix_text::LineMap;
use std::alloc::{AllocError, Global};

/// The line of a program that is accepted by a certificate, with that many methods and constructors written in it and that many labels in the certificate.
pub fn verified(alloc: Global, methods: u32, labels: u32) -> Result<String, AllocError>
    ensures { IfOk result (λ text. string_bytes text ≡ spec.verified methods labels) }
{
    format!(in alloc; "verified: {methods} methods, {labels} labels\n")
}

/// The line of a certificate that has more bytes than one may have.
pub fn past_certificate(alloc: Global, cert: &str) -> Result<String, AllocError>
    ensures { IfOk result (λ text. string_bytes text ≡ spec.past_certificate cert.now) }
{
    format!(in alloc; "{cert}: limit: certificate bytes\n")
}

/// The line of a certificate whose bytes are none of the program.
pub fn refused_form(alloc: Global, cert: &str) -> Result<String, AllocError>
    ensures { IfOk result (λ text. string_bytes text ≡ spec.refused_form cert.now) }
{
    format!(in alloc; "{cert}: certificate refused: form\n")
}

/// The line of a certificate of which the label of this loop of this method fails.
pub fn refused_loop(
    alloc: Global,
    cert: &str,
    method: u32,
    number: u32,
) -> Result<String, AllocError>
    ensures { IfOk result (λ text. string_bytes text ≡ spec.refused_loop cert.now method number) }
{
    format!(in alloc; "{cert}: certificate refused: method {method}, loop {number}\n")
}

/// The line and the column of a place in a text of `end` bytes; of its end where the place is behind it.
fn place_in(lines: &LineMap, end: u32, at: u32) -> (u32, u32)
    requires { end ≡ length lines.now }
    ensures { result ≡ place lines.now at }
{
    if at <= end {
        lines.place(at)
    } else {
        lines.place(end)
    }
}

/// The line of a certificate at whose labels this error is derived. `lines` are those of the source, which has `end` bytes.
pub fn refused_rule(
    alloc: Global,
    lines: &LineMap,
    end: u32,
    cert: &str,
    error: &Error,
) -> Result<String, AllocError>
    requires { end ≡ length lines.now }
    ensures { IfOk result (λ text. string_bytes text ≡ spec.refused_rule cert.now lines.now error.now) }
{
    let (line, column) = place_in(lines, end, error.span.from);
    let why = key(error.rule);
    format!(in alloc; "{cert}: certificate refused: {why} at {line}:{column}\n")
}
