//! Certificates verified.

ghost use Rattle.std.specs.Prelude.{◌≡◌, ◌≢◌, ℕ, List, [], length, map, slice_get, Some, IfOk, IfErr, MatchResult};
ghost use Rattle.ix_core.specs.declared.fact.Profile.{Profile as Found};
ghost use Rattle.ix_core.specs.Formed.{Formed};
ghost use Rattle.ix_core.specs.Safe.{Safe};
ghost use Rattle.ix_facts.specs.Stores.{Stored};
ghost use Rattle.ix_store.specs.StoredFacts.{stored};
ghost use Rattle.ix_cert.specs.Labellings.{IsLabelling, loops_of};
ghost use Rattle.ix_verify.specs.Flawless.{AreFlawless};
ghost use Rattle.ix_verify.specs.declared.answer.CertError.TheVariants.{Memory};
ghost use Rattle.ix_verify.specs.Verdicts as spec;
ghost use Rattle.ix_verify.specs.Verdicts.{CanVerify, IsVerified, IsRefused, labels_in};

use crate::answer::{CertError, Verified};
use crate::audit_answer::Audit;
use crate::audited::audit;
use ix_cert::read;
use ix_core::{Error, Method, Profile, Program};
use ix_soundness::soundness;
use ix_store::Store;
use ix_text::List;
use std::alloc::{AllocError, Global};

/// How many of a method's labels stand in a text.
fn labels_of(method: &Method, labels: &List<Store>) -> usize
    ensures { result ≡ spec.labels_of method.now (length labels.now) }
{
    if method.written { labels.len() } else { 0 }
}

/// How many labels stand in a text. More than there are numbers for count as want of memory.
fn count_labels(methods: &[Method], labels: &[List<Store>]) -> Result<usize, AllocError>
    requires each { length labels.now ≡ length methods.now }
    ensures { IfOk result (λ count. count ≡ spec.labels_beside methods.now (map length labels.now)) }
{
    let mut count: usize = 0;
    for (number, method) in methods.iter().enumerate() {
        let more = labels_of(method, &labels[number]);
        count = count.checked_add(more).ok_or(AllocError)?;
    }
    Ok(count)
}

/// A count of labels with 32 bits. A greater one counts as want of memory.
fn as_u32(count: usize) -> Result<u32, AllocError>
    ensures { IfOk result (λ number. number ≡ count) }
{
    match u32::try_from(count) {
        Ok(number) => Ok(number),
        Err(_) => Err(AllocError),
    }
}

fn verified(
    program: &Program,
    profile: Profile,
    labels: &[List<Store>],
) -> Result<Verified, AllocError>
    requires each { map length labels.now ≡ map loops_of program.now.methods }
    ensures { record {
      profile : IfOk result (λ verified. verified.profile ≡ profile);
      count : IfOk result (λ verified. verified.labels ≡ labels_in program.now);
    } }
{
    let count = count_labels(program.methods.as_slice(), labels)?;
    let labels = as_u32(count)?;
    Ok(Verified { profile, labels })
}

/// The first of some errors.
fn first_of(errors: Vec<Error>) -> Error
    requires { errors.items ≢ [] }
    ensures { slice_get errors.items 0 ≡ Some result }
{
    errors[0]
}

/// What the labels that a text gives come to.
fn judge(
    alloc: Global,
    program: &Program,
    profile: Profile,
    labels: &[List<Store>],
) -> Result<Verified, CertError>
    requires can { CanVerify program.now }
    requires each { map length labels.now ≡ map loops_of program.now.methods }
    ensures verified { IfOk result (λ verified. (text : List ℕ) → IsLabelling program.now profile (map (map stored) labels.now) text → IsVerified program.now text verified) }
    ensures refused { IfErr result (λ error. (text : List ℕ) → IsLabelling program.now profile (map (map stored) labels.now) text → IsRefused program.now text error) }
{
    match audit(alloc, program, labels, profile)? {
        Audit::Clean => {
            let verified = verified(program, profile, labels)?;
            Ok(verified)
        }
        Audit::Loop(method, at) => Err(CertError::Loop(method, at)),
        Audit::Errors(errors) => Err(CertError::Rule(first_of(errors))),
    }
}

/// Whether a program is accepted by a certificate, without looking for labels: the text has to be a certificate of the program, in one of the two profiles; no label that it
/// gives fails, and the rules derive no error at these labels. The program is then safe in the certificate's profile. It answers that profile and how many labels stand in the
/// text; and it is accepted wherever the text is a certificate whose labels are those of a flow of each method without errors. Errors: `Form` exactly where the bytes are no certificate of the program; `Loop` with the first method and loop whose label isn't above the rounded join of what
/// comes to the loop's head, where there is one; `Rule` with the first error, where no label fails and errors are derived; `Memory` for want of memory alone.
pub fn verify(alloc: Global, program: &Program, text: &[u8]) -> Result<Verified, CertError>
    requires { record {
      formed : Formed program.now;
      can : CanVerify program.now;
    } }
    ensures verified { IfOk result (λ verified. IsVerified program.now text.now verified) }
    ensures refused { IfErr result (λ error. IsRefused program.now text.now error) }
    ensures safe { IfOk result (λ verified. Safe program.now verified.profile) }
    ensures accepts { (profile : Found) (labels : List (List Stored)) → IsLabelling program.now profile labels text.now → AreFlawless program.now profile labels → MatchResult result (λ verified. verified.profile ≡ profile) (λ error. error ≡ Memory) }
{
    soundness();
    match read(alloc, program, text)? {
        None => Err(CertError::Form),
        Some((profile, labels)) => judge(alloc, program, profile, labels.as_slice()),
    }
}
