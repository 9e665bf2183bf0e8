//! Certificates written.

ghost use Rattle.std.specs.Prelude.{◌≡◌, ◌<◌, ℕ, List, length, slice_get, Some, IfOk, IfSome, IfNone};
ghost use Rattle.ix_core.specs.declared.error.Error.{Error as Found};
ghost use Rattle.ix_core.specs.Formed.{Formed};
ghost use Rattle.ix_core.specs.Ready.{CanCheck};
ghost use Rattle.ix_check.specs.MethodErrors.{IsError};
ghost use Rattle.ix_core.specs.Tables.{method_at};
ghost use Rattle.ix_labels.specs.LoopLabels.{AreLoopLabels};
ghost use Rattle.ix_store.specs.declared.store.Store.{Store as Label};
ghost use Rattle.ix_verify.specs.declared.answer.CertError.{CertError};
ghost use Rattle.ix_verify.specs.declared.answer.CertError.TheVariants.{Memory};
ghost use Rattle.ix_verify.specs.Verdicts.{IsRefused};
ghost use Rattle.ix_certify.specs.Certificates.{IsLeastCertificate};

use crate::label_laws::least_labels_may_be_written;
use crate::laws::can_verify;
use ix_cert::print;
use ix_check::{check_program, method_labels};
use ix_core::{Profile, Program};
use ix_store::Store;
use ix_text::List;
use std::alloc::{AllocError, Global};

/// The least labels of a method.
fn labels_of(
    alloc: Global,
    program: &Program,
    method: u32,
    profile: Profile,
) -> Result<List<Store>, AllocError>
    requires { record {
      formed : Formed program.now;
      can : CanCheck program.now;
      number : method < length program.now.methods;
    } }
    ensures { IfOk result (λ stores. AreLoopLabels program.now (method_at program.now method) profile stores) }
{
    let mut stores = List::new(alloc);
    for store in method_labels(alloc, program, method, profile)? {
        stores.push(store)?;
    }
    Ok(stores)
}

/// The least labels of all methods.
fn least_labels(
    alloc: Global,
    program: &Program,
    profile: Profile,
) -> Result<List<List<Store>>, AllocError>
    requires { record {
      formed : Formed program.now;
      can : CanCheck program.now;
    } }
    ensures { record {
      each : IfOk result (λ labels. length labels ≡ length program.now.methods);
      least : IfOk result (λ labels. (number : ℕ) (stores : List Label) → slice_get labels number ≡ Some stores → AreLoopLabels program.now (method_at program.now number) profile stores);
    } }
{
    let mut labels = List::new(alloc);
    for number in 0..program.methods.len() as u32 {
        labels.push(labels_of(alloc, program, number, profile)?)?;
    }
    Ok(labels)
}

/// The certificate of the program's least labels in a profile, whether or not the rules derive errors at them. The one error is want of memory.
pub fn certificate(
    alloc: Global,
    program: &Program,
    profile: Profile,
) -> Result<Vec<u8>, AllocError>
    requires { record {
      formed : Formed program.now;
      can : CanCheck program.now;
    } }
    ensures { IfOk result (λ text. IsLeastCertificate program.now profile text.items) }
{
    least_labels_may_be_written();
    let labels = least_labels(alloc, program, profile)?;
    print(alloc, program, profile, labels.as_slice())
}

/// The certificate of the program's least labels in a profile, where the rules derive no error; none exactly where they derive some. It is one by which the program is accepted.
/// The one error is want of memory.
pub fn write(
    alloc: Global,
    program: &Program,
    profile: Profile,
) -> Result<Option<Vec<u8>>, AllocError>
    requires { record {
      formed : Formed program.now;
      can : CanCheck program.now;
    } }
    ensures none { IfOk result (λ text. IfNone text ((error : Found) × (rank : ℕ) × IsError program.now profile error rank)) }
    ensures some { IfOk result (λ text. IfSome text (λ text. (error : Found) (rank : ℕ) → IsError program.now profile error rank → ⊥)) }
    ensures least { IfOk result (λ text. IfSome text (λ text. IsLeastCertificate program.now profile text.items)) }
    ensures accepted { IfOk result (λ text. IfSome text (λ text. (error : CertError) → IsRefused program.now text.items error → error ≡ Memory)) }
{
    can_verify();
    let errors = check_program(alloc, program, profile)?;
    if errors.is_empty() {
        let text = certificate(alloc, program, profile)?;
        return Ok(Some(text));
    }
    Ok(None)
}
