//! Calls of libraries that the program doesn't make: the claims of one annotation, the errors of one method and of a source that is joined with another text, a certificate that is written only
//! where there are no errors; and where errors on names end, of which the program shows the starts.
ghost use Rattle.ix_core.specs.Formed.{Formed};
ghost use Rattle.ix_core.specs.Ready.{CanCheck};

use ix_annot::{AnnotError, Claims, Scope, Target, claims};
use ix_certify::write;
use ix_check::{check_joined, method_errors};
use ix_core::{Claim, Error, Profile, Program};
use ix_front::{Finding, of_bytes};
use ix_meaning::NameError;
use ix_text::{List, Span, Text};
use ix_tree::{Annot, Ident};
use std::alloc::Global;

/// An index that may be too high in the first method, and two in the second one, whose name stands at byte 60.
const HIGH: &[u8] =
    b"class A { static int f(int[] a) { return a[0]; } static int g(int[] a) { return a[1] + a[2]; } }";

/// A loop and no access.
const LOOP: &[u8] = b"class A { static void f() { while (true) { } } }";

/// Three values of a type that doesn't fit. The first two begin at one byte with the sum that they are the parts of.
const MISFIT: &[u8] = b"class A { void m(boolean b, int x) { x = b + b - b; } }";

/// Whether the errors are those of an index that may be too high, at these bytes.
fn are_high_at(errors: &[Error], places: &[u32]) -> bool {
    if errors.len() != places.len() {
        return false;
    }
    for number in 0..places.len() {
        if errors[number].rule != 2 || errors[number].span.from != places[number] {
            return false;
        }
    }
    true
}

/// Whether a method has those errors.
fn has_high_at(alloc: Global, program: &Program, method: u32, places: &[u32]) -> bool
    requires { record {
      formed : Formed program.now;
      can : CanCheck program.now;
    } }
{
    if method as usize >= program.methods.len() {
        return false;
    }
    match method_errors(alloc, program, method, Profile::Int32) {
        Ok(errors) => are_high_at(&errors, places),
        Err(_) => false,
    }
}

/// Whether the methods before a byte and those behind it have those errors.
fn have_high_at(alloc: Global, program: &Program, first: u32, own: &[u32], others: &[u32]) -> bool
    requires { record {
      formed : Formed program.now;
      can : CanCheck program.now;
    } }
{
    match check_joined(alloc, program, first, Profile::Int32) {
        Ok((before, behind)) => are_high_at(&before, own) && are_high_at(&behind, others),
        Err(_) => false,
    }
}

/// Whether that certificate is written of a program; none, where it is empty.
fn has_certificate(alloc: Global, program: &Program, wanted: &[u8]) -> bool
    requires { record {
      formed : Formed program.now;
      can : CanCheck program.now;
    } }
{
    match write(alloc, program, Profile::Int32) {
        Ok(Some(text)) => &text[..] == wanted,
        Ok(None) => wanted.is_empty(),
        Err(_) => false,
    }
}

/// Whether the errors on names begin and end at these bytes.
fn are_within(errors: &[NameError], places: &[Span]) -> bool {
    if errors.len() != places.len() {
        return false;
    }
    for number in 0..places.len() {
        if errors[number].span != places[number] {
            return false;
        }
    }
    true
}

/// Whether each method has its own errors, those before and behind the second one's name stand apart, and no certificate is written.
fn high_agrees(alloc: Global) -> bool {
    let Ok(finding) = of_bytes(alloc, HIGH) else {
        return false;
    };
    match &finding {
        Finding::Whole(program) => {
            has_high_at(alloc, program, 0, &[43])
                && has_high_at(alloc, program, 1, &[82, 89])
                && have_high_at(alloc, program, 60, &[43], &[82, 89])
                && has_certificate(alloc, program, b"")
        }
        _ => false,
    }
}

/// Whether the loop's certificate is written.
fn loop_agrees(alloc: Global) -> bool {
    let Ok(finding) = of_bytes(alloc, LOOP) else {
        return false;
    };
    match &finding {
        Finding::Whole(program) => {
            has_certificate(
                alloc,
                program,
                b"certificate 1 int32\nmethod 0\nlabel 0\nend\n",
            )
        }
        _ => false,
    }
}

/// Whether of two errors of one rule that begin at one byte the one that ends first is listed.
fn misfit_agrees(alloc: Global) -> bool {
    let Ok(finding) = of_bytes(alloc, MISFIT) else {
        return false;
    };
    match &finding {
        Finding::Misnamed(errors) => are_within(
            errors.as_slice(),
            &[
                Span { from: 41, to: 42 },
                Span { from: 45, to: 46 },
                Span { from: 49, to: 50 },
            ],
        ),
        _ => false,
    }
}

/// What `@NonNegative` claims of what is given.
fn claims_on(alloc: Global, target: Target) -> Result<Claims, AnnotError> {
    let span = Span { from: 0, to: 12 };
    let name = Ident {
        text: Text::from_str(alloc, "NonNegative")?,
        span,
    };
    let annot = Annot {
        name,
        args: List::new(alloc),
        span,
    };
    let scope = Scope {
        params: List::new(alloc),
        locals: List::new(alloc),
        fields: List::new(alloc),
        target,
        own: None,
    };
    claims(alloc, &annot, &scope)
}

/// Whether `@NonNegative` claims that an int is at least 0, and is refused on an array.
fn claims_agree(alloc: Global) -> bool {
    let is_claim = match claims_on(alloc, Target::Int) {
        Ok(found) => matches!(found.list.as_slice(), [Claim::Low(0)]),
        Err(_) => false,
    };
    is_claim
        && matches!(
            claims_on(alloc, Target::Array),
            Err(AnnotError::WrongTarget)
        )
}

#[test]
fn errors_of_methods_and_parts(rt: HostRuntime) {
    assert!(rt; high_agrees(rt.alloc()));
}

#[test]
fn certificates_of_what_has_no_errors(rt: HostRuntime) {
    assert!(rt; loop_agrees(rt.alloc()));
}

#[test]
fn ends_of_errors_on_names(rt: HostRuntime) {
    assert!(rt; misfit_agrees(rt.alloc()));
}

#[test]
fn claims_of_one_annotation(rt: HostRuntime) {
    assert!(rt; claims_agree(rt.alloc()));
}
