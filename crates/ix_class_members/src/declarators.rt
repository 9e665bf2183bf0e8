//! The annotations of a declarator, of which several share those of one declaration.

ghost use Rattle.std.specs.Prelude.{◌≡◌, Some, map, option_map, IfOk};
ghost use Rattle.ix_meaning.specs.Declarators as spec;
ghost use Rattle.ix_class_members.specs.Begun.{Begins, AllBegin, first_shown};
ghost use Rattle.ix_class_members.specs.Parts.{chosen};

use crate::part::{Part, gathered};
use ix_meaning::same_span;
use ix_text::List;
use ix_tree::{Annot, LocalDecl};
use std::alloc::{AllocError, Global};

/// The annotations that a declarator has: before its type, and behind the base of its type.
#[derive(Drop)]
pub struct Annotations<'a> {
    pub before: List<&'a Annot>,
    pub behind: List<&'a Annot>,
}

/// The first declarator of a declaration, and what the others have of its annotations.
#[derive(Drop)]
pub struct Begun<'a> {
    pub first: &'a LocalDecl,
    pub before: List<&'a Annot>,
    pub behind: List<&'a Annot>,
}

/// Those that are meant of the annotations at the declarator.
fn annotations_at<'a>(
    alloc: Global,
    part: Part,
    decl: &'a LocalDecl,
) -> Result<Annotations<'a>, AllocError>
    ensures { record {
      before : IfOk result (λ own. map (λ annot. annot.now) own.before ≡ chosen part decl.now.mods.annots);
      behind : IfOk result (λ own. map (λ annot. annot.now) own.behind ≡ chosen part decl.now.ty.annots);
    } }
{
    let before = gathered(alloc, part, decl.mods.get().annots.as_slice())?;
    let behind = gathered(alloc, part, decl.ty.get().annots.as_slice())?;
    Ok(Annotations { before, behind })
}

/// All that are written at the declarator.
pub fn own_annotations<'a>(
    alloc: Global,
    decl: &'a LocalDecl,
) -> Result<Annotations<'a>, AllocError>
    ensures { record {
      before : IfOk result (λ own. map (λ annot. annot.now) own.before ≡ decl.now.mods.annots);
      behind : IfOk result (λ own. map (λ annot. annot.now) own.behind ≡ decl.now.ty.annots);
    } }
{
    annotations_at(alloc, Part::All, decl)
}

/// The declaration that begins with that declarator.
pub fn begin_with<'a>(alloc: Global, first: &'a LocalDecl) -> Result<Begun<'a>, AllocError>
    ensures { record {
      begins : IfOk result Begins;
      first : IfOk result (λ begun. begun.first.now ≡ first.now);
    } }
{
    let Annotations { before, behind } = annotations_at(alloc, Part::Counting, first)?;
    Ok(Begun {
        first,
        before,
        behind,
    })
}

fn copied<'a>(annots: &List<&'a Annot>) -> Result<List<&'a Annot>, AllocError>
    ensures { IfOk result (λ list. list ≡ annots.now) }
{
    annots.clone()
}

/// Those behind the base of the type of a further declarator.
fn further_behind<'a>(
    alloc: Global,
    begun: &Begun<'a>,
    decl: &LocalDecl,
) -> Result<List<&'a Annot>, AllocError>
    requires { Begins begun.now }
    ensures { IfOk result (λ list. map (λ annot. annot.now) list ≡ spec.counting_behind begun.now.first.now decl.now) }
{
    if 0 < decl.ty.get().depth {
        return copied(&begun.behind);
    }
    Ok(List::new(alloc))
}

/// Those of a further declarator of the declaration.
pub fn further_annotations<'a>(
    alloc: Global,
    begun: &Begun<'a>,
    decl: &LocalDecl,
) -> Result<Annotations<'a>, AllocError>
    requires { Begins begun.now }
    ensures { record {
      before : IfOk result (λ own. map (λ annot. annot.now) own.before ≡ spec.counting begun.now.first.now.mods.annots);
      behind : IfOk result (λ own. map (λ annot. annot.now) own.behind ≡ spec.counting_behind begun.now.first.now decl.now);
    } }
{
    let before = copied(&begun.before)?;
    let behind = further_behind(alloc, begun, decl)?;
    Ok(Annotations { before, behind })
}

/// Those of a field behind one of a declaration that began so, or behind none.
pub fn field_annotations<'a>(
    alloc: Global,
    begun: &Option<Begun<'a>>,
    decl: &'a LocalDecl,
) -> Result<Annotations<'a>, AllocError>
    requires { AllBegin begun.now }
    ensures { record {
      before : IfOk result (λ own. map (λ annot. annot.now) own.before ≡ spec.annots_before (option_map first_shown begun.now) decl.now);
      behind : IfOk result (λ own. map (λ annot. annot.now) own.behind ≡ spec.annots_behind (option_map first_shown begun.now) decl.now);
    } }
{
    match begun {
        None => own_annotations(alloc, decl),
        Some(begun) => {
            if same_span(begun.first.ty.get().span, decl.ty.get().span) {
                return further_annotations(alloc, begun, decl);
            }
            own_annotations(alloc, decl)
        }
    }
}

/// Whether the field is a further one of the declaration that began so.
fn is_further(begun: &Option<Begun<'_>>, decl: &LocalDecl) -> bool
    ensures { result ≡ spec.is_further (option_map first_shown begun.now) decl.now }
{
    match begun {
        None => false,
        Some(begun) => same_span(begun.first.ty.get().span, decl.ty.get().span),
    }
}

/// The declaration of which the next field may be a further one.
#[tactic(auto, using(crate::proofs::FirstFields::further_first, crate::proofs::FirstFields::other_first))]
pub fn declaration_of<'a>(
    alloc: Global,
    begun: Option<Begun<'a>>,
    decl: &'a LocalDecl,
) -> Result<Option<Begun<'a>>, AllocError>
    requires { AllBegin begun }
    ensures { record {
      begins : IfOk result AllBegin;
      first : IfOk result (λ next. option_map first_shown next ≡ Some (spec.first_of (option_map first_shown begun.entry) decl.now));
    } }
{
    if is_further(&begun, decl) {
        return Ok(begun);
    }
    Ok(Some(begin_with(alloc, decl)?))
}
