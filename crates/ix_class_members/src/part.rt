//! Which annotations of a declaration are meant.

ghost use Rattle.std.specs.Prelude.{◌≡◌, map, IfOk};
ghost use Rattle.ix_meaning.specs.Annotated as spec;
ghost use Rattle.ix_class_members.specs.Parts.{is_chosen, chosen};

use ix_annot::{counted, row_named};
use ix_text::List;
use ix_tree::Annot;
use std::alloc::{AllocError, Global};

/// Which annotations of a list are meant.
#[derive(Clone, Copy)]
pub enum Part {
    All,
    /// Those that speak of a method or constructor.
    OfMethod,
    /// All others, which speak of a method's result.
    OfResult,
    /// Those that count a claim.
    Counting,
}

/// Whether the annotation speaks of its method or constructor. One that isn't in the table doesn't.
pub fn is_of_method(annot: &Annot) -> bool
    ensures { result ≡ spec.is_of_method annot.now }
{
    match row_named(&annot.name.text) {
        None => false,
        Some((targets, _)) => ix_meaning::is_of_method(targets),
    }
}

pub fn is_chosen(part: Part, annot: &Annot) -> bool
    ensures { result ≡ is_chosen part annot.now }
{
    match part {
        Part::All => true,
        Part::OfMethod => is_of_method(annot),
        Part::OfResult => !is_of_method(annot),
        Part::Counting => 0 < counted(annot),
    }
}

/// Those annotations that are meant.
pub fn gathered<'a>(
    alloc: Global,
    part: Part,
    annots: &'a [Annot],
) -> Result<List<&'a Annot>, AllocError>
    ensures { IfOk result (λ list. map (λ annot. annot.now) list ≡ chosen part annots.now) }
{
    let mut list = List::new(alloc);
    for annot in annots {
        if is_chosen(part, annot) {
            list.push(annot)?;
        }
    }
    Ok(list)
}
