//! Which errors are derived: of one annotation only the one that is tested first.

ghost use Rattle.std.specs.Prelude.{◌≡◌, None, Some, ◌++◌, IfOk, OnOk};
ghost use Rattle.std.specs.HashMap.{get};
ghost use Rattle.ix_text.specs.declared.span.Span.{Span};
ghost use Rattle.ix_meaning.specs.Listed as spec;
ghost use Rattle.ix_symbols.specs.Ranks as tested;

use ix_meaning::{NameError, Note, Rule};
use ix_text::Span;
use std::alloc::{AllocError, Global};
use std::collections::HashMap;

fn rank(rule: Rule) -> u8
    ensures { result ≡ spec.rank rule }
{
    match rule {
        Rule::UnknownAnnotation => 0,
        Rule::BadArgument => 1,
        Rule::WrongTarget => 2,
        Rule::BadName => 3,
        _ => 4,
    }
}

fn wrongs(alloc: Global, notes: &[Note]) -> Result<Vec<NameError>, AllocError>
    ensures { IfOk result (λ errors. errors.items ≡ spec.wrongs notes.now) }
{
    let mut errors = Vec::new(alloc);
    for note in notes {
        if let Note::Wrong(error) = note {
            errors.push(*error)?;
        }
    }
    Ok(errors)
}

fn lesser(least: Option<u8>, new: u8) -> u8
    ensures { Some result ≡ tested.lesser least new }
{
    match least {
        None => new,
        Some(least) => { if new < least { new } else { least } }
    }
}

fn note_rank(ranks: &mut HashMap<Span, u8>, error: &NameError) -> Result<(), AllocError>
    ensures { OnOk result ((p : Span) → get spec.same_span ranks.new p ≡ tested.lesser_at p (get spec.same_span ranks.old p) error.now) }
{
    let least = lesser(ranks.get(&error.span).copied(), rank(error.rule));
    ranks.insert(error.span, least)?;
    Ok(())
}

fn least_ranks(alloc: Global, notes: &[Note]) -> Result<HashMap<Span, u8>, AllocError>
    ensures { IfOk result (λ least. (p : Span) → get spec.same_span least p ≡ tested.least_rank p None (spec.wrong_annots notes.now)) }
{
    let mut least = HashMap::new(alloc);
    for note in notes {
        if let Note::WrongAnnot(error) = note {
            note_rank(&mut least, error)?;
        }
    }
    Ok(least)
}

fn is_below(least: Option<u8>, rank: u8) -> bool
    ensures { result ≡ tested.is_below least rank }
{
    match least {
        None => false,
        Some(least) => least < rank,
    }
}

fn push_firsts(
    errors: &mut Vec<NameError>,
    least: &HashMap<Span, u8>,
    notes: &[Note],
) -> Result<(), AllocError>
    ensures { OnOk result (errors.new.items ≡ errors.old.items ++ tested.not_above (λ p. get spec.same_span least.now p) (spec.wrong_annots notes.now)) }
{
    for note in notes {
        if let Note::WrongAnnot(error) = note {
            if !is_below(least.get(&error.span).copied(), rank(error.rule)) {
                errors.push(*error)?;
            }
        }
    }
    Ok(())
}

/// Adds the errors of annotations, each time those that are tested first.
fn push_annots(alloc: Global, errors: &mut Vec<NameError>, notes: &[Note]) -> Result<(), AllocError>
    ensures { OnOk result (errors.new.items ≡ errors.old.items ++ spec.firsts (spec.wrong_annots notes.now) (spec.wrong_annots notes.now)) }
{
    let least = least_ranks(alloc, notes)?;
    push_firsts(errors, &least, notes)
}

/// The errors of the notes: all but those of an annotation that has one of an earlier test.
pub fn derived(alloc: Global, notes: &[Note]) -> Result<Vec<NameError>, AllocError>
    ensures { IfOk result (λ errors. errors.items ≡ spec.derived notes.now) }
{
    let mut errors = wrongs(alloc, notes)?;
    push_annots(alloc, &mut errors, notes)?;
    Ok(errors)
}
