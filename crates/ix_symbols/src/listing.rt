//! The list of errors: by start, rule and end, each once.

ghost use Rattle.std.specs.Prelude.{◌≡◌, ◌++◌, ◌↔◌, [], IfOk, OnOk};
ghost use Rattle.ix_meaning.specs.Listed as spec;

use crate::errors::derived;
use ix_meaning::{NameError, Note, Rule};
use ix_text::List;
use std::alloc::{AllocError, Global};

fn order(rule: Rule) -> u8
    ensures { result ≡ spec.order rule }
{
    match rule {
        Rule::UnknownName => 1,
        Rule::DuplicateName => 2,
        Rule::TypeMismatch => 3,
        Rule::WrongArguments => 4,
        Rule::CyclicClass => 5,
        Rule::NotStatic => 6,
        Rule::FinalAssigned => 7,
        Rule::NotAssignable => 8,
        Rule::BreakOutside => 9,
        Rule::UnknownAnnotation => 10,
        Rule::BadArgument => 11,
        Rule::BadName => 12,
        Rule::WrongTarget => 13,
        Rule::InheritedName => 14,
    }
}

fn sort(errors: &mut Vec<NameError>) -> Result<(), AllocError>
    ensures { OnOk result (spec.IsListed errors.old.items errors.new.items) }
{
    errors.sort_by_key(|e| (e.span.from, order(e.rule), e.span.to))?;
    errors.dedup_by_key(|e| (e.span.from, order(e.rule), e.span.to));
    Ok(())
}

fn listed(alloc: Global, errors: &[NameError]) -> Result<List<NameError>, AllocError>
    ensures { IfOk result (λ list. list ≡ errors.now) }
{
    let mut list = List::new(alloc);
    for error in errors {
        list.push(*error)?;
    }
    Ok(list)
}

/// All errors of the notes, as they are listed.
pub fn errors_of(alloc: Global, notes: &[Note]) -> Result<List<NameError>, AllocError>
    ensures listed { IfOk result (λ list. spec.IsListed (spec.derived notes.now) list) }
    ensures none { IfOk result (λ list. (list ≡ []) ↔ (spec.derived notes.now ≡ [])) }
{
    let mut errors = derived(alloc, notes)?;
    sort(&mut errors)?;
    listed(alloc, errors.as_slice())
}
