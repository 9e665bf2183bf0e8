//! The table: what uses mean, the types of expressions, and what declarations say.

ghost use Rattle.std.specs.Prelude.{◌≡◌, None, IfOk, OnOk, option_copied};
ghost use Rattle.std.specs.HashMap.{get};
ghost use Rattle.ix_text.specs.declared.span.Span.{Span};
ghost use Rattle.ix_meaning.specs.Listed.{same_span};
ghost use Rattle.ix_meaning.specs.Resolved.{names_in};
ghost use Rattle.ix_symbols.specs.Numbered as spec;

use ix_core::Type_;
use ix_meaning::{Declared, Meaning, Note};
use ix_text::{List, Span};
use std::alloc::{AllocError, Global};
use std::collections::HashMap;

/// What names mean, the types of expressions and what declarations say, by their places.
#[derive(Drop)]
pub struct Table {
    notes: List<Note>,
    /// Of each place the number of its first note of that kind.
    meanings: HashMap<Span, usize>,
    types: HashMap<Span, usize>,
    declarations: HashMap<Span, usize>,
}

impl Table {
    /// What the use at that place means; none where no use stands there.
    pub fn meaning(&self, span: Span) -> Option<Meaning>
        ensures { result ≡ (spec.shown self.now).meaning span }
    {
        match note_at(self.notes.as_slice(), &self.meanings, span) {
            Some(Note::Use(_, meaning)) => Some(*meaning),
            _ => None,
        }
    }

    /// The type of the expression at that place; none where no expression with a type stands there.
    pub fn type_of(&self, span: Span) -> Option<&Type_>
        ensures { option_copied result ≡ (spec.shown self.now).type_of span }
    {
        match note_at(self.notes.as_slice(), &self.types, span) {
            Some(Note::Typed(_, ty)) => Some(ty),
            _ => None,
        }
    }

    /// What the declaration of the name at that place says; none where no name is declared there.
    pub fn declared(&self, span: Span) -> Option<&Declared>
        ensures { option_copied result ≡ (spec.shown self.now).declared span }
    {
        match note_at(self.notes.as_slice(), &self.declarations, span) {
            Some(Note::Declares(_, declared)) => Some(declared),
            _ => None,
        }
    }
}

fn note_at<'a>(notes: &'a [Note], numbers: &HashMap<Span, usize>, span: Span) -> Option<&'a Note>
    ensures { option_copied result ≡ spec.numbered notes.now (get same_span numbers.now span) }
{
    match numbers.get(&span) {
        None => None,
        Some(number) => notes.get(*number),
    }
}

fn keep_first(
    numbers: &mut HashMap<Span, usize>,
    span: Span,
    number: usize,
) -> Result<(), AllocError>
    ensures { OnOk result ((p : Span) → get same_span numbers.new p ≡ spec.first_or (get same_span numbers.old p) (same_span span p) number) }
{
    if numbers.get(&span).is_some() {
        return Ok(());
    }
    numbers.insert(span, number)?;
    Ok(())
}

/// Keeps of each place the number of its first note of each kind.
fn keep_numbers(
    meanings: &mut HashMap<Span, usize>,
    types: &mut HashMap<Span, usize>,
    declarations: &mut HashMap<Span, usize>,
    notes: &[Note],
) -> Result<(), AllocError>
    ensures { record {
      meanings : OnOk result ((p : Span) → get same_span meanings.new p ≡ spec.first_use p (get same_span meanings.old p) 0 notes.now);
      types : OnOk result ((p : Span) → get same_span types.new p ≡ spec.first_typed p (get same_span types.old p) 0 notes.now);
      declarations : OnOk result ((p : Span) → get same_span declarations.new p ≡ spec.first_declared p (get same_span declarations.old p) 0 notes.now);
    } }
{
    for (number, note) in notes.iter().enumerate() {
        match note {
            Note::Use(span, _) => keep_first(meanings, *span, number)?,
            Note::Typed(span, _) => keep_first(types, *span, number)?,
            Note::Declares(span, _) => keep_first(declarations, *span, number)?,
            Note::Wrong(_) | Note::WrongAnnot(_) => {}
        }
    }
    Ok(())
}

/// The table of the notes. Of several notes of one kind at one place the first counts.
pub fn table_of(alloc: Global, notes: List<Note>) -> Result<Table, AllocError>
    ensures { IfOk result (λ table. spec.shown table ≡ names_in notes) }
{
    let mut meanings = HashMap::new(alloc);
    let mut types = HashMap::new(alloc);
    let mut declarations = HashMap::new(alloc);
    keep_numbers(
        &mut meanings,
        &mut types,
        &mut declarations,
        notes.as_slice(),
    )?;
    Ok(Table {
        notes,
        meanings,
        types,
        declarations,
    })
}
