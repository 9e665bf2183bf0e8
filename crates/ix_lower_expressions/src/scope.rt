//! What a full expression stands in.
ghost use Rattle.std.specs.Prelude.{◌≡◌, MatchResult, Some, None};
ghost use Rattle.ix_meaning.specs.declared.note.Meaning.TheVariants as meaning;
ghost use Rattle.ix_plain.specs.declared.made.Stop.TheVariants as stop;
ghost use Rattle.ix_plain.specs.Scope as spec;
ghost use Rattle.ix_lower_expressions.specs.Shown.{shown_site, shown_scope};

use ix_core::{Base, Local, Type_};
use ix_meaning::Meaning;
use ix_plain::{Head, Stop};
use ix_symbols::{Table, copied};
use ix_text::Span;
use std::alloc::Global;

/// What stays the same in a body.
#[derive(Clone, Copy)]
pub struct Site<'t> {
    pub table: &'t Table,
    /// The methods of the source, by their numbers.
    pub heads: &'t [Head],
    /// Of each class the number of its constructor.
    pub constructors: &'t [u32],
    /// The class that the body stands in.
    pub class: u32,
    /// The parameters of the method, by their numbers.
    pub params: &'t [Local],
    /// Whether it promises something of one answer, so that each answer is written out where it is returned.
    pub answers: bool,
}

/// What a full expression stands in.
#[derive(Clone, Copy)]
pub struct Scope<'t> {
    pub site: Site<'t>,
    /// The locals of the method so far, by their numbers.
    pub locals: &'t [(Local, Span)],
    /// The slots of the variables that the full expression assigns.
    pub assigned: &'t [u32],
}

/// The slot of a local or a parameter.
pub fn slot_of(scope: &Scope<'_>, meaning: Option<Meaning>) -> u32
    ensures { result ≡ spec.slot_of (shown_scope scope.now) meaning }
{
    match meaning {
        Some(Meaning::Local(number)) => match scope.locals.get(number as usize) {
            Some((local, _)) => local.slot,
            None => 0,
        },
        Some(Meaning::Param(number)) => match scope.site.params.get(number as usize) {
            Some(param) => param.slot,
            None => 0,
        },
        _ => 0,
    }
}

/// Whether the full expression assigns the slot.
pub fn is_assigned(scope: &Scope<'_>, slot: u32) -> bool
    ensures { result ≡ spec.is_among slot scope.now.assigned.now }
{
    for other in scope.assigned {
        if *other == slot {
            return true;
        }
    }
    false
}

/// What the use at that place means.
pub fn meaning_at(scope: &Scope<'_>, span: Span) -> Option<Meaning>
    ensures { result ≡ spec.meaning_at (shown_scope scope.now) span }
{
    scope.site.table.meaning(span)
}

/// The type of the expression at that place.
pub fn type_at(alloc: Global, scope: &Scope<'_>, span: Span) -> Result<Type_, Stop>
    ensures { MatchResult result (λ ty. ty ≡ spec.type_at (shown_scope scope.now) span) (λ cause. cause ≡ stop.Memory) }
{
    match scope.site.table.type_of(span) {
        Some(ty) => copied(alloc, ty).map_err(Stop::from),
        None => Ok(Type_::Void),
    }
}

/// The class that the type of the expression at that place names.
pub fn class_at(scope: &Scope<'_>, span: Span) -> u32
    ensures { result ≡ spec.class_of (spec.type_at (shown_scope scope.now) span) }
{
    match scope.site.table.type_of(span) {
        Some(Type_::Plain(Base::Class(class))) => *class,
        _ => 0,
    }
}

/// The method with that number.
pub fn head_at(site: &Site<'_>, method: u32) -> Head
    ensures { result ≡ spec.head_at (shown_site site.now) method }
{
    site.heads.get(method as usize).copied().unwrap_or(Head {
        class: 0,
        is_static: false,
    })
}

/// The number of a class's constructor.
pub fn constructor_at(site: &Site<'_>, class: u32) -> u32
    ensures { result ≡ spec.constructor_at (shown_site site.now) class }
{
    site.constructors.get(class as usize).copied().unwrap_or(0)
}
