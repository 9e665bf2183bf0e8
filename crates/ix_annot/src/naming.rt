//! What the names in an annotation mean.

ghost use Rattle.std.specs.Prelude.{◌≡◌, ◌+◌, ◌<◌, ◌^◌, length};
ghost use Rattle.ix_core.specs.SameClaims.{same_name};
ghost use Rattle.ix_annot.specs.Named as spec;

use crate::scope::{Found, Holds, Scope, Target};
use crate::texts::Naming;
use ix_core::{Base, Name, Type_};
use ix_text::Text;

/// What an annotation may name, and what it stands on, however a scope is kept.
pub trait Names {
    ghost names: { Self → spec.Names };

    /// What the name means, if it means a variable.
    fn found(&self, naming: &Naming) -> Option<Found>
        ensures found { result ≡ (names self.now).found naming.now };

    /// What the annotation stands on.
    fn target(&self) -> Target
        ensures target { result ≡ (names self.now).target };

    /// The declaration that it stands on.
    fn own(&self) -> Option<Name>
        ensures own { result ≡ (names self.now).own };
}

/// Whether two names are one variable.
pub fn same_name(a: Name, b: Name) -> bool
    ensures { result ≡ same_name a b }
{
    match (a, b) {
        (Name::Param(x), Name::Param(y)) => x == y,
        (Name::Local(x), Name::Local(y)) => x == y,
        (Name::FieldNamed(x), Name::FieldNamed(y)) => x == y,
        _ => false,
    }
}

/// What a variable of that type holds.
pub fn what_holds(ty: &Type_) -> Holds
    ensures { result ≡ spec.what_holds ty.now }
{
    match ty {
        Type_::Plain(Base::Int) => Holds::Int,
        Type_::Array { .. } => Holds::Array,
        _ => Holds::Other,
    }
}

fn is_own(own: Option<Name>, name: Name) -> bool
    ensures { result ≡ spec.is_own own name }
{
    match own {
        None => false,
        Some(own) => same_name(own, name),
    }
}

fn same_holding(a: Holds, b: Holds) -> bool
    ensures { result ≡ spec.same_holding a b }
{
    match a {
        Holds::Int => matches!(b, Holds::Int),
        Holds::Array => matches!(b, Holds::Array),
        Holds::Other => matches!(b, Holds::Other),
    }
}

/// The variable that is named, where it holds what the place needs and is not the declaration itself.
pub fn named<N: Names>(names: &N, need: Holds, naming: &Naming) -> Option<Name>
    ensures { result ≡ spec.named (N.names names.now) need naming.now }
{
    let variable = names.found(naming)?;
    if same_holding(need, variable.holds) && !is_own(names.own(), variable.name) {
        Some(variable.name)
    } else {
        None
    }
}

/// A scope whose parameters have numbers.
#[derive(Drop)]
pub struct InScope<'a> {
    pub scope: &'a Scope,
    ghost few_params: { length scope.now.params < 2 ^ 32 },
}

impl Names for InScope<'_> {
    ghost names = { λ place. spec.names_in place.scope.now };

    fn found(&self, naming: &Naming) -> Option<Found> {
        match naming {
            Naming::Parameter(k) => param_numbered(self.scope.params.as_slice(), *k),
            Naming::OfThis(name) => field_named(self.scope.fields.as_slice(), name),
            Naming::Variable(name) => {
                if is_own_local(self.scope, name) {
                    None
                } else {
                    variable_named(self.scope, name)
                }
            }
        }
    }

    fn target(&self) -> Target {
        self.scope.target
    }

    fn own(&self) -> Option<Name> {
        self.scope.own
    }
}

fn is_own_local(scope: &Scope, name: &Text) -> bool
    ensures { result ≡ spec.is_own_local scope.now scope.now.own name.now }
{
    match scope.own {
        Some(Name::Local(number)) => has_local(scope.locals.as_slice(), number, name),
        _ => false,
    }
}

fn variable_named(scope: &Scope, name: &Text) -> Option<Found>
    requires few_params { length scope.now.params < 2 ^ 32 }
    ensures { result ≡ spec.variable_named scope.now name.now }
{
    if let Some(local) = local_named(scope.locals.as_slice(), name) {
        return Some(local);
    }
    if let Some(param) = param_named(scope.params.as_slice(), name) {
        return Some(param);
    }
    field_named(scope.fields.as_slice(), name)
}

fn found_as(name: Name, ty: &Type_, may_change: bool) -> Found
    ensures { result ≡ spec.found_as name ty.now may_change }
{
    Found {
        name,
        holds: what_holds(ty),
        may_change,
    }
}

fn param_numbered(params: &[(Text, Type_)], k: u32) -> Option<Found>
    ensures { result ≡ spec.param_numbered params.now k }
{
    match params.get(k as usize) {
        None => None,
        Some((_, ty)) => Some(found_as(Name::Param(k), ty, false)),
    }
}

fn param_named(params: &[(Text, Type_)], name: &Text) -> Option<Found>
    requires { length params.now < 2 ^ 32 }
    ensures { result ≡ spec.param_named 0 params.now name.now }
{
    for (k, (param, ty)) in params.iter().enumerate() {
        if param.as_str() == name.as_str() {
            return Some(found_as(Name::Param(k as u32), ty, false));
        }
    }
    None
}

fn local_named(locals: &[(Text, Type_, u32)], name: &Text) -> Option<Found>
    ensures { result ≡ spec.local_named locals.now name.now }
{
    for (local, ty, number) in locals {
        if local.as_str() == name.as_str() {
            return Some(found_as(Name::Local(*number), ty, false));
        }
    }
    None
}

fn field_named(fields: &[(Text, Type_, u32, bool, bool)], name: &Text) -> Option<Found>
    ensures { result ≡ spec.field_named fields.now name.now }
{
    for (field, ty, number, inherited, is_final) in fields {
        if field.as_str() == name.as_str() {
            return Some(found_as(Name::FieldNamed(*number), ty, *inherited && !*is_final));
        }
    }
    None
}

fn has_local(locals: &[(Text, Type_, u32)], number: u32, name: &Text) -> bool
    ensures { result ≡ spec.has_local locals.now number name.now }
{
    for (local, _, k) in locals {
        if *k == number && local.as_str() == name.as_str() {
            return true;
        }
    }
    false
}
