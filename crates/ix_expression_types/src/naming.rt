//! What the names in an annotation mean at a place: parameters, locals in scope, and fields of `this`.

ghost use Rattle.std.specs.Prelude.{◌≡◌, map};
ghost use Rattle.ix_meaning.specs.Members.{nearest};
ghost use Rattle.ix_meaning.specs.Scope as scope;
ghost use Rattle.ix_expression_types.specs.Here as spec;
ghost use Rattle.ix_class_members.specs.World.{shown};

use crate::scope::{Known, Param, Scopes};
use ix_annot::{Found, Holds, Names, Naming, Target, what_holds};
use ix_class_members::World;
use ix_core::{Name, Type_};
use ix_meaning::{Field, Meaning};

/// A place of an annotation.
#[derive(Drop)]
pub struct InAnnotation<'p, 'a> {
    pub world: &'p World,
    pub scopes: &'p Scopes<'a>,
    /// The declaration that it stands on.
    pub own: Option<Name>,
    /// The name of the local that it stands on, which means nothing yet.
    pub own_local: Option<&'p str>,
}

fn holds(ty: &Option<Type_>) -> Holds
    ensures { result ≡ spec.holds ty.now }
{
    match ty {
        None => Holds::Other,
        Some(ty) => what_holds(ty),
    }
}

fn known_found(known: Known<'_>) -> Option<Found>
    ensures { result ≡ scope.known_as known.entry.meaning known.entry.ty.now }
{
    let name = match known.meaning {
        Meaning::Param(k) => Name::Param(k),
        Meaning::Local(k) => Name::Local(k),
        _ => return None,
    };
    Some(Found {
        name,
        holds: holds(known.ty),
        may_change: false,
    })
}

fn param_numbered(params: &[Param<'_>], number: u32) -> Option<Found>
    ensures { result ≡ scope.known_found (scope.param_numbered number (map spec.param_known params.now)) }
{
    for param in params {
        if param.number == number {
            return Some(Found {
                name: Name::Param(number),
                holds: holds(&param.ty),
                may_change: false,
            });
        }
    }
    None
}

fn instance_field(class: u32, field: &Field) -> Option<Found>
    ensures { result ≡ scope.instance_field class field.now.meaning field.now }
{
    let Some(Meaning::FieldNamed(k)) = field.meaning else {
        return None;
    };
    Some(Found {
        name: Name::FieldNamed(k),
        holds: holds(&field.ty),
        may_change: field.class != class && !field.is_final,
    })
}

fn instance_field_in(world: &World, class: u32, declaring: u32, name: &str) -> Option<Found>
    ensures { result ≡ scope.instance_field_in class ((shown world.now).field declaring name.now) }
{
    match world.own_field(declaring, name) {
        None => None,
        Some(field) => instance_field(class, field),
    }
}

fn nearest_field(world: &World, class: u32, classes: &[u32], name: &str) -> Option<Found>
    ensures { result ≡ nearest (λ a. scope.instance_field_in class ((shown world.now).field a name.now)) classes.now }
{
    for declaring in classes {
        if let Some(found) = instance_field_in(world, class, *declaring, name) {
            return Some(found);
        }
    }
    None
}

/// The instance field of that name in the class, or else in the nearest superclass that declares one.
fn field_of_this(world: &World, scopes: &Scopes<'_>, name: &str) -> Option<Found>
    ensures { result ≡ scope.field_of_this (spec.here world.now scopes.now) name.now }
{
    if !scopes.names_fields {
        return None;
    }
    let class = scopes.class;
    if let Some(found) = instance_field_in(world, class, class, name) {
        return Some(found);
    }
    nearest_field(world, class, world.supers(class), name)
}

fn variable(world: &World, scopes: &Scopes<'_>, name: &str) -> Option<Found>
    ensures { result ≡ spec.variable_found (spec.here world.now scopes.now) name.now }
{
    if let Some(known) = scopes.meant(name) {
        if let Some(found) = known_found(known) {
            return Some(found);
        }
    }
    field_of_this(world, scopes, name)
}

fn is_own_local(own_local: Option<&str>, name: &str) -> bool
    ensures { result ≡ scope.is_pending (spec.text_in own_local.entry) name.now }
{
    match own_local {
        None => false,
        Some(local) => local == name,
    }
}

/// The parameter of that number, from 0.
#[tactic(auto, using(crate::proofs::MeantNames::number_of_params))]
fn numbered(scopes: &Scopes<'_>, number: u32) -> Option<Found>
    ensures { result ≡ scope.known_found (scope.param_numbered number (spec.names scopes.now)) }
{
    param_numbered(scopes.params.as_slice(), number)
}

impl Names for InAnnotation<'_, '_> {
    ghost use Rattle.ix_meaning.specs.Scope.{annot_names};
    ghost use Rattle.ix_expression_types.specs.Here as spec;

    ghost names = { λ place. annot_names (spec.here place.world.now place.scopes.now) place.own (spec.text_in place.own_local) };

    fn found(&self, naming: &Naming) -> Option<Found> {
        match naming {
            Naming::Parameter(number) => numbered(self.scopes, *number),
            Naming::OfThis(name) => field_of_this(self.world, self.scopes, name.as_str()),
            Naming::Variable(name) => {
                if is_own_local(self.own_local, name.as_str()) {
                    None
                } else {
                    variable(self.world, self.scopes, name.as_str())
                }
            }
        }
    }

    fn target(&self) -> Target {
        Target::Other
    }

    fn own(&self) -> Option<Name> {
        self.own
    }
}
