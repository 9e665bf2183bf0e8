//! Overriding (JLS 8.4.8).

ghost use Rattle.std.specs.Prelude.{◌≡◌, option_map};
ghost use Rattle.ix_meaning.specs.Inheritance as spec;
ghost use Rattle.ix_meaning.specs.Members as members;
ghost use Rattle.ix_class_members.specs.World.{shown, callee};
ghost use Rattle.ix_class_members.specs.Overriding as parts;

use crate::{Called, World};
use ix_core::Type_;
use ix_meaning::Signature;
use ix_symbols::{is_among, same_type};

fn clashes_with(m: &Signature, other: &Signature) -> bool
    ensures { result ≡ spec.clashes_with m.now other.now }
{
    m.is_static || other.is_static || other.is_private
}

/// Whether one of these classes declares a method of that name that clashes. One walk over all methods does, and few of them clash.
fn some_clashes(all: &[Signature], m: &Signature, classes: &[u32]) -> bool
    ensures { result ≡ parts.some_clashes all.now m.now classes.now }
{
    for other in all {
        if clashes_with(m, other)
            && !other.constructor
            && other.name.as_str() == m.name.as_str()
            && is_among(other.class, classes)
        {
            return true;
        }
    }
    false
}

/// Whether a static method shares its name with an inherited method, or a method with a static or private one of a superclass.
#[tactic(auto, using(crate::proofs::OneWalk::same_clashes))]
pub fn clashes(world: &World, m: &Signature) -> bool
    ensures { result ≡ spec.clashes (shown world.now) world.now.methods m.now }
{
    !m.constructor && some_clashes(world.methods.as_slice(), m, world.supers(m.class))
}

fn instance_method<'w>(world: &'w World, class: u32, name: &str) -> Option<Called<'w>>
    ensures { option_map callee result ≡ spec.if_instance ((shown world.now).method class name.now) }
{
    match world.own_method(class, name) {
        None => None,
        Some(method) => {
            if method.signature.is_static {
                return None;
            }
            Some(method)
        }
    }
}

fn nearest_instance<'w>(world: &'w World, classes: &[u32], name: &str) -> Option<Called<'w>>
    ensures { option_map callee result ≡ members.nearest (parts.instances_named (shown world.now) name.now) classes.now }
{
    for class in classes {
        if let Some(method) = instance_method(world, *class, name) {
            return Some(method);
        }
    }
    None
}

/// The method that an instance method overrides.
fn overridden<'w>(world: &'w World, m: &Signature) -> Option<Called<'w>>
    ensures { option_map callee result ≡ spec.overridden (shown world.now) m.now }
{
    if m.constructor || m.is_static {
        return None;
    }
    nearest_instance(world, world.supers(m.class), m.name.as_str())
}

fn differ(a: &Option<Type_>, b: &Option<Type_>) -> bool
    ensures { result ≡ spec.differ a.now b.now }
{
    match (a, b) {
        (Some(a), Some(b)) => !same_type(a, b),
        _ => false,
    }
}

fn some_differ(a: &[Option<Type_>], b: &[Option<Type_>]) -> bool
    ensures { result ≡ spec.some_differ a.now b.now }
{
    match a {
        [] => match b {
            [] => false,
            _ => true,
        },
        [x, xs @ ..] => match b {
            [] => true,
            [y, ys @ ..] => differ(x, y) || some_differ(xs, ys),
        },
    }
}

fn differs_from(m: &Signature, other: Option<Called<'_>>) -> bool
    ensures { result ≡ spec.differs_from m.now (option_map callee other.entry) }
{
    match other {
        None => false,
        Some(other) => some_differ(m.params.as_slice(), other.signature.params.as_slice())
            || differ(&m.result, &other.signature.result),
    }
}

/// Whether the method overrides one with other types of parameters or another type of result.
pub fn differs(world: &World, m: &Signature) -> bool
    ensures { result ≡ spec.differs_from m.now (spec.overridden (shown world.now) m.now) }
{
    differs_from(m, overridden(world, m))
}
