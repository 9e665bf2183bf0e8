//! Hiding (JLS 8.3).

ghost use Rattle.std.specs.Prelude.{◌≡◌, is_some};
ghost use Rattle.ix_meaning.specs.Inheritance as spec;
ghost use Rattle.ix_meaning.specs.Members.{nearest};
ghost use Rattle.ix_class_members.specs.World.{shown};

use crate::World;
use ix_meaning::Field;

fn some_declares(world: &World, classes: &[u32], name: &str) -> bool
    ensures { result ≡ is_some (nearest (λ class. (shown world.now).field class name.now) classes.now) }
{
    for class in classes {
        if world.own_field(*class, name).is_some() {
            return true;
        }
    }
    false
}

/// Whether the field hides an inherited one.
pub fn hides(world: &World, field: &Field) -> bool
    ensures { result ≡ spec.hides (shown world.now) field.now }
{
    some_declares(world, world.supers(field.class), field.name.as_str())
}
